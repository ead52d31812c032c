//! Keys: an end and its place in one number, of which the earlier has the lesser.
ghost use Rattle.std.specs.Prelude.{◌≡◌, ◌<◌, ◌≤◌, min};
ghost use Rattle.knockout.specs.Knockouts.{key_of, end_of, index_of, never, places};

use crate::Entry;

/// How many places a key can tell apart.
pub(crate) const PLACES: u64 = 1 << 30;

/// An end, and below it its place: so keys are in order by their ends, and those of one end by their places.
#[derive(Clone, Copy)]
pub(crate) struct Key(pub(crate) u64);

/// The key of an end at a place.
pub(crate) fn key_of(end: u64, index: u32) -> Key
    requires end { end ≤ never }
    requires index { index < places }
    ensures { result.0 ≡ key_of end index }
{
    Key(end * PLACES + u64::from(index))
}

/// The earlier of two keys.
pub(crate) fn earlier(x: Key, y: Key) -> Key
    ensures { result.0 ≡ min x.0 y.0 }
{
    Key(x.0.min(y.0))
}

/// The end and the place of a key.
pub(crate) fn entry_of(key: Key) -> Entry
    ensures end { result.end ≡ end_of key.0 }
    ensures index { result.index ≡ index_of key.0 }
{
    Entry {
        end: key.0 / PLACES,
        index: (key.0 % PLACES) as u32,
    }
}
