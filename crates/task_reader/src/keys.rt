//! The keys of a set's tables.
ghost use Rattle.std.specs.Prelude.{◌≡◌};
ghost use Rattle.toml.specs.View.{view};
ghost use Rattle.task_reader.specs.Keys.{key_text, keys_of, needed_keys_of, is_known, has_kind};

use crate::refusals::{Key, Place};
use toml::Value;

/// The key as it is written.
pub(crate) fn text_of(key: Key) -> &'static str
    ensures { result.now ≡ key_text key }
{
    match key {
        Key::Processors => "processors",
        Key::Horizon => "horizon",
        Key::Task => "task",
        Key::Name => "name",
        Key::Work => "work",
        Key::Period => "period",
        Key::Offset => "offset",
    }
}

/// The keys that a table may have, in their order.
pub(crate) fn keys_of(place: Place) -> &'static [Key]
    ensures { result.now ≡ keys_of place }
{
    match place {
        Place::Top => &[Key::Processors, Key::Horizon, Key::Task],
        Place::Task(_) => &[Key::Name, Key::Work, Key::Period, Key::Offset],
    }
}

/// The keys that a table must have, in their order.
pub(crate) fn needed_keys_of(place: Place) -> &'static [Key]
    ensures { result.now ≡ needed_keys_of place }
{
    match place {
        Place::Top => &[Key::Processors, Key::Horizon],
        Place::Task(_) => &[Key::Name, Key::Work, Key::Period],
    }
}

/// Whether this is the text of a key that the table may have.
pub(crate) fn is_known(place: Place, text: &str) -> bool
    ensures { result ≡ is_known place text.now }
{
    keys_of(place).iter().any(|key| text_of(*key) == text)
}

/// Whether the value is of the key's kind.
pub(crate) fn has_kind(key: Key, value: &Value) -> bool
    ensures { result ≡ has_kind key (view value.now) }
{
    match key {
        Key::Task => value.is_array(),
        Key::Name => value.is_str(),
        Key::Processors | Key::Horizon | Key::Work | Key::Period | Key::Offset => {
            value.is_integer()
        }
    }
}
