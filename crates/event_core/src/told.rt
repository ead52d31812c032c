//! The processors on which a round may show something else than the one before.
ghost use Rattle.std.specs.Prelude.{ℕ, ◌≡◌, ◌+◌, ◌<◌, ◌≤◌, length, None, Some, slice_index, slice_index_or, slice_set};
ghost use Rattle.event_core.specs.Told.{AreHeldTold};

use cpu_assign::Places;

// The processor that pack i holds, where it holds one.
fn holder_of(places: &Places, i: u32) -> Option<u32>
    requires { i < length places.now.last }
    ensures holder { (q : ℕ) → slice_index_or places.now.onto q None ≡ Some i → result ≡ Some q }
    ensures within { (q : ℕ) → result ≡ Some q → q < length places.now.onto }
{
    places.know_noted();
    if places.holds(i) {
        places.last_of(i)
    } else {
        None
    }
}

// A processor, where there is one, is told behind the first `count`. How many are told then.
fn tell(processor: Option<u32>, told: &mut [u32], count: usize) -> usize
    requires { count < length told.old }
    ensures some { (q : ℕ) → processor ≡ Some q → (result ≡ count + 1) × (told.new ≡ slice_set told.old count q) }
    ensures none { processor ≡ None → (result ≡ count) × (told.new ≡ told.old) }
{
    match processor {
        None => count,
        Some(q) => {
            told[count] = q;
            count + 1
        },
    }
}

/// Tells the processor that each of these packs holds, where it holds one. How many are told.
pub(crate) fn tell_places(places: &Places, packs: &[u32], told: &mut [u32]) -> usize
    requires packs { (k : ℕ) → k < length packs.now → slice_index packs.now k < length places.now.last }
    requires room { length packs.now ≤ length told.old }
    ensures within { result ≤ length told.new }
    ensures told { AreHeldTold places.now.onto packs.now told.new (length packs.now) result }
{
    let mut count = 0;
    for k in 0..packs.len() {
        count = tell(holder_of(places, packs[k]), told, count);
    }
    count
}
