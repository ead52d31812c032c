//! Rows in the order of a key, and the first that overlaps an earlier one of its key.
ghost use Rattle.std.specs.Prelude.{◌≡◌, ◌+◌, ◌<◌, None, MatchOption, IsSorted};
ghost use Rattle.std.specs.List.{IsDistinct, AllByRecursion};
ghost use Rattle.trace_verdict.specs.Orders.{entry_cmp};
ghost use Rattle.trace_verdict.specs.Overlaps.{is_apart_from, walk, clash, IsLong};

/// A row by its key, its start, its place among the rows and its end. The order of the fields is the order of entries: as
/// places differ, the end never decides.
#[derive(Clone, Copy, PartialEq, Eq, PartialOrd, Ord)]
pub struct Entry {
    /// The row's processor, or its task.
    pub key: u32,
    pub start: u128,
    pub place: u32,
    pub end: u128,
}

fn is_apart_from(last: &Option<Entry>, entry: &Entry) -> bool
    ensures { result ≡ is_apart_from last.now entry.now }
{
    match last {
        None => true,
        Some(before) => before.key != entry.key || before.end <= entry.start,
    }
}

// Whether no two rows of one key at places below the limit overlap. In this order an overlap of any two shows at neighbours.
fn is_apart_below(entries: &[Entry], limit: u32) -> bool
    ensures { result ≡ walk limit None entries.now }
{
    let mut last: Option<Entry> = None;
    for entry in entries {
        if entry.place < limit {
            if !is_apart_from(&last, entry) {
                return false;
            }
            last = Some(*entry);
        }
    }
    true
}

/// The least place of a row that overlaps a row of its key at an earlier place, among `count` rows. The least place isn't
/// that of the first neighbours that overlap, but 'no two of the first rows overlap' falls with their number, so it is
/// found by halving.
pub fn first_clash(entries: &[Entry], count: u32) -> Option<u32>
    requires sorted { IsSorted entry_cmp entries.now }
    requires long { AllByRecursion IsLong entries.now }
    ensures { MatchOption result (IsDistinct (clash count) entries.now)
        (λ i. (i < count) × IsDistinct (clash i) entries.now × ¬ (IsDistinct (clash (i + 1)) entries.now)) }
{
    if is_apart_below(entries, count) {
        return None;
    }
    let mut low = 0;
    let mut high = count;
    while high - low > 1 {
        let middle = low + (high - low) / 2;
        if is_apart_below(entries, middle) {
            low = middle;
        } else {
            high = middle;
        }
    }
    Some(low)
}
