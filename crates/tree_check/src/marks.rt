//! Marks of what the members of a level name.
ghost use Rattle.std.specs.Prelude.{◌≡◌, ◌++◌, ◌∷◌, ℕ, List, [], Option, Some, length, map, MatchBool};
ghost use Rattle.tree_check.specs.Faults.{named};
ghost use Rattle.tree_check.specs.Scans.{AreMarks, HasUnmarked, IsBadAfter, IsPlaced};

use crate::names::{named, rate_named};
use crate::written::{Member, ReadTree};

// Marks what is named, and tells whether it is there and had no mark yet.
fn mark(rates: &[u128], marks: &mut [bool], name: Option<u64>) -> bool
    requires { length marks.old ≡ length rates.now }
    ensures marks { (names : List (Option ℕ)) → AreMarks rates.now names marks.old → AreMarks rates.now (names ++ name ∷ []) marks.new }
    ensures result { (names : List (Option ℕ)) → AreMarks rates.now names marks.old
        → MatchBool result (¬ IsBadAfter rates.now names name) (IsBadAfter rates.now names name) }
{
    match name {
        Some(n) => mark_number(rates, marks, n),
        None => false,
    }
}

fn mark_number(rates: &[u128], marks: &mut [bool], n: u64) -> bool
    requires { length marks.old ≡ length rates.now }
    ensures marks { (names : List (Option ℕ)) → AreMarks rates.now names marks.old → AreMarks rates.now (names ++ Some n ∷ []) marks.new }
    ensures result { (names : List (Option ℕ)) → AreMarks rates.now names marks.old
        → MatchBool result (¬ IsBadAfter rates.now names (Some n)) (IsBadAfter rates.now names (Some n)) }
{
    if n >= rates.len() as u64 {
        return false;
    }
    let n = n as usize;
    if rates[n] == 0 {
        return false;
    }
    if marks[n] {
        return false;
    }
    marks[n] = true;
    true
}

/// Marks what the members of a pack of level l name, and gives the sum of their rates, as far as a number goes, or None
/// where one names nothing, or what is marked already.
pub(crate) fn place(
    tree: &ReadTree,
    l: usize,
    rates: &[u128],
    marks: &mut [bool],
    members: &[Member],
) -> Option<u128>
    requires { length marks.old ≡ length rates.now }
    ensures marks { (names : List (Option ℕ)) → AreMarks rates.now names marks.old
        → AreMarks rates.now (names ++ map (named tree.now l) members.now) marks.new }
    ensures result { (names : List (Option ℕ)) → AreMarks rates.now names marks.old
        → IsPlaced rates.now names (map (named tree.now l) members.now) result }
{
    let mut sum: u128 = 0;
    let mut good = true;
    for member in members {
        let name = named(tree, l, member);
        let placed = mark(rates, marks, name);
        good = good && placed;
        sum = sum.saturating_add(rate_named(rates, name));
    }
    if good { Some(sum) } else { None }
}

/// Whether something with a rate has no mark.
pub(crate) fn leaves_out(rates: &[u128], marks: &[bool]) -> bool
    requires { length marks.now ≡ length rates.now }
    ensures { MatchBool result (HasUnmarked rates.now marks.now) (¬ HasUnmarked rates.now marks.now) }
{
    for (i, rate) in rates.iter().enumerate() {
        if *rate > 0 && !marks[i] {
            return true;
        }
    }
    false
}
