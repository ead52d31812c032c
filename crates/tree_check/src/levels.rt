//! The first fault of a level.
ghost use Rattle.std.specs.Prelude.{◌≡◌, ◌<◌, ◌≤◌, ◌+◌, [], length, IfOk};
ghost use Rattle.tree_check.specs.Written.{level_at, level_line};
ghost use Rattle.tree_check.specs.Faults.{to_place};
ghost use Rattle.tree_check.specs.Scans.{AreMarks, names_of, fault_of, with_fault, HasFaultBelow, HasFaultIn, IsFound, IsLineFault};

use crate::check::Fault;
use crate::faults::TreeKind;
use crate::marks::{leaves_out, place};
use crate::rates::{to_place, total_of};
use crate::written::ReadTree;
use sched_base::NoMemory;
use std::alloc::Global;

// What is wrong with a pack, where the least rate of the earlier ones is this.
fn pack_fault(sum: Option<u128>, rate: u128, least: u128, scale: u128) -> Option<TreeKind>
    requires { rate ≤ scale }
    ensures { result ≡ fault_of sum rate least scale }
{
    match sum {
        None => Some(TreeKind::Member),
        Some(sum) if sum != rate => Some(TreeKind::Rate),
        Some(_) if least <= scale - rate => Some(TreeKind::Pair),
        Some(_) => None,
    }
}

fn with_fault(first: Option<Fault>, kind: Option<TreeKind>, line: u64) -> Option<Fault>
    ensures { result ≡ with_fault first kind line }
{
    match first {
        Some(fault) => Some(fault),
        None => match kind {
            Some(kind) => Some(Fault { line, kind }),
            None => None,
        },
    }
}

// Marks what the members of level l name, and gives the first fault of its packs. The line is that of the level.
fn scan(tree: &ReadTree, l: usize, line: u64, rates: &[u128], marks: &mut [bool]) -> Option<Fault>
    requires level { l < length tree.now.levels }
    requires line { line ≡ level_line tree.now l }
    requires rates { rates.now ≡ to_place tree.now l }
    requires marks { AreMarks rates.now [] marks.old }
    ensures marks { AreMarks rates.now (names_of tree.now l (level_at tree.now l)) marks.new }
    ensures first { IsFound (HasFaultBelow tree.now l (length (level_at tree.now l))) result }
{
    let scale = tree.scale();
    let mut first: Option<Fault> = None;
    let mut least = u128::MAX;
    for (i, pack) in tree.packs(l).iter().enumerate() {
        let sum = place(tree, l, rates, marks, pack.members());
        let rate = pack.rate();
        let kind = pack_fault(sum, rate, least, scale);
        first = with_fault(first, kind, line + 1 + i as u64);
        least = least.min(rate);
    }
    first
}

// What is wrong at the line of level l itself.
fn line_fault(tree: &ReadTree, l: usize, rates: &[u128], marks: &[bool]) -> Option<TreeKind>
    requires rates { rates.now ≡ to_place tree.now l }
    requires marks { AreMarks rates.now (names_of tree.now l (level_at tree.now l)) marks.now }
    ensures { IsLineFault tree.now l result }
{
    if l == 0 && total_of(rates) != u128::from(tree.set().processors()) * tree.scale() {
        return Some(TreeKind::Total);
    }
    if leaves_out(rates, marks) {
        return Some(TreeKind::Unplaced);
    }
    None
}

/// The first fault of level l, whose line this is.
pub(crate) fn level_fault(
    alloc: Global,
    tree: &ReadTree,
    l: usize,
    line: u64,
) -> Result<Option<Fault>, NoMemory>
    requires level { l < length tree.now.levels }
    requires line { line ≡ level_line tree.now l }
    ensures { IfOk result (IsFound (HasFaultIn tree.now l)) }
{
    let rates = to_place(alloc, tree, l)?;
    let mut marks = vec![in alloc; false; rates.len()]?;
    let first = scan(tree, l, line, &rates, &mut marks);
    match line_fault(tree, l, &rates, &marks) {
        Some(kind) => Ok(Some(Fault { line, kind })),
        None => Ok(first),
    }
}
