//! What members name.
ghost use Rattle.std.specs.Prelude.{◌≡◌};
ghost use Rattle.tree_check.specs.Faults.{named, leaf_number, dual_number};
ghost use Rattle.tree_check.specs.Scans.{rate_in};
ghost use Rattle.tree_check.specs.TextTree.{leaf_named, number_of};

use crate::written::{Member, ReadTree};
use sched_base::{Leaf, TaskId, TaskSet};

/// The number of what a member of level l names.
pub(crate) fn named(tree: &ReadTree, l: usize, member: &Member) -> Option<u64>
    ensures { result ≡ named tree.now l member.now }
{
    if l == 0 {
        leaf_number(tree.set(), member)
    } else {
        dual_number(member)
    }
}

fn leaf_number(set: &TaskSet, member: &Member) -> Option<u64>
    ensures { result ≡ leaf_number set.now.tasks member.now }
{
    let count = set.count();
    match member {
        Member::Name(name) => match set.find(name.as_slice()) {
            Some(j) => Some(u64::from(j)),
            None => None,
        },
        Member::Number(number) => Some(u64::from(count) + u64::from(*number)),
    }
}

fn dual_number(member: &Member) -> Option<u64>
    ensures { result ≡ dual_number member.now }
{
    match member {
        Member::Name(_) => None,
        Member::Number(number) => Some(u64::from(*number)),
    }
}

/// The rate of what is named, 0 where nothing is.
pub(crate) fn rate_named(rates: &[u128], name: Option<u64>) -> u128
    ensures { result ≡ rate_in rates.now name }
{
    match name {
        Some(n) if n < rates.len() as u64 => rates[n as usize],
        _ => 0,
    }
}

/// The leaf that a member of level 0 names, where it names one.
pub(crate) fn leaf_of(set: &TaskSet, member: &Member) -> Leaf
    ensures { result ≡ leaf_named (leaf_number set.now.tasks member.now) member.now }
{
    let _count = set.count();
    match member {
        Member::Number(number) => Leaf::Idle(*number),
        Member::Name(name) => match set.find(name.as_slice()) {
            Some(j) => Leaf::Task(TaskId(j)),
            None => Leaf::Empty,
        },
    }
}

/// The number by which a member of a higher level names its pack.
pub(crate) fn number_of(member: &Member) -> u32
    ensures { result ≡ number_of member.now }
{
    match member {
        Member::Name(_) => 0,
        Member::Number(number) => *number,
    }
}
