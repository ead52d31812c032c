//! Whether a set can be a mode, and the rounds of its plan behind other modes.
ghost use Rattle.std.specs.Prelude.{◌≡◌, ◌≤◌, ◌+◌, ◌*◌, List, IfOk, IfErr, IfSome, IfNone};
ghost use Rattle.sched_base.specs.Sets.{SetContents};
ghost use Rattle.sched_base.specs.Scale.{PeriodsDivide, Fits};
ghost use Rattle.sched_base.specs.Tables.{row_limit};
ghost use Rattle.run_tree.specs.Plans.{rounds_of};
ghost use Rattle.mode_join.specs.Joining.{CanJoin, IsPlanOf, IsFirstOf, RefusesAs, IsOverloadOf, IsTooLongAfter};

use crate::faults::{ModeFault, ModeKind};
use event_core::{CountFault, count_rounds};
use repeat_laws::{first_late, first_open};
use run_compile::{CompileFault, compile};
use run_tree::Plan;
use sched_base::{ROW_LIMIT, TaskSet};
use std::alloc::Global;

/// What the set itself says against a mode on so many processors, whatever comes before it.
pub(crate) fn unfit(processors: u32, set: &TaskSet) -> Option<ModeKind>
    ensures some { IfSome result (λ kind. (before : List SetContents) → IsFirstOf processors before set.now kind) }
    ensures none { IfNone result (CanJoin processors set.now) }
{
    if set.processors() != processors {
        return Some(ModeKind::Processors);
    }
    if let Some(task) = first_late(set.tasks()) {
        return Some(ModeKind::Offset { task: task as u32 });
    }
    if let Some(task) = first_open(set.tasks(), set.horizon()) {
        return Some(ModeKind::Period { task: task as u32 });
    }
    None
}

/// The plan of a set that may be mode `mode`.
pub(crate) fn plan_of(alloc: Global, mode: u32, set: TaskSet) -> Result<Plan, ModeFault>
    requires { PeriodsDivide set.tasks set.horizon }
    ensures plan { IfOk result (λ plan. IsPlanOf set plan) }
    ensures fits { IfOk result (λ plan. Fits plan.tree.scale set) }
    ensures refused { IfErr result (λ fault. RefusesAs mode (IsOverloadOf set) fault) }
{
    set.know_lawful();
    match compile(alloc, set) {
        Ok(plan) => Ok(plan),
        Err(CompileFault::Overload { total, room }) => Err(ModeFault::Refused {
            mode,
            kind: ModeKind::Overload { total, room },
        }),
        Err(CompileFault::ScaleTooLarge { .. }) => unreachable!(),
        Err(CompileFault::NoMemory) => Err(ModeFault::NoMemory),
    }
}

/// The number of rounds of the plan of mode `mode`, where the modes before it have so many rows.
pub(crate) fn rounds_after(
    alloc: Global,
    mode: u32,
    rows: u64,
    plan: &Plan,
) -> Result<u64, ModeFault>
    requires { rows ≤ row_limit }
    ensures count { IfOk result (λ count. (count ≡ rounds_of plan.now) × (rows + count * plan.now.set.processors ≤ row_limit)) }
    ensures some { IfOk result (λ count. 1 ≤ count) }
    ensures refused { IfErr result (λ fault. RefusesAs mode (IsTooLongAfter rows plan.now) fault) }
{
    let processors = u64::from(plan.set().processors());
    match count_rounds(alloc, plan) {
        Ok(count) if rows + count * processors <= ROW_LIMIT => Ok(count),
        Ok(_) | Err(CountFault::TooLong { .. }) => Err(ModeFault::Refused {
            mode,
            kind: ModeKind::TooLong {
                rows: (ROW_LIMIT / processors + 1) * processors,
            },
        }),
        Err(CountFault::NoMemory) => Err(ModeFault::NoMemory),
    }
}
