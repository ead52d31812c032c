//! The rows of a schedule as the core writes them, from event to event.
ghost use Rattle.std.specs.Prelude.{◌≡◌, length};
ghost use Rattle.event_core.specs.Cores.{IsCoreOf};

use super::{Round, is_row};
use event_core::Core;
use run_tree::Plan;
use sched_base::{Row, blank_rows};
use std::alloc::Global;
use std::process::Abort;

/// Makes sure that these are the rows of a round, one for each of so many processors.
fn assert_rows(rt: &impl Abort, rows: &[Row], processors: u32, round: &Round) {
    for (row, processor) in rows.iter().zip(0..processors) {
        assert!(rt; is_row(row, processor, round), "{processor}");
    }
}

/// Makes sure that the next round is this one.
fn assert_round(rt: &impl Abort, plan: &Plan, core: &mut Core, rows: &mut [Row], round: &Round)
    requires belongs { IsCoreOf plan.now core.old }
    requires rows { length rows.old ≡ plan.now.tree.processors }
    ensures belongs { IsCoreOf plan.now core.new }
    ensures rows { length rows.new ≡ plan.now.tree.processors }
{
    assert!(rt; core.now() < plan.rounds_end());
    core.advance(plan, rows);
    assert_rows(rt, rows, plan.tree().processors(), round);
}

/// Makes sure that these rounds are all that are left.
fn assert_rounds(rt: &impl Abort, plan: &Plan, core: &mut Core, rows: &mut [Row], rounds: &[Round])
    requires belongs { IsCoreOf plan.now core.old }
    requires rows { length rows.old ≡ plan.now.tree.processors }
{
    for round in rounds {
        assert_round(rt, plan, core, rows, round);
    }
    assert!(rt; core.now() == plan.rounds_end());
}

/// Makes sure that the core of a plan has these rounds.
pub(super) fn assert_core(rt: &impl Abort, alloc: Global, plan: &Plan, rounds: &[Round]) {
    let mut rows = blank_rows(alloc, plan.tree().processors()).expect(rt, "there is memory");
    let mut core = Core::new(alloc, plan).expect(rt, "there is memory");
    assert_rounds(rt, plan, &mut core, &mut rows, rounds);
}
