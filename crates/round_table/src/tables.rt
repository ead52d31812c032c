//! The table of a plan's rounds.
ghost use Rattle.std.specs.Prelude.{◌≡◌, [], length, replicate, IfOk};
ghost use Rattle.sched_base.specs.Tables.{all_rows, rounds_in};
ghost use Rattle.sched_base.specs.Valid.{IsValid};
ghost use Rattle.run_tree.specs.Plans.{rounds_of, schedule_of, stop_of};
ghost use Rattle.event_core.specs.Cores.{IsCoreOf};
ghost use Rattle.sched_base.specs.Lanes.{lanes_of};

use event_core::Core;
use run_tree::Plan;
use sched_base::{NoMemory, Row, RowTable, blank_rows};
use std::alloc::Global;

// Appends all rounds of the plan.
fn push_rounds(plan: &Plan, core: &mut Core, rows: &mut [Row], table: &mut RowTable)
    requires belongs { IsCoreOf plan.now core.old }
    requires first { core.old.tick ≡ 0 }
    requires rows { length rows.old ≡ plan.now.tree.processors }
    requires none { table.old.lanes ≡ replicate plan.now.tree.processors [] }
    requires room { table.old.room ≡ rounds_of plan.now }
    ensures lanes { table.new.lanes ≡ lanes_of plan.now.tree.processors (schedule_of plan.now) }
    ensures count { rounds_in table.new.lanes ≡ rounds_of plan.now }
    ensures full { table.new.room ≡ 0 }
{
    let end = plan.rounds_end();
    'rounds: while core.now() < end {
        core.advance(plan, rows);
        table.push_round(rows);
    }
}

/// The table of a plan's rounds, where `rounds` is their number. It goes over each round once. Its rows, lane after lane,
/// are a valid schedule of the plan's set up to its horizon.
pub fn table_of(alloc: Global, plan: &Plan, rounds: u64) -> Result<RowTable, NoMemory>
    requires rounds { rounds ≡ rounds_of plan.now }
    ensures lanes { IfOk result (λ t. t.lanes ≡ lanes_of plan.now.tree.processors (schedule_of plan.now)) }
    ensures rounds { IfOk result (λ t. rounds_in t.lanes ≡ rounds) }
    ensures full { IfOk result (λ t. t.room ≡ 0) }
    ensures valid { IfOk result (λ t. IsValid plan.now.set plan.now.tree.scale (stop_of plan.now) (stop_of plan.now) (all_rows t.lanes)) }
{
    let mut table = RowTable::new(alloc, plan.tree().processors(), rounds)?;
    let mut rows = blank_rows(alloc, plan.tree().processors())?;
    let mut core = Core::new(alloc, plan)?;
    push_rounds(plan, &mut core, &mut rows, &mut table);
    table.know_whole();
    Ok(table)
}
