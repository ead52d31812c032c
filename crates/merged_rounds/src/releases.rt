//! From when on no task of a plan waits.
ghost use Rattle.event_core.specs.Told.{AllReleased};

use run_tree::Plan;

/// The tick of the last first release: from there on no task waits for its offset.
pub(crate) fn last_release(plan: &Plan) -> u128
    ensures { AllReleased plan.now result }
{
    plan.know_lawful();
    let mut last = 0u64;
    for task in plan.set().tasks() {
        last = last.max(task.offset);
    }
    u128::from(last) * plan.scale()
}
