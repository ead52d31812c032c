//! The schedule of a task set round by round.
ghost use Rattle.std.specs.Prelude.{◌≡◌, ◌≢◌, ◌<◌, ◌≤◌, ℕ, length, slice_index, Some, None, IfOk, IfErr};
ghost use Rattle.run_tree.specs.Plans.{stop_of};
ghost use Rattle.round_steps.specs.Refusals.{IsRefusedFor};
ghost use Rattle.round_steps.specs.Steps.{StepsHeld};
ghost use Rattle.furnacelime_c.specs.Rounds.{IsAboutPlan, Begins, IsOpened, IsNotOpened, IsRoundTold, IsNext, IsOver, IsShort};
ghost use Rattle.furnacelime_c.specs.Numbers.{wrong_call, over, IsRoundsEnd};

use crate::numbers::{OVER, WRONG_CALL};
use c_handles::StepsHandle;
use round_steps::{Halves, OpenFault, Steps, halves_of};
use std::alloc::Global;

/// What a plan is about: the ticks of a unit, the tick at which the last round ends, and the number of processors.
#[repr(C)]
#[derive(Clone, Copy, Debug, PartialEq, Eq)]
pub struct About {
    pub scale: Halves,
    pub end: Halves,
    pub processors: u32,
}

/// A round, in ticks. The end is excluded.
#[repr(C)]
#[derive(Clone, Copy, Debug, PartialEq, Eq)]
pub struct Round {
    pub start: Halves,
    pub end: Halves,
}

/// Opens the plan of a task set, before its first round; else the number is the status with which the program refuses the set.
#[unsafe(no_mangle)]
pub extern "C" fn furnacelime_open(
    alloc: Global,
    set: &[u8],
    plan: &mut StepsHandle,
    about: &mut About,
) -> u8
    requires closed { plan.old.steps ≡ None }
    ensures opened { result ≡ 0 → IsOpened set.now plan.new.steps about.new }
    ensures refused { result ≢ 0 → IsNotOpened set.now plan.new.steps result }
    ensures untold { result ≢ 0 → about.new ≡ about.old }
{
    match open_boxed(alloc, set) {
        Ok(steps) => {
            *about = about_of(&steps);
            *plan = StepsHandle::of(steps);
            0
        }
        Err(fault) => fault.status().code(),
    }
}

/// Goes on by the next round, and tells it; after the last one the number is 65, and with room for too few tasks 64. The plan
/// moves into `kept`.
#[unsafe(no_mangle)]
pub extern "C" fn furnacelime_next(
    alloc: Global,
    plan: StepsHandle,
    kept: &mut StepsHandle,
    tasks: &mut [u32],
    round: &mut Round,
) -> u8
    requires open { plan.steps ≢ None }
    requires empty { kept.old.steps ≡ None }
    ensures next { result ≡ 0 → IsNext plan.steps kept.new.steps round.new tasks.new }
    ensures rest { result ≡ 0 → (s : StepsHeld) × (plan.steps ≡ Some s)
        × ((q : ℕ) → s.plan.tree.processors ≤ q → slice_index tasks.new q ≡ slice_index tasks.old q) }
    ensures over { result ≡ over → IsOver plan.steps kept.new.steps }
    ensures short { result ≡ wrong_call → IsShort plan.steps kept.new.steps (length tasks.old) }
    ensures untold { result ≢ 0 → (round.new ≡ round.old) × (tasks.new ≡ tasks.old) }
    ensures status { IsRoundsEnd result }
{
    let mut steps = plan.into_box(alloc);
    let status = tell_next(&mut steps, tasks, round);
    *kept = StepsHandle::of(steps);
    status
}

/// Gives the memory of a plan back.
#[unsafe(no_mangle)]
pub extern "C" fn furnacelime_close(alloc: Global, plan: StepsHandle)
    requires open { plan.steps ≢ None }
{
    let _steps = plan.into_box(alloc);
}

// The steps of a set, in a block of their own.
fn open_boxed(alloc: Global, set: &[u8]) -> Result<Box<Steps>, OpenFault>
    ensures opened { IfOk result (λ steps. Begins set.now steps.value) }
    ensures refused { IfErr result (IsRefusedFor set.now) }
{
    let steps = Steps::open(alloc, set)?;
    match Box::new(alloc, steps) {
        Ok(boxed) => Ok(boxed),
        Err(_) => Err(OpenFault::NoMemory),
    }
}

// What is told of a plan.
fn about_of(steps: &Steps) -> About
    ensures { IsAboutPlan steps.now.plan result }
{
    About {
        scale: halves_of(steps.scale()),
        end: halves_of(steps.end()),
        processors: steps.processors(),
    }
}

// Goes on by the next round, and tells it.
fn tell_next(steps: &mut Steps, tasks: &mut [u32], round: &mut Round) -> u8
    ensures next { result ≡ 0 → IsRoundTold steps.old steps.new round.new tasks.new }
    ensures rest { result ≡ 0 → (q : ℕ) → steps.old.plan.tree.processors ≤ q → slice_index tasks.new q ≡ slice_index tasks.old q }
    ensures over { result ≡ over → (steps.new ≡ steps.old) × (stop_of steps.old.plan ≤ steps.old.core.tick) }
    ensures short { result ≡ wrong_call → (steps.new ≡ steps.old) × (length tasks.old < steps.old.plan.tree.processors) }
    ensures untold { result ≢ 0 → (round.new ≡ round.old) × (tasks.new ≡ tasks.old) }
    ensures status { IsRoundsEnd result }
{
    if tasks.len() < steps.processors() as usize {
        return WRONG_CALL;
    }
    let start = steps.now();
    if !steps.go_on() {
        return OVER;
    }
    round.start = halves_of(start);
    round.end = halves_of(steps.now());
    steps.write_tasks(tasks);
    0
}
