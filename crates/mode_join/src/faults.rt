//! Why sets can't be joined.
ghost use Rattle.std.specs.Prelude.{◌≡◌};
ghost use Rattle.mode_join.specs.declared.faults.ModeFault.TheVariants.{NoMemory};

use std::alloc::AllocFailed;
use thiserror::Error;

/// What is wrong with a set as a mode. Of several the first of this list is told. That a scale is past its limit can't come:
/// each period divides the horizon, so the scale is at most that.
#[derive(Clone, Copy, Debug, PartialEq, Eq)]
pub enum ModeKind {
    /// The set has not as many processors as the first one.
    Processors,
    /// This task, the first such one, isn't released at unit 0.
    Offset { task: u32 },
    /// The period of this task, the first such one, doesn't divide the horizon: it would be open at the mode's end.
    Period { task: u32 },
    /// The tasks ask for more than the processors have, both in ticks per unit.
    Overload { total: u128, room: u128 },
    /// The schedules of the modes up to this one have together more than 2,097,152 rows, of which this is the least multiple
    /// of the number of processors above that limit.
    TooLong { rows: u64 },
}

/// Why sets aren't joined.
#[derive(Clone, Copy, Debug, PartialEq, Eq, Error)]
pub enum ModeFault {
    /// This set, the first such one, can't be a mode.
    #[error("mode {mode} can't be joined: {kind:?}")]
    Refused { mode: u32, kind: ModeKind },
    /// Memory was refused. No clause says when.
    #[error("there is no memory for the modes")]
    NoMemory,
}

impl<T: Drop> From<AllocFailed<T>> for ModeFault {
    ghost from_gives = { λ _ e. e ≡ NoMemory };

    fn from(_: AllocFailed<T>) -> ModeFault {
        ModeFault::NoMemory
    }
}
