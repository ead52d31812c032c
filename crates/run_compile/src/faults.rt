//! Why a set isn't compiled.
use rate_scale::LoadFault;
use sched_base::NoMemory;
use thiserror::Error;

/// Why a set isn't compiled.
#[derive(Clone, Copy, Debug, PartialEq, Eq, Error)]
pub enum CompileFault {
    /// The scale is past 2^94 ticks per unit.
    #[error("the period of task {at} brings the scale past 2^94 ticks per unit")]
    ScaleTooLarge {
        /// The first task whose period brings the least common multiple of the periods up to it past that limit.
        at: u32,
    },
    /// The tasks ask for more than the processors have, both in ticks per unit.
    #[error("{total} ticks per unit are asked for, and {room} are there")]
    Overload {
        total: u128,
        room: u128,
    },
    /// Memory was refused.
    #[error("there is no memory for the plan")]
    NoMemory,
}

impl From<LoadFault> for CompileFault {
    ghost use Rattle.std.specs.Prelude.{◌≡◌};
    ghost use Rattle.run_compile.specs.Answers.{of_load};

    ghost from_gives = { λ e f. f ≡ of_load e };

    fn from(fault: LoadFault) -> Self {
        match fault {
            LoadFault::ScaleTooLarge { at } => CompileFault::ScaleTooLarge { at },
            LoadFault::Overload { total, room } => CompileFault::Overload { total, room },
        }
    }
}

impl From<NoMemory> for CompileFault {
    ghost use Rattle.std.specs.Prelude.{◌≡◌};
    ghost use Rattle.run_compile.specs.declared.faults.CompileFault.TheVariants as fault;

    ghost from_gives = { λ _ f. f ≡ fault.NoMemory };

    fn from(_: NoMemory) -> Self {
        CompileFault::NoMemory
    }
}
