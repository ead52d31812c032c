//! Why a set isn't opened.
ghost use Rattle.std.specs.Prelude.{◌≡◌, ◌≢◌};
ghost use Rattle.round_steps.specs.Refusals.{status_of};

use exit_status::Status;
use run_compile::CompileFault;
use sched_base::NoMemory;
use task_reader::ReadSet;

/// Why the rounds of a set aren't told.
#[derive(Drop)]
pub enum OpenFault {
    /// There are more than 1,048,576 bytes.
    InputTooLong,
    /// The bytes are no task set, for this reason.
    BadSet(ReadSet),
    /// The set doesn't fit, or its scale is too large.
    NotRun(CompileFault),
    /// Memory was refused.
    NoMemory,
}

impl OpenFault {
    /// The status with which the program refuses the set.
    pub fn status(&self) -> Status
        ensures status { result ≡ status_of self.now }
        ensures refuses { result ≢ Status.Done }
    {
        match self {
            OpenFault::NoMemory => Status::NoMemory,
            OpenFault::BadSet(ReadSet::NoMemory) => Status::NoMemory,
            OpenFault::NotRun(CompileFault::NoMemory) => Status::NoMemory,
            OpenFault::BadSet(_) => Status::BadInput,
            OpenFault::NotRun(CompileFault::Overload { .. }) => Status::Overload,
            OpenFault::NotRun(CompileFault::ScaleTooLarge { .. }) => Status::ScaleTooLarge,
            OpenFault::InputTooLong => Status::InputTooLong,
        }
    }
}

impl From<ReadSet> for OpenFault {
    ghost use Rattle.std.specs.Prelude.{◌≡◌};
    ghost use Rattle.round_steps.specs.declared.faults.OpenFault.TheVariants as fault;

    ghost from_gives = { λ e f. f ≡ fault.BadSet e };

    fn from(refusal: ReadSet) -> Self {
        OpenFault::BadSet(refusal)
    }
}

impl From<CompileFault> for OpenFault {
    ghost use Rattle.std.specs.Prelude.{◌≡◌};
    ghost use Rattle.round_steps.specs.declared.faults.OpenFault.TheVariants as fault;

    ghost from_gives = { λ e f. f ≡ fault.NotRun e };

    fn from(refusal: CompileFault) -> Self {
        OpenFault::NotRun(refusal)
    }
}

impl From<NoMemory> for OpenFault {
    ghost use Rattle.std.specs.Prelude.{◌≡◌};
    ghost use Rattle.round_steps.specs.declared.faults.OpenFault.TheVariants as fault;

    ghost from_gives = { λ _ f. f ≡ fault.NoMemory };

    fn from(_: NoMemory) -> Self {
        OpenFault::NoMemory
    }
}
