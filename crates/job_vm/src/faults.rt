//! Why a job text isn't read.
ghost use Rattle.std.specs.Prelude.{◌≡◌};
ghost use Rattle.job_vm.specs.declared.faults.JobTextFault.TheVariants.{NoMemory};

use std::alloc::{AllocError, AllocFailed};
use thiserror::Error;

/// A job text was refused, or memory was.
#[derive(Debug, Drop, Error)]
pub enum JobTextFault {
    /// This line is the first at fault, counted from 1. Where the line `tasks` is missing, it is the line after the last one.
    #[error("line {line} of the job text is at fault")]
    BadProgram { line: u64 },
    #[error("there is no memory for the programs")]
    NoMemory,
}

impl From<AllocError> for JobTextFault {
    ghost from_gives = { λ _ e. e ≡ NoMemory };

    fn from(_: AllocError) -> JobTextFault {
        JobTextFault::NoMemory
    }
}

impl<T: Drop> From<AllocFailed<T>> for JobTextFault {
    ghost from_gives = { λ _ e. e ≡ NoMemory };

    fn from(_: AllocFailed<T>) -> JobTextFault {
        JobTextFault::NoMemory
    }
}
