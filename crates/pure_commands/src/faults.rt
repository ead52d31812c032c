//! Which refusal a fault of a call below is.
ghost use Rattle.std.specs.Prelude.{◌≡◌};
ghost use Rattle.pure_commands.specs.Faults.{of_take, of_read_set, of_read_trace, of_read_source, of_read_tree, of_check_tree, of_read_jobs, of_compile};
ghost use Rattle.pure_commands.specs.Faults.{of_count, of_join, of_load, of_wrap};
ghost use Rattle.pure_commands.specs.declared.refusal.Refusal.TheVariants as why;

use crate::mode_refusal::ModeRefusal;
use crate::refusal::Refusal;
use event_core::CountFault;
use job_vm::JobTextFault;
use mode_join::ModeFault;
use rate_scale::LoadFault;
use run_compile::CompileFault;
use sched_base::NoMemory;
use sched_edges::{Failed, TakeFault};
use std::alloc::AllocFailed;
use task_reader::ReadSet;
use trace_check::{SourceFault, TraceFault};
use tree_check::TreeRefused;
use tree_reader::TreeFault;
use wrap_sched::WrapFault;

impl From<NoMemory> for Refusal {
    ghost from_gives = { λ _ refusal. refusal ≡ why.NoMemory };

    fn from(_: NoMemory) -> Self {
        Refusal::NoMemory
    }
}

impl<T: Drop> From<AllocFailed<T>> for Refusal {
    ghost from_gives = { λ _ refusal. refusal ≡ why.NoMemory };

    fn from(_: AllocFailed<T>) -> Self {
        Refusal::NoMemory
    }
}

// A sink failed: the sink of a text, since what `err` takes has no refusal of its own.
impl From<Failed> for Refusal {
    ghost from_gives = { λ _ refusal. refusal ≡ why.WriteFault };

    fn from(_: Failed) -> Self {
        Refusal::WriteFault
    }
}

impl From<TakeFault> for Refusal {
    ghost from_gives = { λ fault refusal. refusal ≡ of_take fault };

    fn from(fault: TakeFault) -> Self {
        match fault {
            TakeFault::Read => Refusal::ReadFault,
            TakeFault::TooLong { count } => Refusal::InputTooLong { count },
            TakeFault::NoMemory => Refusal::NoMemory,
        }
    }
}

impl From<ReadSet> for Refusal {
    ghost from_gives = { λ fault refusal. refusal ≡ of_read_set fault };

    fn from(fault: ReadSet) -> Self {
        match fault {
            ReadSet::NoMemory => Refusal::NoMemory,
            refusal => Refusal::BadSet(refusal),
        }
    }
}

impl From<TraceFault> for Refusal {
    ghost from_gives = { λ fault refusal. refusal ≡ of_read_trace fault };

    fn from(fault: TraceFault) -> Self {
        match fault {
            TraceFault::BadLine { line } => Refusal::BadLine { line },
            TraceFault::NoMemory => Refusal::NoMemory,
        }
    }
}

impl From<SourceFault> for Refusal {
    ghost from_gives = { λ fault refusal. refusal ≡ of_read_source fault };

    fn from(fault: SourceFault) -> Self {
        match fault {
            SourceFault::Unread(fault) => Refusal::from(fault),
            SourceFault::BadLine { line } => Refusal::BadLine { line },
        }
    }
}

impl From<TreeFault> for Refusal {
    ghost from_gives = { λ fault refusal. refusal ≡ of_read_tree fault };

    fn from(fault: TreeFault) -> Self {
        match fault {
            TreeFault::BadLine { line } => Refusal::BadLine { line },
            TreeFault::NoMemory => Refusal::NoMemory,
        }
    }
}

impl From<TreeRefused> for Refusal {
    ghost from_gives = { λ fault refusal. refusal ≡ of_check_tree fault };

    fn from(fault: TreeRefused) -> Self {
        match fault {
            TreeRefused::Fault { line, kind } => Refusal::BadTree { line, kind },
            TreeRefused::NoMemory => Refusal::NoMemory,
        }
    }
}

impl From<JobTextFault> for Refusal {
    ghost from_gives = { λ fault refusal. refusal ≡ of_read_jobs fault };

    fn from(fault: JobTextFault) -> Self {
        match fault {
            JobTextFault::BadProgram { line } => Refusal::BadProgram { line },
            JobTextFault::NoMemory => Refusal::NoMemory,
        }
    }
}

impl From<LoadFault> for Refusal {
    ghost from_gives = { λ fault refusal. refusal ≡ of_load fault };

    fn from(fault: LoadFault) -> Self {
        match fault {
            LoadFault::ScaleTooLarge { at } => Refusal::ScaleTooLarge { task: at },
            LoadFault::Overload { total, room } => Refusal::Overload { total, room },
        }
    }
}

impl From<CompileFault> for Refusal {
    ghost from_gives = { λ fault refusal. refusal ≡ of_compile fault };

    fn from(fault: CompileFault) -> Self {
        match fault {
            CompileFault::ScaleTooLarge { at } => Refusal::ScaleTooLarge { task: at },
            CompileFault::Overload { total, room } => Refusal::Overload { total, room },
            CompileFault::NoMemory => Refusal::NoMemory,
        }
    }
}

impl From<CountFault> for Refusal {
    ghost from_gives = { λ fault refusal. refusal ≡ of_count fault };

    fn from(fault: CountFault) -> Self {
        match fault {
            CountFault::TooLong { rows } => Refusal::TooLong { rows },
            CountFault::NoMemory => Refusal::NoMemory,
        }
    }
}

impl From<ModeFault> for Refusal {
    ghost from_gives = { λ fault refusal. refusal ≡ of_join fault };

    fn from(fault: ModeFault) -> Self {
        match fault {
            ModeFault::Refused { mode, kind } => Refusal::OfMode {
                mode,
                refusal: ModeRefusal::NotJoined(kind),
            },
            ModeFault::NoMemory => Refusal::NoMemory,
        }
    }
}

impl From<WrapFault> for Refusal {
    ghost from_gives = { λ fault refusal. refusal ≡ of_wrap fault };

    fn from(fault: WrapFault) -> Self {
        match fault {
            WrapFault::TooLong { rows } => Refusal::TooLong { rows },
            WrapFault::NoMemory => Refusal::NoMemory,
        }
    }
}
