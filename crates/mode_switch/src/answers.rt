//! What a run of modes answers.
ghost use Rattle.std.specs.Prelude.{◌≡◌, ◌<◌, length, option_map, slice_get, Some};
ghost use Rattle.mode_switch.specs.declared.answers.ModesFault.TheVariants.{NoMemory};
ghost use Rattle.mode_switch.specs.Runs.{fault_in};

use exec_workers::{ExecFault, Executed};
use sched_base::{Row, RowTable};
use std::alloc::AllocError;
use std::marker::Model;
use thiserror::Error;

/// Modes that were run to the end of the last one.
#[derive(Drop)]
pub struct ModesRun {
    pub(crate) runs: Vec<Executed>,
}

impl Model for ModesRun {
    ghost use Rattle.std.specs.Prelude.{List, ◌≤◌, length};
    ghost use Rattle.sched_base.specs.Tables.{row_limit};
    ghost use Rattle.exec_lanes.specs.declared.answers.Executed.{Executed};

    ghost Value = { List Executed };

    ghost view = { λ s. s.runs.items };

    ghost invariant = { λ s. length s.runs.items ≤ row_limit };
}

impl ModesRun {
    /// The number of modes.
    pub fn count(&self) -> u32
        ensures { result ≡ length self.now }
    {
        self.runs.len() as u32
    }

    /// All rounds of mode j's schedule. Its ticks begin with 0 at the mode's start.
    pub fn table(&self, j: u32) -> &RowTable
        requires { j < length self.now }
        ensures { option_map (λ e. e.table) (slice_get self.now j) ≡ Some result.now }
    {
        &self.runs[j as usize].table
    }

    /// The ticks of mode j that the job of each of its tasks has worked.
    pub fn totals(&self, j: u32) -> &[u128]
        requires { j < length self.now }
        ensures { option_map (λ e. e.totals.ticks) (slice_get self.now j) ≡ Some result.now }
    {
        self.runs[j as usize].totals.as_slice()
    }
}

/// Why a run of modes ended early.
#[derive(Clone, Copy, Debug, PartialEq, Eq, Error)]
pub enum ModesFault {
    /// In this mode this processor's gate failed at this row, the next one that it was to run.
    #[error("the gate of processor {processor} failed in mode {mode}")]
    Gate {
        mode: u32,
        processor: u32,
        row: Row,
    },
    /// In this mode no gate failed. The job of this task failed at this row, the last one that the processor's gate ran.
    #[error("the job of task {task} failed on processor {processor} in mode {mode}")]
    Job {
        mode: u32,
        task: u32,
        processor: u32,
        row: Row,
    },
    /// Memory was refused, before the first mode or in a mode before any gate was called in it.
    #[error("there is no memory for the run")]
    NoMemory,
}

impl ModesFault {
    /// The answer that names a fault of this mode.
    pub(crate) fn in_mode(mode: u32, fault: ExecFault) -> ModesFault
        ensures { result ≡ fault_in mode fault }
    {
        match fault {
            ExecFault::Gate { processor, row, .. } => ModesFault::Gate {
                mode,
                processor,
                row,
            },
            ExecFault::Job {
                task,
                processor,
                row,
                ..
            } => ModesFault::Job {
                mode,
                task,
                processor,
                row,
            },
            ExecFault::NoMemory => ModesFault::NoMemory,
        }
    }
}

impl From<AllocError> for ModesFault {
    ghost from_gives = { λ _ e. e ≡ NoMemory };

    fn from(_: AllocError) -> ModesFault {
        ModesFault::NoMemory
    }
}
