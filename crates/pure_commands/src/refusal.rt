//! Refusals, and their lines.
ghost use Rattle.std.specs.Prelude.{◌≡◌, ◌<◌};
ghost use Rattle.pure_commands.specs.Refusals.{status_of};

use crate::mode_refusal::ModeRefusal;
use exit_status::Status;
use sched_base::{Name, Row};
use task_reader::ReadSet;
use tree_check::TreeKind;

/// Why a command wasn't done.
pub enum Refusal {
    /// The words are no command line.
    Usage,
    /// The source failed.
    ReadFault,
    /// The sink failed.
    WriteFault,
    /// Memory was refused.
    NoMemory,
    /// The bytes are no task set, for this reason.
    BadSet(ReadSet),
    /// The bytes are no trace text, or no tree text: this line is the first at fault, counted from 1.
    BadLine { line: u64 },
    /// The bytes hold no lawful programs for the tasks: this line is the first at fault, counted from 1.
    BadProgram { line: u64 },
    /// The tasks ask for `total` ticks in each unit, and there are `room`.
    Overload { total: u128, room: u128 },
    /// This task's period brings the scale past 2^94.
    ScaleTooLarge { task: u32 },
    /// The schedule has more rows than may be written; this is the least multiple of the number of processors above that.
    TooLong { rows: u64 },
    /// The gate of the row's processor failed at this row, of the task of this name; of no task where there is none.
    GateFault { row: Row, name: Option<Name> },
    /// The gate of the row's processor ran this row, and then the job of its task, which has this name, failed.
    JobFault { row: Row, name: Option<Name> },
    /// The source gave that many bytes, one more than the command reads.
    InputTooLong { count: u64 },
    /// The tree text is that of no reduction tree of its set: this line is the first at fault, counted from 1, and this is why.
    BadTree { line: u64, kind: TreeKind },
    /// The schedule has this many ticks, which no type of C holds.
    TooWide { ticks: u128 },
    /// The schedule doesn't repeat from its start on: this task, the first such one, isn't released at unit 0.
    NoRepeat { task: u32 },
    /// The least horizon at which the schedule repeats has this many units, 2^32 or more, which no set has.
    WideRepeat { units: u128 },
    /// Of several sets that follow each other as modes, this mode, counted from 0, wasn't done, for this reason.
    OfMode { mode: u32, refusal: ModeRefusal },
}

impl Drop for Refusal {
    fn drop(self) {
        match self {
            Refusal::Usage | Refusal::ReadFault | Refusal::WriteFault | Refusal::NoMemory => {}
            Refusal::BadSet(_refusal) => {}
            Refusal::BadLine { line: _ } => {}
            Refusal::BadProgram { line: _ } => {}
            Refusal::Overload { total: _, room: _ } => {}
            Refusal::ScaleTooLarge { task: _ } => {}
            Refusal::TooLong { rows: _ } => {}
            Refusal::GateFault { row: _, name: _ } => {}
            Refusal::JobFault { row: _, name: _ } => {}
            Refusal::InputTooLong { count: _ } => {}
            Refusal::BadTree { line: _, kind: _ } => {}
            Refusal::TooWide { ticks: _ } => {}
            Refusal::NoRepeat { task: _ } => {}
            Refusal::WideRepeat { units: _ } => {}
            Refusal::OfMode {
                mode: _,
                refusal: _refusal,
            } => {}
        }
    }
}

impl Refusal {
    /// The status with which it ends the call.
    pub fn status(&self) -> Status
        ensures { result ≡ status_of self.now }
    {
        match self {
            Refusal::Usage => Status::Usage,
            Refusal::ReadFault => Status::ReadFault,
            Refusal::WriteFault => Status::WriteFault,
            Refusal::NoMemory => Status::NoMemory,
            Refusal::BadSet(ReadSet::NoMemory) => Status::NoMemory,
            Refusal::BadSet(_) | Refusal::BadLine { .. } | Refusal::BadProgram { .. } => {
                Status::BadInput
            }
            Refusal::Overload { .. } => Status::Overload,
            Refusal::ScaleTooLarge { .. } => Status::ScaleTooLarge,
            Refusal::TooLong { .. } => Status::TooLong,
            Refusal::GateFault { .. } => Status::GateFault,
            Refusal::JobFault { .. } => Status::JobFault,
            Refusal::InputTooLong { .. } => Status::InputTooLong,
            Refusal::BadTree { .. } => Status::BadTree,
            Refusal::TooWide { .. } | Refusal::NoRepeat { .. } | Refusal::WideRepeat { .. } => {
                Status::TooWide
            }
            Refusal::OfMode { mode: _, refusal } => refusal.status(),
        }
    }
}
