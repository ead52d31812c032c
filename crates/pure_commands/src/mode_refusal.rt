//! Refusals of one mode of several.
ghost use Rattle.std.specs.Prelude.{◌≡◌};
ghost use Rattle.pure_commands.specs.Refusals.{mode_status};
ghost use Rattle.pure_commands.specs.declared.mode_refusal.ModeRefusal.TheVariants.{NotJoined};

use exit_status::Status;
use mode_join::ModeKind;
use sched_base::{Name, Row};
use task_reader::ReadSet;

/// Why a mode wasn't done.
#[derive(Drop)]
pub enum ModeRefusal {
    /// The bytes of its piece are no task set, for this reason.
    BadSet(ReadSet),
    /// The piece's set can't be a mode behind those before it, for this reason.
    NotJoined(ModeKind),
    /// The gate of the row's processor failed at this row, of the task of this name; of no task where there is none. The row
    /// counts the ticks of its mode.
    GateFault { row: Row, name: Option<Name> },
    /// The gate of the row's processor ran this row, and then the job of its task, which has this name, failed.
    JobFault { row: Row, name: Option<Name> },
}

impl ModeRefusal {
    /// The status with which it ends the call.
    pub fn status(&self) -> Status
        ensures { result ≡ mode_status self.now }
    {
        match self {
            ModeRefusal::BadSet(ReadSet::NoMemory) => Status::NoMemory,
            ModeRefusal::BadSet(_) => Status::BadInput,
            ModeRefusal::NotJoined(kind) => kind_status(*kind),
            ModeRefusal::GateFault { .. } => Status::GateFault,
            ModeRefusal::JobFault { .. } => Status::JobFault,
        }
    }
}

// The status where a set can't be a mode.
fn kind_status(kind: ModeKind) -> Status
    ensures { result ≡ mode_status (NotJoined kind) }
{
    match kind {
        ModeKind::Processors | ModeKind::Offset { .. } | ModeKind::Period { .. } => {
            Status::ModeFault
        }
        ModeKind::Overload { .. } => Status::Overload,
        ModeKind::TooLong { .. } => Status::TooLong,
    }
}
