//! The lanes of a run, beside its book: what the worker of a lane has in hand, and how lanes end.
//!
//! While nothing runs, gates are in kits and jobs in lists. A run moves each gate into a lane, with its seat in the ledger, and
//! moves all back when it has ended; a lane on which a gate or a job failed keeps why. No book is known here.
#![tactic(auto)]

mod answers;
mod causes;
mod ends;
mod kits;
mod lanes;
mod run_memory;
mod same_plan;
mod stage;
mod waiters;
mod working;

pub use answers::{ExecFault, Executed, FirstFault, answer_of};
pub use causes::Cause;
pub use ends::{all_at, any_failed, first_fault, note_faults, note_posted};
pub use kits::Kit;
pub use lanes::Lane;
pub use run_memory::RunMemory;
pub use same_plan::is_same_plan;
pub use stage::{empty_lanes, fill_lanes, lay_jobs, lift_jobs};
pub use waiters::{Waiters, lock_soon, note_calls, wait, wake};
pub use working::{risen, work_on};
