//! Modes that were joined, run one after the other.
#![tactic(auto)]

mod answers;
mod running;

pub use answers::{ModesFault, ModesRun};
pub use mode_join::{ModeFault, ModeKind, Modes};
pub use running::run_modes;
