//! Several sets joined as modes: they follow each other on the same processors, and switch where no period is open.
#![tactic(auto)]

mod faults;
mod joins;
mod mode;
mod modes;

pub use faults::{ModeFault, ModeKind};
pub use modes::Modes;
