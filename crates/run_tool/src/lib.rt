//! All commands, executions with them, from the words and the bytes given to the status and the bytes written.
#![tactic(auto)]

mod closing;
mod drill;
mod exec;
mod jobs;
mod mode_text;
mod modes;
mod running;
mod summary;

pub use closing::{close_flushed, close_run};
pub use command_words::{Command, Execution, Reading};
pub use exit_status::Status;
pub use pure_commands::{
    ModeRefusal, Refusal, follow_law, refuse, run_reading, run_still, sound_law, write_rate,
};
pub use running::{run, run_without_crew};
