//! The commands that execute nothing, from the words and the bytes given to the status and the bytes written.
#![tactic(auto)]

mod batch;
mod check;
mod draw;
mod faults;
mod follow;
mod input;
mod mode_line;
mod mode_refusal;
mod numbered;
mod plan;
mod rate;
mod rate_text;
mod refusal;
mod refusal_line;
mod repeat;
mod set_told;
mod sound;
mod table;
mod top;
mod trace;
mod tree;
mod unwritten;
mod wrap;

pub use batch::run_batch;
pub use command_words::Reading;
pub use exit_status::Status;
pub use input::read_input;
pub use mode_refusal::ModeRefusal;
pub use numbered::write_count;
pub use plan::plan_of;
pub use rate_text::write_rate;
pub use refusal::Refusal;
pub use refusal_line::refuse;
pub use sched_base::SET_LIMIT;
pub use sound::{follow_law, sound_law};
pub use top::{run_reading, run_still};
pub use trace::{finishes_for, write_rows};
pub use unwritten::written;
