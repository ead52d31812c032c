//! Command lines: which command words are, and that `clap` reads each of them so.
#![tactic(auto)]

mod asking;
mod command;
mod command_line;
mod parser;
mod words;

pub use asking::Asked;
pub use command::{Command, Execution, Reading};
pub use words::{
    USUAL_WINDOW, asks_for_batch, asks_to_execute, execution_of, is_batch, reading_of,
};
