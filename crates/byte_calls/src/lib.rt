//! The commands that read, from bytes to bytes.
#![tactic(auto)]

mod answers;
mod streams;

pub use answers::{Answer, call};
