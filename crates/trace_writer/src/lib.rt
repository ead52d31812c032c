//! The trace text of a schedule, written line by line.
#![tactic(auto)]

mod body;
mod digits;
mod finishes;
mod lines;
mod mets;
mod noting;
mod pages;
mod pens;
mod rows;
mod shown;
mod text;

pub use finishes::Finishes;
pub use text::{write_merged, write_merged_met, write_met, write_trace};
