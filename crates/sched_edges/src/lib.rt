//! The outside as the scheduler sees it: where bytes come from, where they go to, the lines that are written, what runs
//! rows, and what does a task's work.
#![tactic(auto)]

mod gates;
mod job_list;
mod jobs;
mod line;
mod memory;
mod read;
mod std_streams;
mod streams;
mod sure;
mod test_gates;
mod test_jobs;
mod write;

pub use gates::Gate;
pub use job_list::{BoxedJob, JobList, Jobs};
pub use jobs::Job;
pub use line::{Line, named_begin, named_line, number_line, numbers_line, word_line};
pub use memory::{MemSink, MemSource};
pub use read::{Bytes, TakeFault, empty_piece, read_all, read_piece};
pub use std_streams::{StdSink, StdSource};
pub use streams::{Failed, Sink, Source};
pub use sure::{SureSink, SureSource};
pub use test_gates::{ListGate, SureGate};
pub use test_jobs::{CountJob, FailJob};
pub use write::{write_all, write_lines};
