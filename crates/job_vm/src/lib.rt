//! Jobs that run programs, and the text that says which program each task's job runs.
#![tactic(auto)]

mod faults;
mod instructions;
mod job_text;
mod loading;
mod operations;
mod programs;
mod results;
mod strays;
mod vm;
mod vm_job;

pub use faults::JobTextFault;
pub use job_text::{JobText, read_jobs};
pub use loading::load_programs;
pub use results::write_jobs;
pub use strays::first_stray;
pub use vm_job::VmJob;
