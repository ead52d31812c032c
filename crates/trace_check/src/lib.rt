//! Reads a trace text that anybody wrote, of either version, and tells whether its rows are a valid schedule of its set.
#![tactic(auto)]

mod checked;
mod faults;
mod front;
mod head_lines;
mod known_words;
mod laws;
mod met_lines;
mod name_table;
mod period_ends;
mod reaches;
mod reading;
mod row_lines;
mod row_reader;
mod row_runs;
mod row_words;
mod source_reading;
mod tables;
mod tail_lines;
mod tail_reading;
mod task_lines;
mod traces;

pub use checked::CheckedTrace;
pub use faults::{BadLine, SourceFault, TraceFault};
pub use head_lines::{
    Head, MOST_PROCESSORS, MOST_TASKS, MOST_UNITS, next_number, next_scale, number_after,
};
pub use laws::{merged_law, reads_lawful_law, round_trip_law};
pub use reading::{read_checked, read_trace};
pub use source_reading::{read_checked_source, read_trace_source};
pub use task_lines::{is_scale, read_tasks};
pub use trace_verdict::{FaultKind, Verdict};
pub use traces::{ReadTrace, check_trace};
