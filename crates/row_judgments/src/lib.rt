//! The verdict on the rows of a trace, with the orders that are made for it.
#![tactic(auto)]

mod judgments;

pub use judgments::{Judged, Judgment, judge, judge_rows};
