//! The laws of the hyperperiod: what a reduction tree runs comes again, and with the places so does the schedule. What is left
//! of dues decides it.
//!
//! Each function does nothing: its clauses are the law.
#![tactic(auto)]

mod returns;

pub use returns::{dues_law, hyperperiod_law, places_law};
