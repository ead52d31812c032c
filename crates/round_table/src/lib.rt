//! The rounds of a plan, as a table of rows.
#![tactic(auto)]

mod laws;
mod tables;

pub use laws::table_law;
pub use tables::table_of;
