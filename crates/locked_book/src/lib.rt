//! The book of an execution, as workers find it under its lock: taking a row from it, and putting it back.
//!
//! Of a book that is found no more is known than its type says. So each call tests the book that it finds, and tries again where the
//! test fails. That it is a book of the given plan is tested once: the type of a book says that its task set is the one that its
//! ledger names, which never changes.
#![tactic(auto)]

mod found;
mod rows;
mod turns;
mod workplace;

pub use found::{are_due, is_whole_at, ticks_of};
pub use rows::{halt_row, post_and_take, post_row, take_next, take_row};
pub use turns::{TURNS, wait_for_good};
pub use workplace::Workplace;
