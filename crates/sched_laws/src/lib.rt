//! The laws of the schedule: every deadline is met, proved from the definitions alone.
//!
//! Each function here does nothing. Its clauses are a law, for every reduction tree whatever rule packed it, and for
//! all ticks. A law of a tree alone takes the boundaries of the leaves as a test `of_leaf`, and uses of it only that 0
//! is a boundary and that one comes within 2^33 units of each unit.
#![tactic(auto)]

mod boundaries;
mod height;
mod levels;
mod migration;
mod rounds;
mod servers;
mod stillness;
mod validity;

pub use boundaries::boundaries_law;
pub use height::height_law;
pub use levels::{count_law, levels_law};
pub use migration::one_level_law;
pub use rounds::{order_law, round_law};
pub use servers::{dual_law, edf_law};
pub use stillness::still_law;
pub use validity::valid_law;
