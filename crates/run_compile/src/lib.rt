//! The compiler: a set that fits becomes a plan, with the reduction tree that first fit and idle fill make of its tasks.
#![tactic(auto)]

mod compiler;
mod faults;
mod higher;
mod homes;
mod level_0;
mod migration;
mod rates;

pub use compiler::{compile, levels};
pub use faults::CompileFault;
pub use migration::no_migration_law;
