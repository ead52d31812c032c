//! The rounds of a plan, computed one by one, and what a log of legal events over them leads to: what every book of a plan stands on.
#![tactic(auto)]

mod laws;
mod rounds;

pub use laws::follows_law;
pub use rounds::Rounds;
