//! The scale of a set: how many ticks make one unit, so that each task gets whole ticks in each unit.
#![tactic(auto)]

mod loads;
mod multiples;
mod rates;
mod scales;

pub use loads::{Load, LoadFault, load_of};
pub use multiples::gcd;
pub use rates::{fits, rate, rates_of, total};
pub use scales::{ScaleTooLarge, scale_law, scale_of};
