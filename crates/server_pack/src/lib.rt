//! First fit: items of given rates go into servers, each into the first with room.
#![tactic(auto)]

mod fitting;
mod laws;
mod members;
mod packing;

pub use fitting::first_fit;
pub use laws::{first_fit_law, items_law};
pub use members::Members;
pub use packing::{Packing, Server};
