//! The rounds of a plan, from event to event.
//!
//! Between two events nothing changes, so who runs at an event runs up to the next. A `Core` stands at the beginning of a round,
//! and `Core::advance` writes the rows of the round and moves to its end. From round to round it looks at the packs of which a
//! member ran dry or began a window, and at those whose duals turned.
#![tactic(auto)]

mod begun;
mod cores;
mod counts;
mod dried;
mod firsts;
mod kept;
mod laws;
mod left;
mod rounds;
mod rows;
mod serving;
mod states;
mod ticks;
mod told;
mod turns;
mod walks;

pub use cores::Core;
pub use counts::{CountFault, count_rounds};
pub use laws::rounds_law;
pub use rows::leaf_shown_for;
