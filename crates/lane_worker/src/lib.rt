//! A worker of the executive: it takes its lane's next row from the book, lets the lane's gate and the task's job run it, and posts it.
#![tactic(auto)]

mod serving;

pub use serving::{serve, serve_lane};
