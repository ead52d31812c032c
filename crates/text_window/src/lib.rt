//! A window over the bytes of a source, which is gone through line by line, so that no text needs memory as a whole.
#![tactic(auto)]

mod lines;
mod window;

pub use lines::whole_line;
pub use window::Window;
