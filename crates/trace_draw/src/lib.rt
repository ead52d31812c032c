//! A picture of a trace: the lanes of processors and tasks over a stretch of time, as an SVG text that a browser shows.
#![tactic(auto)]

mod asking;
mod drawing;
mod head;
mod periods;
mod picture;
mod rows;
mod scene;
mod served;
mod shapes;
mod shown_units;

pub use asking::shown_window;
pub use drawing::draw_trace;
pub use head::kind_text;
pub use picture::write_picture;
pub use shown_units::ShownUnits;
