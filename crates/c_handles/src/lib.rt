//! What C holds behind a pointer, since it can hold nothing else: the rounds of a set, a book, an answer. A struct that crosses to C has no type
//! parameters, so these are three types over one way to take a box apart.
#![tactic(auto)]

mod answer_handle;
mod book_handle;
mod raw_box;
mod steps_handle;

pub use answer_handle::AnswerHandle;
pub use book_handle::BookHandle;
pub use steps_handle::StepsHandle;
