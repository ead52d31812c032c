//! Tree texts that are written of sets, and such as anybody wrote: what is at fault with them, and that those of a tree are written
//! again as they were.
mod answers;
mod bad_lines;
mod faults;
mod trees;
mod variants;
mod worked_texts;
mod written;
