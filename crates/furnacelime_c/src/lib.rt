//! The static library for C: the commands that take no lock, over bytes in memory, the schedule of a set round by round, and the book of an
//! executive.
//! `include/furnacelime.h` declares what it exports.
#![tactic(auto)]

mod answers;
mod books;
mod numbers;
mod rounds;
