//! The operations of the machine, by their numbers in a program's words.

pub(crate) const SET: u64 = 0;

pub(crate) const ADD: u64 = 1;

pub(crate) const SUB: u64 = 2;

pub(crate) const MUL: u64 = 3;

pub(crate) const JUMP_IF_ZERO: u64 = 4;

pub(crate) const JUMP: u64 = 5;

pub(crate) const HALT: u64 = 6;
