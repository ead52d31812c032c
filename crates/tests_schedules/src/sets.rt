//! Names and sets of tasks; texts of sets, of several sets, and of programs; sets scaled, packed, compiled and drawn.
mod batches;
mod compiled;
mod drawn;
mod named;
mod packings;
mod programs;
mod reading;
mod scales;
