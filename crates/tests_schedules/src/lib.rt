//! Tests alone, of all below the executive and the commands: sets read, scaled, packed, compiled and drawn; tree texts; rounds of sets whose
//! rounds are known or follow from the rules; rows, tables, traces, reports and pictures.
#![tactic(auto)]

#[cfg(test)]
mod schedules;
#[cfg(test)]
mod sets;
#[cfg(test)]
mod traces;
#[cfg(test)]
mod trees;
