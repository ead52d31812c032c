//! Tests alone: the commands on worked sets, and on streams, gates and jobs that fail.
#![tactic(auto)]

#[cfg(test)]
mod tests;
