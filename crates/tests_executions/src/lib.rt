//! Tests alone, of the executive below the commands: scripts of takes and posts over the books of worked sets; streams, gates and jobs, and
//! worked sets executed on gates with lists.
#![tactic(auto)]

#[cfg(test)]
mod books;
#[cfg(test)]
mod executions;
