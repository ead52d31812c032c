//! One mode of several.
use run_tree::Plan;

/// One mode: the plan of its set, the number of rounds of its schedule, and the unit at which it starts.
#[derive(Drop)]
pub(crate) struct Mode {
    pub(crate) plan: Plan,
    pub(crate) rounds: u64,
    pub(crate) start: u64,
}
