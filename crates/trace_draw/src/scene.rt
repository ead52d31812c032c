//! What is drawn.

use crate::shown_units::ShownUnits;
use trace_check::ReadTrace;
use trace_verdict::Verdict;

/// A trace, the stretch of its time that is shown, and the verdict that is told.
#[derive(Clone, Copy)]
pub(crate) struct Scene<'a> {
    pub(crate) trace: &'a ReadTrace,
    pub(crate) window: &'a ShownUnits,
    pub(crate) verdict: Verdict,
}
