//! Reading the input of a command.
ghost use Rattle.std.specs.Prelude.{IfOk, IfErr};
ghost use Rattle.pure_commands.specs.Input.{GaveSet, GaveNoSet};

use crate::refusal::Refusal;
use sched_base::{SET_LIMIT, TaskSet};
use sched_edges::{Source, read_all};
use std::alloc::Global;
use task_reader::read_set;

/// The most bytes of a trace text.
pub(crate) const TRACE_LIMIT: usize = 536_870_912;

/// Reads the source to its end, as a task set.
pub fn read_input<R: Source>(alloc: Global, source: &mut R) -> Result<TaskSet, Refusal>
    ensures set { IfOk result (GaveSet (R.left source.old) (R.left source.new) SET_LIMIT) }
    ensures refusal { IfErr result (GaveNoSet (R.left source.old) (R.left source.new)
        (R.faults source.old) (R.faults source.new) SET_LIMIT) }
{
    let bytes = read_all(alloc, source, SET_LIMIT)?;
    Ok(read_set(alloc, bytes.as_slice())?)
}
