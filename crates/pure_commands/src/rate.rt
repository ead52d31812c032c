//! The command `rate`.
ghost use Rattle.std.specs.Prelude.{OnOk, IfErr};
ghost use Rattle.pure_commands.specs.Input.{WroteSet, StopsAtSet};
ghost use Rattle.pure_commands.specs.Commands.{rates};

use crate::rate_text::write_rate;
use crate::refusal::Refusal;
use crate::unwritten::written;
use rate_scale::load_of;
use sched_base::TaskSet;
use sched_edges::Sink;

/// Writes the rates of a set, where it fits.
pub(crate) fn write_set<W: Sink>(set: &TaskSet, out: &mut W) -> Result<(), Refusal>
    ensures done { OnOk result (WroteSet rates (W.taken out.old) (W.taken out.new) set.now) }
    ensures stops { IfErr result (StopsAtSet rates (W.taken out.old) (W.taken out.new)
        (W.faults out.old) (W.faults out.new) set.now) }
{
    let load = load_of(set)?;
    written(write_rate(set, load.scale, load.total, load.room, out))
}
