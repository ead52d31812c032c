//! The lines of refusals of one mode of several: each begins with the number of the mode.
ghost use Rattle.std.specs.Prelude.{◌≡◌, ◌≤◌, ◌∷◌, [], length, codes, decimal};
ghost use Rattle.sched_edges.specs.Causes.{HasCause};
ghost use Rattle.sched_edges.specs.Lines.{line_of};
ghost use Rattle.sched_edges.specs.Streams.{Wrote};
ghost use Rattle.pure_commands.specs.Refusals.{refusal_line, mode_line, set_start};
ghost use Rattle.pure_commands.specs.declared.refusal.Refusal.TheVariants.{OfMode};
ghost use Rattle.pure_commands.specs.declared.mode_refusal.ModeRefusal.TheVariants.{NotJoined};

use crate::mode_refusal::ModeRefusal;
use crate::refusal_line::{
    begin, counted_line, gate_line, job_line, overload_line, rows_line, write_line,
    write_set_refusal,
};
use exit_status::Status;
use mode_join::ModeKind;
use sched_edges::{Failed, Line, Sink, write_all};

/// Writes the line of a refusal of a mode.
pub(crate) fn write_mode_refusal<W: Sink>(
    mode: u32,
    refusal: &ModeRefusal,
    out: &mut W,
) -> Result<(), Failed>
    ensures wrote { Wrote (W.taken out.old) (W.taken out.new) (refusal_line (OfMode mode refusal.now)) result }
    ensures cause { HasCause (W.faults out.old) (W.faults out.new) result }
{
    write_all(out, set_start(mode).as_slice())?;
    write_mode_line(refusal, out)
}

/// `set`, the number of a set, and a space.
pub(crate) fn set_start(j: u32) -> Line
    ensures { result ≡ set_start j }
{
    let mut start = Line::new();
    start.text(b"set");
    start.space();
    start.number(u128::from(j));
    start.space();
    start
}

// Writes what stands behind the number of the mode.
#[tactic(auto, unfolding(crate::specs::Refusals::refusal_line, crate::specs::Refusals::mode_line))]
fn write_mode_line<W: Sink>(refusal: &ModeRefusal, out: &mut W) -> Result<(), Failed>
    ensures wrote { Wrote (W.taken out.old) (W.taken out.new) (mode_line refusal.now) result }
    ensures cause { HasCause (W.faults out.old) (W.faults out.new) result }
{
    match refusal {
        ModeRefusal::BadSet(refusal) => write_set_refusal(refusal, out),
        ModeRefusal::NotJoined(kind) => write_line(kind_line(*kind), out),
        ModeRefusal::GateFault { row, name } => write_line(gate_line(row, name), out),
        ModeRefusal::JobFault { row, name } => write_line(job_line(row, name), out),
    }
}

// The line of a set that can't be a mode.
#[tactic(auto, unfolding(crate::specs::Refusals::refusal_line, crate::specs::Refusals::mode_line, sched_edges::specs::Lines::line_of))]
fn kind_line(kind: ModeKind) -> Line
    ensures { result ≡ mode_line (NotJoined kind) }
{
    match kind {
        ModeKind::Processors => processors_line(),
        ModeKind::Offset { task } => task_line(b"offset", task),
        ModeKind::Period { task } => task_line(b"period", task),
        ModeKind::Overload { total, room } => overload_line(total, room),
        ModeKind::TooLong { rows } => rows_line(rows),
    }
}

// The line of a set with another number of processors than the first.
#[tactic(auto, unfolding(sched_edges::specs::Lines::line_of))]
fn processors_line() -> Line
    ensures { result ≡ line_of (codes "refused") (decimal 15 ∷ codes "Mode" ∷ codes "processors" ∷ []) }
{
    let mut line = begin(Status::ModeFault, b"Mode");
    line.space();
    line.text(b"processors");
    line.end();
    line
}

// The line of a set with such a task.
fn task_line(word: &[u8], task: u32) -> Line
    requires { length word.now ≤ 16 }
    ensures { result ≡ line_of (codes "refused") (decimal 15 ∷ codes "Mode" ∷ word.now ∷ decimal task ∷ []) }
{
    counted_line(Status::ModeFault, b"Mode", word, u128::from(task))
}
