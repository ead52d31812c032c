//! Levels and their packs.
ghost use Rattle.std.specs.Prelude.{◌≡◌, ◌<◌, ◌++◌, codes, decimal};
ghost use Rattle.std.specs.List.{flat_map};
ghost use Rattle.sched_edges.specs.Causes.{HasCause};
ghost use Rattle.sched_edges.specs.Streams.{Wrote};
ghost use Rattle.run_tree.specs.Tree.{IsPack};
ghost use Rattle.run_tree.specs.Schedule.{packs_at};
ghost use Rattle.tree_text.specs.Text.{pack_line, level_text};

use crate::members::spaced_word;
use crate::pieces::add;
use run_tree::Plan;
use sched_base::NodeId;
use sched_edges::{Failed, Line, Sink, numbers_line, write_all};

/// Writes a level: its number, the number of its packs, and its packs.
pub(crate) fn write_level<W: Sink>(plan: &Plan, level: u32, sink: &mut W) -> Result<(), Failed>
    requires { level < plan.now.tree.levels }
    ensures wrote { Wrote (W.taken sink.old) (W.taken sink.new) (level_text plan.now level) result }
    ensures cause { HasCause (W.faults sink.old) (W.faults sink.new) result }
{
    let packs = plan.tree().packs(level);
    let line = numbers_line(b"level", u128::from(level), u128::from(packs));
    write_all(sink, line.as_slice())?;
    write_packs(plan, level, sink)
}

fn write_packs<W: Sink>(plan: &Plan, level: u32, sink: &mut W) -> Result<(), Failed>
    requires { level < plan.now.tree.levels }
    ensures wrote { Wrote (W.taken sink.old) (W.taken sink.new) (flat_map (pack_line plan.now) (packs_at plan.now.tree level)) result }
    ensures cause { HasCause (W.faults sink.old) (W.faults sink.new) result }
{
    for i in 0..plan.tree().packs(level) {
        write_pack(plan, plan.tree().pack(level, i), sink)?;
    }
    Ok(())
}

// Writes a pack: its rate, and its members in order.
fn write_pack<W: Sink>(plan: &Plan, pack: NodeId, sink: &mut W) -> Result<(), Failed>
    requires { IsPack plan.now.tree pack.0 }
    ensures wrote { Wrote (W.taken sink.old) (W.taken sink.new) (pack_line plan.now pack.0) result }
    ensures cause { HasCause (W.faults sink.old) (W.faults sink.new) result }
{
    let mut line = start_of_pack(plan.tree().rate(pack));
    for member in plan.tree().members(pack) {
        let word = spaced_word(plan, *member);
        add(&mut line, word.as_slice(), sink)?;
    }
    add(&mut line, b"\n", sink)?;
    write_all(sink, line.as_slice())
}

// The line of a pack up to its members.
fn start_of_pack(rate: u128) -> Line
    ensures { result ≡ codes "pack " ++ decimal rate }
{
    let mut line = Line::new();
    line.text(b"pack ");
    line.number(rate);
    line
}
