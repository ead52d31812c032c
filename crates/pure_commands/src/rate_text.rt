//! The text of the command `rate`.
ghost use Rattle.std.specs.Prelude.{◌≡◌, ◌≤◌, ◌^◌, ◌++◌, codes, length};
ghost use Rattle.std.specs.List.{flat_map};
ghost use Rattle.sched_base.specs.Scale.{IsScale, rate_of, total_of, room_of};
ghost use Rattle.sched_edges.specs.Causes.{HasCause};
ghost use Rattle.sched_edges.specs.Lines.{number_line, named_line, word_line};
ghost use Rattle.sched_edges.specs.Streams.{Wrote};
ghost use Rattle.pure_commands.specs.RateText.{rate_text};

use rate_scale::rate;
use sched_base::TaskSet;
use sched_edges::{Failed, Sink, named_line, number_line, word_line, write_all, write_lines};

/// Writes the scale of a set, in ticks per unit, the rates of its tasks, their total and the room, in ticks per unit.
pub fn write_rate<W: Sink>(
    set: &TaskSet,
    scale: u128,
    total: u128,
    room: u128,
    out: &mut W,
) -> Result<(), Failed>
    requires scale { IsScale set.now.tasks scale }
    requires scale_fits { scale ≤ 2 ^ 94 }
    requires total { total ≡ total_of scale set.now.tasks }
    requires room { room ≡ room_of scale set.now }
    ensures wrote { Wrote (W.taken out.old) (W.taken out.new) (rate_text scale set.now) result }
    ensures cause { HasCause (W.faults out.old) (W.faults out.new) result }
{
    write_head(set, scale, out)?;
    write_rates(set, scale, out)?;
    write_end(total, room, out)
}

fn write_head<W: Sink>(set: &TaskSet, scale: u128, out: &mut W) -> Result<(), Failed>
    ensures wrote { Wrote (W.taken out.old) (W.taken out.new) (number_line (codes "processors") set.now.processors
        ++ (number_line (codes "horizon") set.now.horizon ++ (number_line (codes "tasks") (length set.now.tasks)
        ++ number_line (codes "scale") scale))) result }
    ensures cause { HasCause (W.faults out.old) (W.faults out.new) result }
{
    let lines = [
        number_line(b"processors", u128::from(set.processors())),
        number_line(b"horizon", u128::from(set.horizon())),
        number_line(b"tasks", u128::from(set.count())),
        number_line(b"scale", scale),
    ];
    write_lines(out, &lines)
}

fn write_rates<W: Sink>(set: &TaskSet, scale: u128, out: &mut W) -> Result<(), Failed>
    requires scale { IsScale set.now.tasks scale }
    requires scale_fits { scale ≤ 2 ^ 94 }
    ensures wrote { Wrote (W.taken out.old) (W.taken out.new)
        (flat_map (λ t. named_line (codes "rate") t.name (rate_of scale t)) set.now.tasks) result }
    ensures cause { HasCause (W.faults out.old) (W.faults out.new) result }
{
    for task in set.tasks() {
        let rate = rate(task.work, task.period, scale);
        write_all(
            out,
            named_line(b"rate", task.name.as_slice(), rate).as_slice(),
        )?;
    }
    Ok(())
}

fn write_end<W: Sink>(total: u128, room: u128, out: &mut W) -> Result<(), Failed>
    ensures wrote { Wrote (W.taken out.old) (W.taken out.new)
        (number_line (codes "total") total ++ (number_line (codes "room") room ++ word_line (codes "verdict fits"))) result }
    ensures cause { HasCause (W.faults out.old) (W.faults out.new) result }
{
    let lines = [
        number_line(b"total", total),
        number_line(b"room", room),
        word_line(b"verdict fits"),
    ];
    write_lines(out, &lines)
}
