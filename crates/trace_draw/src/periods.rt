//! The lanes of the tasks: names, releases, and how each period was served.
ghost use Rattle.std.specs.Prelude.{◌≡◌, ◌+◌, ◌-◌, ◌*◌, ◌≤◌, ◌<◌, ◌^◌, length, codes, false};
ghost use Rattle.std.specs.List.{flat_map, range_with_len};
ghost use Rattle.sched_base.specs.Sets.{task_at, IsLawfulTask};
ghost use Rattle.sched_edges.specs.Causes.{HasCause};
ghost use Rattle.sched_edges.specs.Streams.{Wrote};
ghost use Rattle.trace_draw.specs.ShownUnits.{AreShownUnits};
ghost use Rattle.trace_draw.specs.Shapes.{shape_line};
ghost use Rattle.trace_draw.specs.Periods.{begun_before, first_shown, count_shown, is_wrong, period_lines, period_text, numbers_text, is_at_fault};
ghost use Rattle.trace_draw.specs.Periods.{title_look, title_lines, task_text};

use crate::rows::task_of;
use crate::scene::Scene;
use crate::served::{Served, served_between};
use crate::shapes::{add_number, box_line, line_if, roomy_line, shape_line, task_top};
use crate::shown_units::{ShownUnits, WIDTH};
use sched_base::Task;
use sched_edges::{Failed, Line, Sink, write_lines};
use trace_check::ReadTrace;
use trace_format::period_start;
use trace_verdict::{FIRST_TASK_LINE, Verdict};

// How many periods of the task begin before a unit.
fn begun_before(task: &Task, unit: u64) -> u64
    requires task { IsLawfulTask task.now }
    requires unit { unit ≤ 2 ^ 32 }
    ensures value { result ≡ begun_before task.now unit }
    ensures fits { result ≤ 2 ^ 33 }
{
    (unit.saturating_sub(task.offset) + task.period - 1) / task.period
}

// The first period that is shown.
fn first_shown(window: &ShownUnits, task: &Task) -> u64
    requires window { AreShownUnits window.now }
    requires task { IsLawfulTask task.now }
    ensures value { result ≡ first_shown window.now task.now }
    ensures fits { result ≤ 2 ^ 33 }
{
    begun_before(task, window.from + 1).saturating_sub(1)
}

// How many are shown.
fn count_shown(window: &ShownUnits, task: &Task) -> u64
    requires window { AreShownUnits window.now }
    requires task { IsLawfulTask task.now }
    ensures { result ≡ count_shown window.now task.now }
{
    if 150 * window.units > task.period * WIDTH {
        return 0;
    }
    let begun = begun_before(task, window.from + window.units + 1);
    begun.saturating_sub(first_shown(window, task))
}

/// A period of a task, in ticks: where it begins and ends, its due, and the end of the schedule.
#[derive(Clone, Copy)]
struct Period {
    begin: u128,
    end: u128,
    due: u128,
    horizon: u128,
}

// Whether a period was given other than its due, or, past the horizon, more.
fn is_wrong(period: &Period, given: u128) -> bool
    ensures { result ≡ is_wrong period.now.horizon period.now.end period.now.due given }
{
    if period.end <= period.horizon {
        given != period.due
    } else {
        period.due < given
    }
}

// An arrow that stands on y.
fn arrow_line(x: u64, y: u64) -> Line
    ensures { result ≡ shape_line (codes "<path class='r' d='M") x (codes " ") y (codes "v-290m-45 70l45-70l45 70'/>") }
{
    shape_line(
        b"<path class='r' d='M",
        x,
        b" ",
        y,
        b"v-290m-45 70l45-70l45 70'/>",
    )
}

// A ring.
fn ring_line(x: u64, y: u64) -> Line
    ensures { result ≡ shape_line (codes "<circle class='o' cx='") x (codes "' cy='") y (codes "' r='40'/>") }
{
    shape_line(b"<circle class='o' cx='", x, b"' cy='", y, b"' r='40'/>")
}

// What is drawn above y of a period that was served so.
fn period_lines(window: &ShownUnits, y: u64, period: &Period, served: &Served) -> [Line; 2]
    requires window { AreShownUnits window.now }
    requires y { 20 ≤ y }
    ensures { result ≡ period_lines window.now period.now.horizon y period.now.begin period.now.end period.now.due served.now.given served.now.done }
{
    let left = window.place(period.begin);
    let first = window.first_tick();
    let mark = if is_wrong(period, served.given) {
        let width = window.place(period.end).saturating_sub(left);
        box_line(b" class='w'", left, y - 20, width, 40)
    } else {
        let shown = period.end <= period.horizon && window.has_past(served.done);
        line_if(shown, ring_line(window.place(served.done), y))
    };
    [line_if(first <= period.begin, arrow_line(left, y)), mark]
}

// Writes what is drawn of period k of a task.
fn write_period<W: Sink>(sink: &mut W, scene: &Scene, task: u32, k: u64) -> Result<(), Failed>
    requires window { AreShownUnits scene.now.window.now }
    requires task { task < length scene.now.trace.now.set.tasks }
    requires k { k ≤ 2 ^ 32 }
    requires begun { (task_at scene.now.trace.now.set.tasks task).offset + k * (task_at scene.now.trace.now.set.tasks task).period < 2 ^ 32 }
    ensures wrote { Wrote (W.taken sink.old) (W.taken sink.new) (period_text scene.now.trace.now scene.now.window.now task k) result }
    ensures cause { HasCause (W.faults sink.old) (W.faults sink.new) result }
{
    let scale = scene.trace.scale();
    let set = scene.trace.set();
    let of_set = task_of(set, task);
    let _rows = scene.trace.rows();
    let period = Period {
        begin: period_start(of_set, scale, k),
        end: period_start(of_set, scale, k + 1),
        due: u128::from(of_set.work) * scale,
        horizon: u128::from(set.horizon()) * scale,
    };
    let served = served_between(scene.trace, task, period.begin, period.end);
    let y = task_top(set.processors(), task) + 300;
    write_lines(sink, &period_lines(scene.window, y, &period, &served))
}

// Writes the marks of the periods of a task.
fn write_marks<W: Sink>(sink: &mut W, scene: &Scene, task: u32) -> Result<(), Failed>
    requires window { AreShownUnits scene.now.window.now }
    requires task { task < length scene.now.trace.now.set.tasks }
    ensures wrote { let t = scene.now.trace.now in
        let w = scene.now.window.now in
        let of_set = task_at t.set.tasks task in
        Wrote (W.taken sink.old) (W.taken sink.new)
        (flat_map (λ i. period_text t w task (first_shown w of_set + i)) (range_with_len 0 (count_shown w of_set))) result }
    ensures cause { HasCause (W.faults sink.old) (W.faults sink.new) result }
{
    let of_set = task_of(scene.trace.set(), task);
    let first = first_shown(scene.window, of_set);
    for i in 0..count_shown(scene.window, of_set) {
        write_period(sink, scene, task, first + i)?;
    }
    Ok(())
}

// The work, the period and the offset of a task.
#[tactic(auto, unfolding(crate::specs::Periods::numbers_text))]
fn numbers_text(task: &Task) -> Line
    ensures text { result ≡ numbers_text task.now }
    ensures short { length result ≤ 136 }
{
    let mut text = Line::new();
    text.number(u128::from(task.work));
    add_number(&mut text, b"/", task.period);
    if task.offset != 0 {
        add_number(&mut text, b" @", task.offset);
    }
    text
}

// Whether the trace is at fault at the line of the total of a task.
fn is_at_fault(trace: &ReadTrace, verdict: Verdict, task: u32) -> bool
    ensures { result ≡ is_at_fault trace.now verdict task }
{
    let before = FIRST_TASK_LINE + u64::from(trace.set().count()) + trace.rows().len() as u64;
    match verdict {
        Verdict::Valid => false,
        Verdict::Fault { line, kind: _ } => line == before + u64::from(task),
    }
}

// The look of a task's name.
fn title_look(fault: bool, letters: usize) -> &'static [u8]
    ensures look { result.now ≡ title_look fault letters }
    ensures short { length result.now ≤ 3 }
{
    match (fault, letters) {
        (true, 0..=24) => b"e",
        (true, 25..=34) => b"e q",
        (true, _) => b"e j",
        (false, 0..=24) => b"l",
        (false, 25..=34) => b"l q",
        (false, _) => b"l j",
    }
}

// The words and the line of the lane of a task.
fn title_lines(trace: &ReadTrace, verdict: Verdict, task: u32, top: u64) -> [Line; 3]
    requires task { task < length trace.now.set.tasks }
    requires top { top < 2 ^ 43 }
    ensures { result ≡ title_lines trace.now verdict task top }
{
    let of_set = task_of(trace.set(), task);
    let name = of_set.name.as_slice();
    let look = title_look(is_at_fault(trace, verdict, task), name.len());
    [
        roomy_line(look, 1760, 1780, top + 170, name),
        roomy_line(b"s", 1960, 1780, top + 350, numbers_text(of_set).as_slice()),
        shape_line(b"<path class='b' d='M", 1900, b" ", top + 300, b"H11600'/>"),
    ]
}

// Writes the lane of a task.
fn write_task<W: Sink>(sink: &mut W, scene: &Scene, task: u32) -> Result<(), Failed>
    requires window { AreShownUnits scene.now.window.now }
    requires task { task < length scene.now.trace.now.set.tasks }
    ensures wrote { Wrote (W.taken sink.old) (W.taken sink.new) (task_text scene.now.trace.now scene.now.window.now scene.now.verdict task) result }
    ensures cause { HasCause (W.faults sink.old) (W.faults sink.new) result }
{
    let top = task_top(scene.trace.set().processors(), task);
    write_lines(sink, &title_lines(scene.trace, scene.verdict, task, top))?;
    write_marks(sink, scene, task)
}

/// Writes the lanes of the tasks.
pub(crate) fn write_tasks<W: Sink>(sink: &mut W, scene: &Scene) -> Result<(), Failed>
    requires window { AreShownUnits scene.now.window.now }
    ensures wrote { Wrote (W.taken sink.old) (W.taken sink.new)
        (flat_map (task_text scene.now.trace.now scene.now.window.now scene.now.verdict) (range_with_len 0 (length scene.now.trace.now.set.tasks))) result }
    ensures cause { HasCause (W.faults sink.old) (W.faults sink.new) result }
{
    for task in 0..scene.trace.set().count() {
        write_task(sink, scene, task)?;
    }
    Ok(())
}
