//! The head of a picture: what a screen reader reads, the style, the words above the plot, the lanes and the axis.
ghost use Rattle.std.specs.Prelude.{◌≡◌, ◌+◌, ◌*◌, ◌≤◌, ◌<◌, ◌^◌, ◌++◌, ◌-◌, ◌/◌, ◌∷◌, [], length, codes, decimal};
ghost use Rattle.std.specs.List.{concat};
ghost use Rattle.sched_edges.specs.Causes.{HasCause};
ghost use Rattle.sched_edges.specs.Streams.{Wrote};
ghost use Rattle.sched_base.specs.Bytes.{line_feed};
ghost use Rattle.trace_draw.specs.ShownUnits.{AreShownUnits, plot_left, plot_width};
ghost use Rattle.trace_draw.specs.Shapes.{box_line, label_line, roomy_line, shape_line, lane_top};
ghost use Rattle.trace_draw.specs.Head.{bottom, plural, size_text, units_text, scale_text, second_size, kind_text, verdict_text, verdict_look};
ghost use Rattle.trace_draw.specs.Head.{style_lines, opening_lines, caption_lines, head_text};
ghost use Rattle.trace_draw.specs.Head.{lanes_text, axis_step, first_mark, axis_text};

use crate::shapes::{
    add_number, box_line, grown, label_line, lane_top, number_text, roomy_line, shape_line,
    task_top,
};
use crate::shown_units::{LEFT, ShownUnits, WIDTH};
use sched_base::TaskSet;
use sched_edges::{Failed, Line, Sink, word_line, write_lines};
use trace_verdict::{FaultKind, Verdict};

/// How far from the top the plot ends.
pub(crate) fn bottom(set: &TaskSet) -> u64
    ensures value { result ≡ bottom set.now }
    ensures fits { result < 2 ^ 43 }
{
    task_top(set.processors(), set.count())
}

// What follows the name of a thing, where there are so many.
fn plural(count: u128) -> &'static [u8]
    ensures text { result.now ≡ plural count }
    ensures short { length result.now ≤ 1 }
{
    if count == 1 { b"" } else { b"s" }
}

// Adds how many of a thing there are, and its name.
fn add_count(line: &mut Line, count: u128, name: &[u8])
    requires { length line.old + length name.now ≤ 200 }
    ensures text { line.new ≡ line.old ++ (decimal count ++ (name.now ++ plural count)) }
    ensures short { length line.new ≤ length line.old + length name.now + 41 }
{
    line.number(count);
    line.text(name);
    line.text(plural(count));
}

// Adds a text, and a number of units after it.
fn add_units(line: &mut Line, text: &[u8], units: u64)
    requires room { length line.old + length text.now ≤ 216 }
    requires units { units < 2 ^ 33 }
    ensures text { line.new ≡ line.old ++ (text.now ++ decimal units) }
    ensures short { length line.new ≤ length line.old + length text.now + 10 }
{
    add_number(line, text, units);
}

// How many tasks and processors there are.
#[tactic(auto, unfolding(crate::specs::Head::size_text))]
fn size_text(set: &TaskSet) -> Line
    ensures text { result ≡ size_text set.now }
    ensures short { length result ≤ 120 }
{
    let mut text = Line::new();
    add_count(&mut text, u128::from(set.count()), b" task");
    text.text(b" on ");
    add_count(&mut text, u128::from(set.processors()), b" processor");
    text
}

// Which units of the schedule are shown.
#[tactic(auto, unfolding(crate::specs::Head::units_text))]
fn units_text(set: &TaskSet, window: &ShownUnits) -> Line
    requires { AreShownUnits window.now }
    ensures text { result ≡ units_text set.now window.now }
    ensures short { length result ≤ 56 }
{
    let mut text = Line::new();
    add_units(&mut text, b"units ", window.from);
    add_units(&mut text, b" to ", window.from + window.units);
    add_units(&mut text, b" of ", set.horizon());
    text
}

// Which units of the schedule are shown, and what is said of the others.
fn shown_text(set: &TaskSet, window: &ShownUnits, hint: &[u8]) -> Line
    requires window { AreShownUnits window.now }
    requires hint { length hint.now ≤ 80 }
    ensures text { result ≡ units_text set.now window.now ++ hint.now }
    ensures short { length result ≤ 136 }
{
    let mut text = units_text(set, window);
    text.text(hint);
    text
}

// How long a unit is.
#[tactic(auto, unfolding(crate::specs::Head::scale_text))]
fn scale_text(scale: u128) -> Line
    ensures text { result ≡ scale_text scale }
    ensures short { length result ≤ 120 }
{
    let mut text = Line::new();
    text.text(b"one unit is ");
    add_count(&mut text, scale, b" tick");
    text
}

/// The kind of a fault, as it is printed.
pub fn kind_text(kind: FaultKind) -> &'static [u8]
    ensures text { result.now ≡ kind_text kind }
    ensures short { length result.now ≤ 32 }
{
    match kind {
        FaultKind::Processor => b"processor",
        FaultKind::End => b"end",
        FaultKind::ProcessorOverlap => b"processor-overlap",
        FaultKind::TaskOverlap => b"task-overlap",
        FaultKind::Early => b"early",
        FaultKind::Supply => b"supply",
    }
}

// Whether the trace is valid, and else where it is at fault.
fn verdict_text(verdict: Verdict) -> Line
    ensures text { result ≡ verdict_text verdict }
    ensures short { length result ≤ 80 }
{
    let mut text = Line::new();
    match verdict {
        Verdict::Valid => {
            text.text(b"valid");
            text
        }
        Verdict::Fault { line, kind } => {
            add_number(&mut text, b"line ", line);
            text.text(b": ");
            text.text(kind_text(kind));
            text
        }
    }
}

// The look of that text.
fn verdict_look(verdict: Verdict) -> &'static [u8]
    ensures look { result.now ≡ verdict_look verdict }
    ensures short { length result.now ≤ 3 }
{
    match verdict {
        Verdict::Valid => b"ok",
        Verdict::Fault { line: _, kind: _ } => b"bad",
    }
}

fn title_line(set: &TaskSet) -> Line
    ensures { result ≡ codes "<title id='t'>Schedule of " ++ (size_text set.now ++ (codes "</title>" ++ line_feed ∷ [])) }
{
    let mut line = Line::new();
    line.text(b"<title id='t'>Schedule of ");
    line.text(size_text(set).as_slice());
    line.text(b"</title>");
    line.end();
    line
}

fn description_line(set: &TaskSet, window: &ShownUnits, verdict: Verdict) -> Line
    requires { AreShownUnits window.now }
    ensures { result ≡ units_text set.now window.now ++ (codes "; " ++ (verdict_text verdict ++ (codes "</desc>" ++ line_feed ∷ []))) }
{
    let mut line = Line::new();
    line.text(units_text(set, window).as_slice());
    line.text(b"; ");
    line.text(verdict_text(verdict).as_slice());
    line.text(b"</desc>");
    line.end();
    line
}

// The paper.
fn paper_line(set: &TaskSet) -> Line
    ensures { result ≡ shape_line (codes "<rect width='") 12_000 (codes "' height='") (bottom set.now + 600) (codes "' fill='#fff'/>") }
{
    shape_line(
        b"<rect width='",
        12_000,
        b"' height='",
        bottom(set) + 600,
        b"' fill='#fff'/>",
    )
}

/// Writes what comes before the lanes.
pub(crate) fn write_head<W: Sink>(
    sink: &mut W,
    set: &TaskSet,
    window: &ShownUnits,
    verdict: Verdict,
    hint: &[u8],
) -> Result<(), Failed>
    requires window { AreShownUnits window.now }
    requires hint { length hint.now ≤ 80 }
    ensures wrote { Wrote (W.taken sink.old) (W.taken sink.new) (head_text set.now window.now verdict hint.now) result }
    ensures cause { HasCause (W.faults sink.old) (W.faults sink.new) result }
{
    write_lines(sink, &opening_lines(set, window, verdict))?;
    write_style(sink)?;
    write_lines(sink, &caption_lines(set, window, verdict, hint))
}

// The first lines, up to what a screen reader reads.
fn opening_lines(set: &TaskSet, window: &ShownUnits, verdict: Verdict) -> [Line; 5]
    requires { AreShownUnits window.now }
    ensures { result ≡ opening_lines set.now window.now verdict }
{
    [
        word_line(b"<svg xmlns='http://www.w3.org/2000/svg' role='img' aria-labelledby='t d'"),
        shape_line(b" viewBox='0 0 ", 12_000, b" ", bottom(set) + 600, b"'>"),
        title_line(set),
        word_line(b"<desc id='d'>A lane for each processor, and below them one for each task;"),
        description_line(set, window, verdict),
    ]
}

fn write_style<W: Sink>(sink: &mut W) -> Result<(), Failed>
    ensures wrote { Wrote (W.taken sink.old) (W.taken sink.new) (concat style_lines) result }
    ensures cause { HasCause (W.faults sink.old) (W.faults sink.new) result }
{
    let lines = [
        word_line(
            b"<style>text{font:125px ui-monospace,DejaVu Sans Mono,monospace}.h{font-size:180px;font-weight:bold}",
        ),
        word_line(
            b".n,.a,.u,.s{fill:#444}.l,.s,.e,.u,.ok,.bad{text-anchor:end}.m,.a{text-anchor:middle}.l,.e{font-size:115px}",
        ),
        word_line(
            b".ok,.bad{font-size:160px;fill:#00603f}.e{font-weight:bold}.e,.bad{fill:#b00000}.q,.s{font-size:85px}.j{font-size:45px}",
        ),
        word_line(
            b".s.x,.s.y{font-size:110px}.p{fill:#f2f2f2}.g,.b,.r,.f,.o{fill:none;stroke:#bbb;stroke-width:6}.b{stroke:#999}",
        ),
        word_line(
            b".r,.o{stroke:#000;stroke-width:14}.o{fill:#fff}.f{stroke:#b00000;stroke-width:24}.w{fill:#b00000}",
        ),
        word_line(b".c0{color:#0072b2}.c1{color:#e69f00}.c2{color:#009e73}.c3{color:#cc79a7}"),
        word_line(b".c4{color:#56b4e9}.c5{color:#d55e00}.c6{color:#f0e442}.c7{color:#595959}"),
        word_line(
            b".m{dominant-baseline:central;stroke:currentColor;stroke-width:.2em;paint-order:stroke}.m.c0,.m.c7{fill:#fff}",
        ),
        word_line(b".v0,.v1,.v2,.v3{fill:currentColor}.v1,.v2,.v3{stroke:#000;stroke-width:12}"),
        word_line(b".v2{stroke-dasharray:40}.v3{stroke-dasharray:160 60}"),
        word_line(
            b"@media(max-width:900px){.h{font-size:300px}.ok,.bad{font-size:260px}.l,.e{transform:translateY(-30px)}",
        ),
        word_line(
            b".s{transform:translateY(15px)}.x{font-size:230px}.y,.s.y{font-size:160px}.s.x{font-size:220px}}</style>",
        ),
    ];
    write_lines(sink, &lines)
}

// A text of the second line of words, of this size.
fn sized_line(look: &[u8], size: &[u8], x: u64, text: &[u8]) -> Line
    requires look { length look.now ≤ 5 }
    requires size { length size.now ≤ 2 }
    requires text { length text.now ≤ 136 }
    ensures { result ≡ label_line (look.now ++ size.now) x 560 text.now }
{
    let mut whole = Line::new();
    whole.text(look);
    whole.text(size);
    label_line(whole.as_slice(), x, 560, text)
}

// The paper, and the words above the plot.
fn caption_lines(set: &TaskSet, window: &ShownUnits, verdict: Verdict, hint: &[u8]) -> [Line; 5]
    requires window { AreShownUnits window.now }
    requires hint { length hint.now ≤ 80 }
    ensures { result ≡ caption_lines set.now window.now verdict hint.now }
{
    let shown = shown_text(set, window, hint);
    let scale = scale_text(window.scale);
    let size = grown(shown.as_slice().len() + scale.as_slice().len(), 11300);
    [
        paper_line(set),
        label_line(b"h", 250, 330, size_text(set).as_slice()),
        sized_line(b"n", size, 250, shown.as_slice()),
        sized_line(b"u", size, 11600, scale.as_slice()),
        label_line(
            verdict_look(verdict),
            11600,
            330,
            verdict_text(verdict).as_slice(),
        ),
    ]
}

// The lane of a processor, with nothing on it.
fn lane_lines(processor: u32) -> [Line; 2]
    ensures { result ≡ roomy_line (codes "l") 1760 1780 (lane_top processor + 215) (codes "cpu " ++ decimal processor)
        ∷ box_line (codes " class='p'") plot_left (lane_top processor) plot_width 340 ∷ [] }
{
    let top = lane_top(processor);
    let mut name = Line::new();
    add_number(&mut name, b"cpu ", u64::from(processor));
    [
        roomy_line(b"l", 1760, 1780, top + 215, name.as_slice()),
        box_line(b" class='p'", LEFT, top, WIDTH, 340),
    ]
}

/// Writes the lanes of the processors, with nothing on them.
pub(crate) fn write_lanes<W: Sink>(sink: &mut W, set: &TaskSet) -> Result<(), Failed>
    ensures wrote { Wrote (W.taken sink.old) (W.taken sink.new) (lanes_text set.now) result }
    ensures cause { HasCause (W.faults sink.old) (W.faults sink.new) result }
{
    for processor in 0..set.processors() {
        write_lines(sink, &lane_lines(processor))?;
    }
    Ok(())
}

// The units from one number on the axis to the next.
#[tactic(auto, unfolding(crate::specs::Head::axis_step))]
fn axis_step(units: u64) -> u64
    ensures value { result ≡ axis_step units }
    ensures some { 0 < result }
    ensures fits { result < 2 ^ 35 }
{
    let tens: [u32; 10] = [
        1,
        10,
        100,
        1000,
        10_000,
        100_000,
        1_000_000,
        10_000_000,
        100_000_000,
        1_000_000_000,
    ];
    for ten in &tens {
        let ten = u64::from(*ten);
        if units <= 12 * ten {
            return ten;
        }
        if units <= 24 * ten {
            return 2 * ten;
        }
        if units <= 60 * ten {
            return 5 * ten;
        }
    }
    1
}

// The line and the number of a unit at a place.
fn mark_lines(at: u64, end: u64, unit: u64) -> [Line; 2]
    ensures { result ≡ shape_line (codes "<path class='g' d='M") at (codes " 880V") end (codes "'/>") ∷ roomy_line (codes "a") 760 at 840 (decimal unit) ∷ [] }
{
    [
        shape_line(b"<path class='g' d='M", at, b" 880V", end, b"'/>"),
        roomy_line(b"a", 760, at, 840, number_text(unit).as_slice()),
    ]
}

/// Writes the axis.
pub(crate) fn write_axis<W: Sink>(
    sink: &mut W,
    set: &TaskSet,
    window: &ShownUnits,
) -> Result<(), Failed>
    requires { AreShownUnits window.now }
    ensures wrote { Wrote (W.taken sink.old) (W.taken sink.new) (axis_text set.now window.now) result }
    ensures cause { HasCause (W.faults sink.old) (W.faults sink.new) result }
{
    let step = axis_step(window.units);
    let end = bottom(set);
    let first = first_mark(window, step);
    for i in 0..mark_count(window, step) {
        let unit = (first + i) * step;
        let at = window.place(u128::from(unit) * window.scale);
        write_lines(sink, &mark_lines(at, end, unit))?;
    }
    Ok(())
}

fn first_mark(window: &ShownUnits, step: u64) -> u64
    requires window { AreShownUnits window.now }
    requires some { 0 < step }
    requires fits { step < 2 ^ 35 }
    ensures { result ≡ first_mark window.now step }
{
    (window.from + step - 1) / step
}

fn mark_count(window: &ShownUnits, step: u64) -> u64
    requires window { AreShownUnits window.now }
    requires some { 0 < step }
    requires fits { step < 2 ^ 35 }
    ensures { result ≡ (window.now.from + window.now.units) / step + 1 - first_mark window.now step }
{
    ((window.from + window.units) / step + 1).saturating_sub(first_mark(window, step))
}
