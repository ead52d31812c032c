//! The shapes of a picture, each a line of text. Lengths are tenths of a pixel.
ghost use Rattle.sched_base.specs.Bytes.{line_feed, space};
ghost use Rattle.std.specs.Prelude.{◌≡◌, ◌+◌, ◌≤◌, ◌<◌, ◌^◌, ◌++◌, length, codes, decimal, nat_lt, ◌/◌, ◌%◌, if◌then◌else◌, ◌∷◌, []};
ghost use Rattle.trace_draw.specs.Shapes.{box_line, label_line, grown, roomy_line, shape_line};
ghost use Rattle.trace_draw.specs.Shapes.{task_look, lane_top, task_top};

use sched_edges::Line;

/// The digits of a number.
pub(crate) fn number_text(number: u64) -> Line
    ensures text { result ≡ decimal number }
    ensures short { length result ≤ 40 }
{
    let mut text = Line::new();
    text.number(u128::from(number));
    text
}

/// Adds a text, and a number after it.
pub(crate) fn add_number(line: &mut Line, text: &[u8], number: u64)
    requires { length line.old + length text.now ≤ 216 }
    ensures text { line.new ≡ line.old ++ (text.now ++ decimal number) }
    ensures short { length line.new ≤ length line.old + length text.now + 40 }
{
    line.text(text);
    line.number(u128::from(number));
}

/// The line, where it is to be shown.
pub(crate) fn line_if(shown: bool, line: Line) -> Line
    ensures { result ≡ (if shown then line else []) }
{
    if shown { line } else { Line::new() }
}

/// A filled box, with an attribute if any.
#[tactic(auto, unfolding(crate::specs::Shapes::box_line))]
pub(crate) fn box_line(look: &[u8], x: u64, y: u64, width: u64, height: u64) -> Line
    requires { length look.now ≤ 16 }
    ensures { result ≡ box_line look.now x y width height }
{
    let mut line = Line::new();
    line.text(b"<rect");
    line.text(look);
    add_number(&mut line, b" x='", x);
    add_number(&mut line, b"' y='", y);
    add_number(&mut line, b"' width='", width);
    add_number(&mut line, b"' height='", height);
    line.text(b"'/>");
    line.end();
    line
}

/// The begin of a group of shapes that look so, with a text that is shown where the mouse rests on them.
pub(crate) fn group_line(look: &[u8], tip: &[u8]) -> Line
    requires look { length look.now ≤ 8 }
    requires tip { length tip.now ≤ 64 }
    ensures { result ≡ codes "<g class='" ++ (look.now ++ (codes "'><title>" ++ (tip.now ++ (codes "</title>" ++ line_feed ∷ [])))) }
{
    let mut line = Line::new();
    line.text(b"<g class='");
    line.text(look);
    line.text(b"'><title>");
    line.text(tip);
    line.text(b"</title>");
    line.end();
    line
}

/// A text.
#[tactic(auto, unfolding(crate::specs::Shapes::label_line))]
pub(crate) fn label_line(look: &[u8], x: u64, y: u64, text: &[u8]) -> Line
    requires look { length look.now ≤ 7 }
    requires text { length text.now ≤ 136 }
    ensures { result ≡ label_line look.now x y text.now }
{
    let mut line = Line::new();
    line.text(b"<text class='");
    line.text(look);
    add_number(&mut line, b"' x='", x);
    add_number(&mut line, b"' y='", y);
    line.text(b"'>");
    line.text(text);
    line.text(b"</text>");
    line.end();
    line
}

/// How large so many letters with this room may be on a narrow page.
pub(crate) fn grown(letters: usize, room: u64) -> &'static [u8]
    requires { letters ≤ 512 }
    ensures look { result.now ≡ grown letters room }
    ensures short { length result.now ≤ 2 }
{
    let letters = letters as u64;
    if 140 * letters + 60 <= room {
        b" x"
    } else if 100 * letters + 60 <= room {
        b" y"
    } else {
        b""
    }
}

/// A text with this room, whose letters are larger on a narrow page.
pub(crate) fn roomy_line(look: &[u8], room: u64, x: u64, y: u64, text: &[u8]) -> Line
    requires look { length look.now ≤ 5 }
    requires text { length text.now ≤ 136 }
    ensures { result ≡ roomy_line look.now room x y text.now }
{
    let mut whole = Line::new();
    whole.text(look);
    whole.text(grown(text.len(), room));
    label_line(whole.as_slice(), x, y, text)
}

/// A shape that is told by two numbers, with what stands before, between and behind them.
#[tactic(auto, unfolding(crate::specs::Shapes::shape_line))]
pub(crate) fn shape_line(before: &[u8], x: u64, between: &[u8], y: u64, behind: &[u8]) -> Line
    requires before { length before.now ≤ 32 }
    requires between { length between.now ≤ 16 }
    requires behind { length behind.now ≤ 32 }
    ensures { result ≡ shape_line before.now x between.now y behind.now }
{
    let mut line = Line::new();
    add_number(&mut line, before, x);
    add_number(&mut line, between, y);
    line.text(behind);
    line.end();
    line
}

// The digit of a number below 10.
fn digit(number: u32) -> u8
    requires { number < 10 }
    ensures { result ≡ 48 + number }
{
    b'0' + number as u8
}

// The border of a task's box: one of four, and none where the box is narrow.
fn border(task: u32, width: u64) -> u32
    ensures value { result ≡ (if nat_lt width 60 then 0 else task / 8 % 4) }
    ensures small { result < 10 }
{
    if width < 60 { 0 } else { task / 8 % 4 }
}

/// The look of a task's box that is so wide: one of eight colours, and its border.
pub(crate) fn task_look(task: u32, width: u64) -> [u8; 5]
    ensures look { result ≡ task_look task width }
    ensures short { length result ≤ 5 }
{
    [
        b'c',
        digit(task % 8),
        b' ',
        b'v',
        digit(border(task, width)),
    ]
}

/// The look of a text on them.
pub(crate) fn text_look(task: u32) -> [u8; 4]
    ensures look { result ≡ 109 ∷ space ∷ 99 ∷ (48 + task % 8) ∷ [] }
    ensures short { length result ≤ 5 }
{
    [b'm', b' ', b'c', digit(task % 8)]
}

/// How far from the top the lane of a processor begins.
pub(crate) fn lane_top(processor: u32) -> u64
    ensures value { result ≡ lane_top processor }
    ensures fits { result < 2 ^ 42 }
{
    1000 + 420 * u64::from(processor)
}

/// How far from the top the lane of a task begins, below those of so many processors.
pub(crate) fn task_top(processors: u32, task: u32) -> u64
    ensures value { result ≡ task_top processors task }
    ensures fits { result < 2 ^ 43 }
{
    1230 + 420 * u64::from(processors) + 400 * u64::from(task)
}
