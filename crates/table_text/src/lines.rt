//! The lines of a table in C.
ghost use Rattle.std.specs.Prelude.{◌≡◌, ◌+◌, ◌≤◌, ◌<◌, ◌^◌, ◌/◌, ◌⊎◌, ◌++◌, length, codes, decimal};
ghost use Rattle.table_text.specs.Lines.{width_of, task_line, task_number, row_line, processor_line, field_line};

use sched_base::{Leaf, Row, Task};
use sched_edges::Line;

/// How many bits the narrowest unsigned type of C has that holds the number.
pub(crate) fn width_of(number: u128) -> u128
    requires { number < 2 ^ 64 }
    ensures value { result ≡ width_of number }
    ensures holds { number < 2 ^ result }
    ensures narrowest { (result ≡ 8) ⊎ (2 ^ (result / 2) ≤ number) }
{
    if number < 1 << 8 {
        8
    } else if number < 1 << 16 {
        16
    } else if number < 1 << 32 {
        32
    } else {
        64
    }
}

// Adds a text, and a number after it.
fn add_number(line: &mut Line, text: &[u8], number: u128)
    requires { length line.old + length text.now ≤ 216 }
    ensures text { line.new ≡ line.old ++ (text.now ++ decimal number) }
    ensures short { length line.new ≤ length line.old + length text.now + 40 }
{
    line.text(text);
    line.number(number);
}

/// The start and the end of a row, numbers of so many bits each.
pub(crate) fn ticks_line(width: u128) -> Line
    ensures { result ≡ codes "  uint" ++ (decimal width ++ codes "_t start, end;\n") }
{
    let mut line = Line::new();
    add_number(&mut line, b"  uint", width);
    line.text(b"_t start, end;\n");
    line
}

/// A task: its name, work, period and offset.
#[tactic(auto, unfolding(crate::specs::Lines::task_line))]
pub(crate) fn task_line(task: &Task) -> Line
    ensures { result ≡ task_line task.now }
{
    let mut line = Line::new();
    line.text(b"  {\"");
    line.text(task.name.as_slice());
    add_number(&mut line, b"\", ", u128::from(task.work));
    add_number(&mut line, b"u, ", u128::from(task.period));
    add_number(&mut line, b"u, ", u128::from(task.offset));
    line.text(b"u},\n");
    line
}

// The number of the task that runs, or -1 where none does.
fn task_number(leaf: Leaf) -> Line
    ensures text { result ≡ task_number leaf }
    ensures short { length result ≤ 40 }
{
    let mut text = Line::new();
    match leaf {
        Leaf::Task(id) => text.number(u128::from(id.0)),
        Leaf::Idle(_) | Leaf::Wait(_) | Leaf::Empty => text.text(b"-1"),
    }
    text
}

/// A row: its start and its end, in steps of so many ticks, and its task.
#[tactic(auto, unfolding(crate::specs::Lines::row_line))]
pub(crate) fn row_line(row: &Row, step: u128) -> Line
    requires { 1 ≤ step }
    ensures { result ≡ row_line step row.now }
{
    let mut line = Line::new();
    add_number(&mut line, b"  {", row.start / step);
    add_number(&mut line, b"u, ", row.end / step);
    line.text(b"u, ");
    line.text(task_number(row.leaf).as_slice());
    line.text(b"},\n");
    line
}

/// The line before the rows of processor p.
pub(crate) fn lane_line(p: u32) -> Line
    ensures { result ≡ codes "static const struct furnacelime_row furnacelime_rows_" ++ (decimal p ++ codes "[] = {\n") }
{
    let mut line = Line::new();
    add_number(
        &mut line,
        b"static const struct furnacelime_row furnacelime_rows_",
        u128::from(p),
    );
    line.text(b"[] = {\n");
    line
}

/// Processor p: how many rows it has, and where they are.
#[tactic(auto, unfolding(crate::specs::Lines::processor_line))]
pub(crate) fn processor_line(p: u32, count: usize) -> Line
    ensures { result ≡ processor_line p count }
{
    let mut line = Line::new();
    add_number(&mut line, b"  {", count as u128);
    add_number(&mut line, b"u, furnacelime_rows_", u128::from(p));
    line.text(b"},\n");
    line
}

/// A number, and its name as a comment.
#[tactic(auto, unfolding(crate::specs::Lines::field_line))]
pub(crate) fn field_line(name: &[u8], number: u128) -> Line
    requires { length name.now ≤ 32 }
    ensures { result ≡ field_line name.now number }
{
    let mut line = Line::new();
    add_number(&mut line, b"  ", number);
    line.text(b"u, /* ");
    line.text(name);
    line.text(b" */\n");
    line
}
