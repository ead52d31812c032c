//! Lines of a trace text.
ghost use Rattle.std.specs.Prelude.{◌≡◌, ◌≤◌, length};
ghost use Rattle.trace_format.specs.Lines.{met_line};

use sched_edges::Line;

/// The line that tells when period k of the task of this name was done.
#[tactic(auto, unfolding(crate::specs::Lines::met_line, sched_edges::specs::Lines::line_of))]
pub fn met_line(name: &[u8], k: u64, finish: u128) -> Line
    requires { length name.now ≤ 64 }
    ensures { result ≡ met_line name.now k finish }
{
    let mut line = Line::new();
    line.text(b"met");
    line.space();
    line.text(name);
    line.space();
    line.number(u128::from(k));
    line.space();
    line.number(finish);
    line.end();
    line
}
