//! The lines before the row lines, at the front of a text of which more may follow.
ghost use Rattle.std.specs.Prelude.{◌≡◌, ◌<◌, ◌≤◌, length, IfSome};
ghost use Rattle.text_window.specs.Lines.{EndsLine};
ghost use Rattle.trace_check.specs.Fronts.{IsTextFront};

use crate::head_lines::{Head, read_head};
use crate::task_lines::{is_scale, read_tasks};
use sched_base::TaskSet;
use std::alloc::Global;

/// The head and the set of a trace text, and how many bytes their lines have.
#[derive(Drop)]
pub(crate) struct Front {
    pub head: Head,
    pub set: TaskSet,
    pub count: usize,
}

// The number of bytes up to the first row line, where one is there.
fn front_len(text: &[u8]) -> Option<usize>
    ensures some { IfSome result (λ n. 0 < n) }
    ensures within { IfSome result (λ n. n ≤ length text.now) }
{
    for at in 0..text.len() {
        if text[at..].starts_with(b"\nrow ") {
            return Some(at + 1);
        }
    }
    None
}

// The head and the set, where this is the text of their lines.
fn front_of(alloc: Global, text: &[u8]) -> Option<Front>
    requires { EndsLine text.now }
    ensures front { IfSome result (IsTextFront text.now) }
    ensures count { IfSome result (λ f. f.count ≡ length text.now) }
{
    let Ok((head, rest)) = read_head(text) else {
        return None;
    };
    let Ok((set, rest)) = read_tasks(alloc, &head, rest) else {
        return None;
    };
    if !rest.is_empty() || !is_scale(&set, head.scale) {
        return None;
    }
    Some(Front {
        head,
        set,
        count: text.len(),
    })
}

/// The lines before the row lines, where they are right and a row line follows. Else nothing, which says nothing of the text.
pub(crate) fn read_front(alloc: Global, text: &[u8]) -> Option<Front>
    ensures { IfSome result (IsTextFront text.now) }
{
    let count = front_len(text)?;
    let front = &text[..count];
    if front[count - 1] != b'\n' {
        return None;
    }
    front_of(alloc, front)
}
