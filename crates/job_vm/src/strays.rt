//! Programs that name no task of a set.
ghost use Rattle.std.specs.Prelude.{◌≡◌};
ghost use Rattle.std.specs.List.{list_any};
ghost use Rattle.std.specs.Str.{bytes_eq};
ghost use Rattle.job_vm.specs.Strays.{first_stray};

use crate::job_text::JobText;
use sched_base::TaskSet;

/// The number of the line, counted from 1, that begins the first program which names no task of the set.
pub fn first_stray(text: &JobText, set: &TaskSet) -> Option<u64>
    ensures { result ≡ first_stray set.now.tasks text.now.programs }
{
    for program in text.programs() {
        if !names_task(set, program.name()) {
            return Some(program.line());
        }
    }
    None
}

// Whether a task of the set has this name.
fn names_task(set: &TaskSet, name: &[u8]) -> bool
    ensures { result ≡ list_any (λ t. bytes_eq t.name name.now) set.now.tasks }
{
    set.tasks().iter().any(|task| task.name.as_slice() == name)
}
