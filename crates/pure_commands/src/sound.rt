//! What the commands tell is sound.
ghost use Rattle.pure_commands.specs.Ends.{IsAlwaysSound};
ghost use Rattle.pure_commands.specs.Commands.{SetText};
ghost use Rattle.pure_commands.specs.Follow.{FollowsTrees};
ghost use Rattle.pure_commands.specs.Followed.{FollowsAsTraced};

use repeat_laws::repeat_unit_law;
use repeat_plans::merged_plan_law;
use sched_laws::valid_law;
use table_text::step_law;
use task_reader::reading_law;
use tree_laws::tree_law;
use tree_text_laws::{again_law, form_law};
use wrap_sched::wrap_law;

/// What is told of a set that fits is sound: the tree that `tree` writes is a reduction tree of the set, the schedules that `trace`
/// writes, by itself and by wrapping, are valid, and the rows of `table` come again from where it tells. This runs nothing: its clause
/// is the law.
pub fn sound_law()
    ensures { (what : SetText) → IsAlwaysSound what }
{
    reading_law();
    tree_law();
    valid_law();
    wrap_law();
    merged_plan_law();
    step_law();
    repeat_unit_law();
}

/// The tree that `follow` follows is a reduction tree of the text's set, and the schedule that it writes is valid; what it writes of the
/// text that `tree` writes is what `trace` writes. This runs nothing: its clauses are the law.
pub fn follow_law()
    ensures trees { FollowsTrees }
    ensures traced { FollowsAsTraced }
{
    form_law();
    again_law();
    reading_law();
    tree_law();
    valid_law();
}
