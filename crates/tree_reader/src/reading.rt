//! Reading a tree text.
ghost use Rattle.std.specs.Prelude.{◌≡◌, true, Ok, IfOk, IfErr};
ghost use Rattle.text_words.specs.Words.{lines_of};
ghost use Rattle.trace_check.specs.TaskLines.{is_scale};
ghost use Rattle.trace_check.specs.Faults.{NamesBadLine as StopsAtLine};
ghost use Rattle.tree_reader.specs.Faults.{NamesBadLine};
ghost use Rattle.tree_reader.specs.Reading.{reading, body};

use crate::faults::TreeFault;
use crate::head::read_head;
use crate::idles::read_idles;
use crate::levels::read_levels;
use sched_base::TaskSet;
use std::alloc::Global;
use trace_check::{TraceFault, is_scale, next_number, read_tasks};
use trace_verdict::FIRST_TASK_LINE;
use tree_check::ReadTree;

// What follows the tasks.
fn read_body(alloc: Global, set: TaskSet, scale: u128, text: &[u8]) -> Result<ReadTree, TraceFault>
    requires { is_scale set.tasks scale ≡ true }
    ensures tree { IfOk result (λ t. body set scale (lines_of text.now) ≡ Ok t) }
    ensures fault { IfErr result (StopsAtLine (body set scale (lines_of text.now))) }
{
    let after_tasks = FIRST_TASK_LINE + u64::from(set.count());
    let (count, rest) = next_number(text, after_tasks, b"idles", 0, 1_024)?;
    let (idles, rest) = read_idles(alloc, scale, count as u32, after_tasks + 1, rest)?;
    let levels = read_levels(alloc, scale, after_tasks + 1 + idles.len() as u64, rest)?;
    Ok(ReadTree::new(set, scale, idles, levels))
}

// Reads the text. Its first lines are like those of a trace, and so are its faults.
fn read_text(alloc: Global, bytes: &[u8]) -> Result<ReadTree, TraceFault>
    ensures tree { IfOk result (λ t. reading bytes.now ≡ Ok t) }
    ensures fault { IfErr result (StopsAtLine (reading bytes.now)) }
{
    let (head, rest) = read_head(bytes)?;
    let (set, rest) = read_tasks(alloc, &head, rest)?;
    // The scale is judged once all task lines are right, and stands on line 4.
    if !is_scale(&set, head.scale) {
        return Err(TraceFault::BadLine { line: 4 });
    }
    read_body(alloc, set, head.scale, rest)
}

/// Reads a tree text of any length, packed by any rule. The last line may lack its line feed. `BadLine` tells the least line
/// at fault, and the one after the last line where the text ends early. Whether the text is that of a reduction tree isn't
/// judged here.
pub fn read_tree(alloc: Global, bytes: &[u8]) -> Result<ReadTree, TreeFault>
    ensures tree { IfOk result (λ t. reading bytes.now ≡ Ok t) }
    ensures fault { IfErr result (NamesBadLine (reading bytes.now)) }
{
    match read_text(alloc, bytes) {
        Ok(tree) => Ok(tree),
        Err(TraceFault::BadLine { line }) => Err(TreeFault::BadLine { line }),
        Err(TraceFault::NoMemory) => Err(TreeFault::NoMemory),
    }
}
