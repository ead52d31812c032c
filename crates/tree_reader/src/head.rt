//! The first five lines of a tree text.
ghost use Rattle.std.specs.Prelude.{◌≡◌, ◌<◌, ◌≤◌, ◌^◌, Ok, Err, IfOk, IfErr};
ghost use Rattle.trace_format.specs.declared.versions.Version.TheVariants.{One};
ghost use Rattle.sched_base.specs.Limits.{processor_limit, task_limit};
ghost use Rattle.text_words.specs.Words.{lines_of};
ghost use Rattle.trace_check.specs.declared.head_lines.Head.{Head as Said};
ghost use Rattle.trace_check.specs.HeadLines.{capped};
ghost use Rattle.tree_reader.specs.Reading.{tree_head};

use trace_check::{
    BadLine, Head, MOST_PROCESSORS, MOST_TASKS, MOST_UNITS, next_number, next_scale,
};
use trace_format::Version;

/// Reads the first five lines: what they say, and the lines that follow, or the first line at fault.
pub(crate) fn read_head(text: &[u8]) -> Result<(Head, &[u8]), BadLine>
    ensures read { IfOk result (λ p. (h : Said) × (tree_head (lines_of text.now) ≡ Ok (h, lines_of p.1.now)) × (p.0 ≡ capped h)) }
    ensures fault { IfErr result (λ bad. tree_head (lines_of text.now) ≡ Err bad.line) }
    ensures version { IfOk result (λ p. p.0.version ≡ One) }
    ensures processors { IfOk result (λ p. (1 ≤ p.0.processors) × (p.0.processors ≤ processor_limit)) }
    ensures horizon { IfOk result (λ p. (1 ≤ p.0.horizon) × (p.0.horizon < 2 ^ 32)) }
    ensures tasks { IfOk result (λ p. p.0.tasks ≤ task_limit) }
{
    let (_version, rest) = next_number(text, 1, b"run-tree", 1, 1)?;
    let (processors, rest) = next_number(rest, 2, b"processors", 1, MOST_PROCESSORS)?;
    let (horizon, rest) = next_number(rest, 3, b"horizon", 1, MOST_UNITS)?;
    let (scale, rest) = next_scale(rest)?;
    let (tasks, rest) = next_number(rest, 5, b"tasks", 0, MOST_TASKS)?;
    let head = Head {
        version: Version::One,
        processors: processors as u32,
        horizon: horizon as u64,
        scale,
        tasks: tasks as u32,
    };
    Ok((head, rest))
}
