//! The command `batch`.
ghost use Rattle.std.specs.Prelude.{◌≡◌, ◌≢◌, ◌≤◌, ◌+◌, ◌++◌, length, codes, Some, IfOk, OnOk, IfErr};
ghost use Rattle.std.specs.List.{AllZip};
ghost use Rattle.sched_edges.specs.Causes.{HasCause};
ghost use Rattle.sched_edges.specs.Streams.{Wrote};
ghost use Rattle.task_reader.specs.Pieces.{pieces_of};
ghost use Rattle.batch_compile.specs.declared.answers.Answer.TheVariants.{Fits};
ghost use Rattle.batch_compile.specs.Answers.{IsAnswer};
ghost use Rattle.pure_commands.specs.Batch.{answer_text, answer_line};
ghost use Rattle.pure_commands.specs.Numbered.{numbered, several};
ghost use Rattle.pure_commands.specs.Commands.{of_batch};
ghost use Rattle.pure_commands.specs.Ends.{streams_of, error_of, IsDone, Stops, Ends, IsAnswered};
ghost use Rattle.command_words.specs.declared.command.Command.TheVariants.{Batch};
ghost use Rattle.exit_status.specs.declared.Status.TheVariants.{Done};

use crate::mode_line::set_start;
use crate::numbered::write_count;
use crate::refusal::Refusal;
use crate::refusal_line::{overload_line, refuse, scale_line, write_line, write_set_refusal};
use crate::unwritten::written;
use batch_compile::{Answer, Answers, answers_of};
use exit_status::Status;
use sched_base::{NoMemory, SET_LIMIT};
use sched_edges::{Failed, Line, Sink, Source, read_all, write_all};
use std::alloc::Global;
use std::thread::Threads;
use task_reader::cut;

/// Runs `batch`: reads many task sets, and writes of each whether it fits, or one line that says why not to `err`.
pub fn run_batch<R: Source, W: Sink, E: Sink, X: Threads + Sync>(
    rt: &X,
    alloc: Global,
    source: &mut R,
    out: &mut W,
    err: &mut E,
) -> Status
    ensures done { result ≡ Status.Done → IsDone of_batch Done
        (streams_of R.Source W.Sink source.old out.old) (streams_of R.Source W.Sink source.new out.new) }
    ensures usage { result ≢ Status.Usage }
    ensures valid { result ≢ Status.Invalid }
    ensures ends { Ends of_batch
        (streams_of R.Source W.Sink source.old out.old) (streams_of R.Source W.Sink source.new out.new)
        (error_of E.Sink err.old) (error_of E.Sink err.new) result }
    ensures answered { IsAnswered (Some Batch) (R.left source.old)
        (streams_of R.Source W.Sink source.old out.old) (streams_of R.Source W.Sink source.new out.new) result }
{
    match batch(rt, alloc, source, out) {
        Ok(()) => Status::Done,
        Err(refusal) => refuse(&refusal, err),
    }
}

// Reads many task sets, and writes of each whether it fits.
fn batch<R: Source, W: Sink, X: Threads + Sync>(
    rt: &X,
    alloc: Global,
    source: &mut R,
    out: &mut W,
) -> Result<(), Refusal>
    ensures done { OnOk result (IsDone of_batch Done (streams_of R.Source W.Sink source.old out.old)
        (streams_of R.Source W.Sink source.new out.new)) }
    ensures stops { IfErr result (Stops of_batch (streams_of R.Source W.Sink source.old out.old)
        (streams_of R.Source W.Sink source.new out.new)) }
{
    let bytes = read_all(alloc, source, SET_LIMIT)?;
    let answers = answers_in(rt, alloc, bytes.as_slice())?;
    written(write_answers(&answers, out))
}

// The answers of the pieces of a text.
fn answers_in<X: Threads + Sync>(rt: &X, alloc: Global, bytes: &[u8]) -> Result<Answers, NoMemory>
    requires { length bytes.now ≤ SET_LIMIT }
    ensures { IfOk result (AllZip IsAnswer (pieces_of bytes.now)) }
{
    let pieces = cut(alloc, bytes)?;
    answers_of(rt, alloc, bytes, &pieces)
}

// Writes the text of the answers.
fn write_answers<W: Sink>(answers: &Answers, out: &mut W) -> Result<(), Failed>
    ensures wrote { Wrote (W.taken out.old) (W.taken out.new) (several (codes "run-batch") (codes "sets") answer_line answers.now) result }
    ensures cause { HasCause (W.faults out.old) (W.faults out.new) result }
{
    write_count(b"run-batch", b"sets", answers.count(), out)?;
    write_sets(answers, out)
}

// Writes the line of each set.
fn write_sets<W: Sink>(answers: &Answers, out: &mut W) -> Result<(), Failed>
    ensures wrote { Wrote (W.taken out.old) (W.taken out.new) (numbered answer_line 0 answers.now) result }
    ensures cause { HasCause (W.faults out.old) (W.faults out.new) result }
{
    for j in 0..answers.count() {
        write_answer(j, answers.item(j), out)?;
    }
    Ok(())
}

// Writes the line of set j.
fn write_answer<W: Sink>(j: u32, answer: &Answer, out: &mut W) -> Result<(), Failed>
    ensures wrote { Wrote (W.taken out.old) (W.taken out.new) (answer_line j answer.now) result }
    ensures cause { HasCause (W.faults out.old) (W.faults out.new) result }
{
    write_all(out, set_start(j).as_slice())?;
    write_answer_text(answer, out)
}

// Writes what is told of one set, after its number.
#[tactic(auto, unfolding(crate::specs::Batch::answer_text))]
fn write_answer_text<W: Sink>(answer: &Answer, out: &mut W) -> Result<(), Failed>
    ensures wrote { Wrote (W.taken out.old) (W.taken out.new) (answer_text answer.now) result }
    ensures cause { HasCause (W.faults out.old) (W.faults out.new) result }
{
    match answer {
        Answer::Refused(refusal) => write_set_refusal(refusal, out),
        Answer::ScaleTooLarge { at } => write_line(scale_line(*at), out),
        Answer::Overload { total, room } => write_line(overload_line(*total, *room), out),
        Answer::Fits { scale, levels } => write_line(fits_line(*scale, *levels), out),
    }
}

// That a set fits: its scale, and the number of levels of its tree.
#[tactic(auto, unfolding(crate::specs::Batch::answer_text, sched_edges::specs::Lines::line_of))]
fn fits_line(scale: u128, levels: u32) -> Line
    ensures { result ≡ answer_text (Fits scale levels) }
{
    let mut line = Line::new();
    line.text(b"fits");
    line.space();
    line.text(b"scale");
    line.space();
    line.number(scale);
    line.space();
    line.text(b"levels");
    line.space();
    line.number(u128::from(levels));
    line.end();
    line
}
