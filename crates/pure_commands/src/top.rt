//! The top call for the commands that read.
ghost use Rattle.std.specs.Prelude.{◌≡◌, ◌≢◌, ◌↔◌, false, map, string_bytes, None, Some, Ok, Err, IfOk, IfErr, MatchResult};
ghost use Rattle.command_words.specs.Words.{command_of, asks_for_threads, DrawsSomeUnit};
ghost use Rattle.pure_commands.specs.Ends.{streams_of, error_of, IsDone, IsDoneSoundly, IsUsage, Stops, Ends, IsAnswered};
ghost use Rattle.pure_commands.specs.Commands.{of_trace, output_of};
ghost use Rattle.command_words.specs.declared.command.Command.TheVariants.{Read};
ghost use Rattle.command_words.specs.declared.command.Reading.TheVariants.{Check};
ghost use Rattle.exit_status.specs.declared.Status.TheVariants.{Done, Invalid};

use crate::check::check;
use crate::draw::draw;
use crate::follow::follow;
use crate::refusal::Refusal;
use crate::refusal_line::refuse;
use crate::set_told::{SetTold, tell_set};
use crate::sound::{follow_law, sound_law};
use command_words::{Reading, reading_of};
use exit_status::Status;
use sched_edges::{Sink, Source};
use std::alloc::Global;

/// Does what the words, those after the program's name, ask for: reads the source, writes the whole text to `out`, or one line
/// that says why not to `err`. It takes all its memory before the first byte goes to `out`, and it always returns.
///
/// The clauses speak of bytes where a stream tells its content. Want of memory alone has no cause.
pub fn run_still<R: Source, W: Sink, E: Sink>(
    alloc: Global,
    words: &[String],
    source: &mut R,
    out: &mut W,
    err: &mut E,
) -> Status
    requires still { asks_for_threads (map string_bytes words.now) ≡ false }

    // Usage comes exactly where the words are no command line, want of memory aside. All else is left as it was.
    ensures usage { result ≢ Status.NoMemory → ((result ≡ Status.Usage) ↔ (command_of (map string_bytes words.now) ≡ None)) }
    ensures unread { command_of (map string_bytes words.now) ≡ None → IsUsage
        (streams_of R.Source W.Sink source.old out.old) (streams_of R.Source W.Sink source.new out.new)
        (error_of E.Sink err.old) (error_of E.Sink err.new) result }

    // Done: `out` took exactly the text that the command writes for the bytes that the source gave, and what it tells of a set
    // or of a tree is sound: a tree is a reduction tree of its set, and a schedule is valid.
    ensures done { result ≡ Status.Done → (r : Reading) × (command_of (map string_bytes words.now) ≡ Some (Read r)) × IsDoneSoundly (output_of r) Done
        (streams_of R.Source W.Sink source.old out.old) (streams_of R.Source W.Sink source.new out.new) }

    // Invalid: `check` read a trace whose rows aren't a valid schedule, and `out` took exactly the line that says where and why.
    ensures invalid { result ≡ Status.Invalid → (command_of (map string_bytes words.now) ≡ Some (Read Check)) × IsDone of_trace Invalid
        (streams_of R.Source W.Sink source.old out.old) (streams_of R.Source W.Sink source.new out.new) }

    // Each status comes only for its reason, and `err` took its line.
    ensures ends { (r : Reading) → command_of (map string_bytes words.now) ≡ Some (Read r) → Ends (output_of r)
        (streams_of R.Source W.Sink source.old out.old) (streams_of R.Source W.Sink source.new out.new)
        (error_of E.Sink err.old) (error_of E.Sink err.new) result }

    // Where nothing fails, the answer for the bytes is given.
    ensures answered { IsAnswered (command_of (map string_bytes words.now)) (R.left source.old)
        (streams_of R.Source W.Sink source.old out.old) (streams_of R.Source W.Sink source.new out.new) result }
{
    match reading_of(alloc, words) {
        Err(_) => refuse(&Refusal::NoMemory, err),
        Ok(None) => refuse(&Refusal::Usage, err),
        Ok(Some(reading)) => run_reading(alloc, reading, source, out, err),
    }
}

/// Runs a command that reads, given as such: a caller that has no command line needs no words.
pub fn run_reading<R: Source, W: Sink, E: Sink>(
    alloc: Global,
    reading: Reading,
    source: &mut R,
    out: &mut W,
    err: &mut E,
) -> Status
    requires some { DrawsSomeUnit reading }

    // Done: `out` took exactly the text that the command writes for the bytes that the source gave, and what it tells of a set
    // or of a tree is sound.
    ensures done { result ≡ Status.Done → IsDoneSoundly (output_of reading) Done
        (streams_of R.Source W.Sink source.old out.old) (streams_of R.Source W.Sink source.new out.new) }

    // Each status comes only for its reason, and `err` took its line.
    ensures ends { Ends (output_of reading)
        (streams_of R.Source W.Sink source.old out.old) (streams_of R.Source W.Sink source.new out.new)
        (error_of E.Sink err.old) (error_of E.Sink err.new) result }

    // Only `check` tells that a trace isn't valid, and no status is that of a command line.
    ensures invalid { result ≡ Status.Invalid → reading ≡ Check }
    ensures usage { result ≢ Status.Usage }

    // Where nothing fails, the answer for the bytes is given.
    ensures answered { IsAnswered (Some (Read reading)) (R.left source.old)
        (streams_of R.Source W.Sink source.old out.old) (streams_of R.Source W.Sink source.new out.new) result }
{
    sound_law();
    follow_law();
    match read(alloc, reading, source, out) {
        Ok(status) => status,
        Err(refusal) => refuse(&refusal, err),
    }
}

// Does a command that reads.
fn read<R: Source, W: Sink>(
    alloc: Global,
    reading: Reading,
    source: &mut R,
    out: &mut W,
) -> Result<Status, Refusal>
    requires some { DrawsSomeUnit reading }
    ensures done { IfOk result (λ status. IsDone (output_of reading) status
        (streams_of R.Source W.Sink source.old out.old) (streams_of R.Source W.Sink source.new out.new)) }
    ensures stops { IfErr result (Stops (output_of reading) (streams_of R.Source W.Sink source.old out.old)
        (streams_of R.Source W.Sink source.new out.new)) }
{
    let told = match reading {
        Reading::Check => return check(alloc, source, out),
        Reading::Rate => tell_set(alloc, SetTold::Rates, source, out),
        Reading::Tree => tell_set(alloc, SetTold::Tree, source, out),
        Reading::Trace => tell_set(alloc, SetTold::Trace { met: false }, source, out),
        Reading::TraceMet => tell_set(alloc, SetTold::Trace { met: true }, source, out),
        Reading::TraceWrap => tell_set(alloc, SetTold::TraceWrap, source, out),
        Reading::TraceRepeat => tell_set(alloc, SetTold::TraceRepeat, source, out),
        Reading::Table => tell_set(alloc, SetTold::Table, source, out),
        Reading::TableRepeat => tell_set(alloc, SetTold::TableRepeat, source, out),
        Reading::Follow => follow(alloc, source, out),
        Reading::Draw(asked) => draw(alloc, asked, source, out),
    };
    done(told)
}

// `Done`, where a text was told.
fn done(told: Result<(), Refusal>) -> Result<Status, Refusal>
    ensures { MatchResult told (λ _. result ≡ Ok Done) (λ refusal. result ≡ Err refusal) }
{
    match told {
        Ok(()) => Ok(Status::Done),
        Err(refusal) => Err(refusal),
    }
}
