//! A command over bytes.
ghost use Rattle.std.specs.Prelude.{◌≡◌, ◌⊎◌, []};
ghost use Rattle.command_words.specs.Words.{DrawsSomeUnit};
ghost use Rattle.pure_commands.specs.Commands.{output_of};
ghost use Rattle.pure_commands.specs.Ends.{IsAnswer};
ghost use Rattle.exit_status.specs.declared.Status.{Status as Ended};
ghost use Rattle.byte_calls.specs.Answers.{IsAnswered};

use crate::streams::{ByteSink, ByteSource};
use exit_status::Status;
use pure_commands::{Reading, run_reading};
use std::alloc::Global;
use std::marker::Model;

/// What a command answers to bytes: its status, and its text, or the line that says why there is none.
#[derive(Drop)]
pub struct Answer {
    status: Status,
    text: Vec<u8>,
}

impl Model for Answer {
    ghost use Rattle.byte_calls.specs.Held.{AnswerHeld};

    ghost Value = { AnswerHeld };

    ghost view = { λ a. record { status = a.status; text = a.text.items } };
}

impl Answer {
    /// How the command ended.
    pub fn status(&self) -> Status
        ensures { result ≡ self.now.status }
    {
        self.status
    }

    /// The text of the command, or the line of its refusal.
    pub fn text(&self) -> &[u8]
        ensures { result.now ≡ self.now.text }
    {
        self.text.as_slice()
    }

    // What is answered where memory was refused.
    fn without_memory(alloc: Global) -> Answer
        ensures status { result.status ≡ Status.NoMemory }
        ensures text { result.text ≡ [] }
    {
        Answer {
            status: Status::NoMemory,
            text: Vec::new(alloc),
        }
    }
}

/// Does a command that reads over these bytes: what it answers is what the program writes for them, and with which status it ends.
/// Where memory is refused at any point, also for the text, the status says so, and there is no text.
pub fn call(alloc: Global, reading: Reading, bytes: &[u8]) -> Answer
    requires some { DrawsSomeUnit reading }

    // The text is that of the command, what it tells of a set or of a tree is sound, and each refusal has its cause and its line.
    ensures told { IsAnswered (output_of reading) bytes.now result.status result.text }

    // The answer for the bytes is given, or memory was refused.
    ensures answered { (answer : Ended) → IsAnswer (output_of reading) bytes.now answer
        → (result.status ≡ answer) ⊎ (result.status ≡ Status.NoMemory) }
{
    let mut source = ByteSource::new(bytes);
    let mut out = ByteSink::new(alloc);
    let mut err = ByteSink::new(alloc);
    let status = run_reading(alloc, reading, &mut source, &mut out, &mut err);
    if out.has_failed() || err.has_failed() {
        return Answer::without_memory(alloc);
    }
    match status {
        Status::Done | Status::Invalid => Answer {
            status,
            text: out.bytes,
        },
        Status::NoMemory => Answer::without_memory(alloc),
        _ => Answer {
            status,
            text: err.bytes,
        },
    }
}
