//! The commands that take no lock, over bytes in memory.
ghost use Rattle.std.specs.Prelude.{◌≡◌, ◌≢◌, ◌<◌, length, Some, None, IfSome};
ghost use Rattle.command_words.specs.Words.{DrawsSomeUnit};
ghost use Rattle.furnacelime_c.specs.Answers.{reading_of, asked_by, AnswerGives, IsNotCalled, IsCopied, IsShort};

use crate::numbers::WRONG_CALL;
use byte_calls::call;
use c_handles::AnswerHandle;
use command_words::Asked;
use exit_status::Status;
use pure_commands::Reading;
use std::alloc::Global;

/// What is asked of the bytes: the number of a command, and which units `draw` draws; no units are as many as are easily looked at.
#[repr(C)]
#[derive(Clone, Copy, Debug, PartialEq, Eq)]
pub struct Question {
    pub command: u32,
    pub from: u64,
    pub units: u64,
}

/// Does a command over these bytes, and keeps what it answers: the number is its status, and `text_length` that of its text, or of the line that
/// says why there is none. The number is 64 where no command has the number, and 5 with no answer kept where memory was refused.
#[unsafe(no_mangle)]
pub extern "C" fn furnacelime_ask(
    alloc: Global,
    question: &Question,
    bytes: &[u8],
    kept: &mut AnswerHandle,
    text_length: &mut usize,
) -> u8
    requires empty { kept.old.answer ≡ None }
    ensures given { kept.new.answer ≢ None → AnswerGives question.now bytes.now kept.new.answer text_length.new result }
    ensures nothing { kept.new.answer ≡ None → IsNotCalled question.now text_length.new result }
{
    *text_length = 0;
    let Some(reading) = reading_of(question) else {
        return WRONG_CALL;
    };
    let answer = call(alloc, reading, bytes);
    let status = answer.status().code();
    let length = answer.text().len();
    match Box::new(alloc, answer) {
        Ok(boxed) => {
            *text_length = length;
            *kept = AnswerHandle::of(boxed);
            status
        }
        Err(_) => Status::NoMemory.code(),
    }
}

/// Copies the text of an answer to the front of `text`, and gives the memory of the answer back. With too little room the number is 64, and
/// nothing is copied.
#[unsafe(no_mangle)]
pub extern "C" fn furnacelime_tell(alloc: Global, answer: AnswerHandle, text: &mut [u8]) -> u8
    requires open { answer.answer ≢ None }
    ensures copied { result ≡ 0 → IsCopied answer.answer text.old text.new }
    ensures short { result ≢ 0 → IsShort answer.answer text.old text.new result }
{
    let answer = answer.into_box(alloc);
    let told = answer.text();
    if text.len() < told.len() {
        return WRONG_CALL;
    }
    text[..told.len()].copy_from_slice(told);
    0
}

// The command of this number, with the units that are asked for.
fn reading_of(question: &Question) -> Option<Reading>
    ensures reading { result ≡ reading_of question.now }
    ensures some { IfSome result DrawsSomeUnit }
{
    match question.command {
        1 => Some(Reading::Rate),
        2 => Some(Reading::Tree),
        3 => Some(Reading::Trace),
        4 => Some(Reading::TraceMet),
        5 => Some(Reading::TraceWrap),
        6 => Some(Reading::Table),
        7 => Some(Reading::Check),
        8 => Some(Reading::Follow),
        9 => Some(Reading::Draw(asked_by(question))),
        _ => None,
    }
}

// The units that are asked for.
fn asked_by(question: &Question) -> Asked
    ensures { result ≡ asked_by question.now }
{
    Asked {
        from: question.from,
        units: if question.units == 0 {
            None
        } else {
            Some(question.units)
        },
    }
}
