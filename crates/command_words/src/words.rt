//! Command lines.
ghost use Rattle.std.specs.Prelude.{◌≡◌, ◌↔◌, ◌-◌, ◌^◌, true, false, [], ◌∷◌, map, string_bytes, Some, None, IfOk, IfSome, IsTrue, option_map};
ghost use Rattle.command_words.specs.declared.command.Command.TheVariants.{Read, Batch, Execute};
ghost use Rattle.command_words.specs.declared.command.Execution.TheVariants.{Exec, Drill};
ghost use Rattle.sched_base.specs.Limits.{window_limit};
ghost use Rattle.command_words.specs.Words.{number_in, exec_with, exec_by, HasWindow};
ghost use Rattle.command_words.specs.Words.{reading_of, reading_by, reading_named, reading_with, reading_with_value};
ghost use Rattle.command_words.specs.Words.{value_in, front, asked_from, asked_units, drawn, draw_of, DrawsSomeUnit};
ghost use Rattle.command_words.specs.Words.{execution_of, execution_named, execution_with, execution_with_value};
ghost use Rattle.command_words.specs.Words.{asks_to_execute, asks_for_batch, asks_for_threads, command_of};

use crate::asking::Asked;
use crate::command::{Command, Execution, Reading};
use crate::command_line::read_line;
use sched_base::{NoMemory, UNIT_LIMIT, WINDOW_LIMIT};
use std::alloc::Global;
use text_words::read_number;

/// Where no window is asked for, a lane may run up to that many rounds ahead.
pub const USUAL_WINDOW: u32 = 32;

/// The command that reads that these words are, the words after the program's name; none where they are no command line. The words
/// don't ask for what takes threads. The only error is want of memory.
///
/// The words are read by `clap`, which knows further spellings. So the command that was read is spelled again by the table of
/// lines, and words that aren't this spelling are no command line.
pub fn reading_of(alloc: Global, words: &[String]) -> Result<Option<Reading>, NoMemory>
    requires still { asks_for_threads (map string_bytes words.now) ≡ false }
    ensures line { IfOk result (λ reading. option_map Read reading ≡ command_of (map string_bytes words.now)) }
    ensures some { IfOk result (λ reading. IfSome reading DrawsSomeUnit) }
{
    match read_line(alloc, words)? {
        None => Ok(None),
        Some(Command::Read(reading)) if is_reading(reading, words) => Ok(Some(reading)),
        Some(Command::Read(_)) => Ok(None),
        Some(Command::Batch) => Ok(None),
        Some(Command::Execute(_)) => Ok(None),
    }
}

/// Whether these words, which ask for many sets, are the command line of `batch`. The only error is want of memory.
pub fn is_batch(alloc: Global, words: &[String]) -> Result<bool, NoMemory>
    requires batch { asks_for_batch (map string_bytes words.now) ≡ true }
    ensures line { IfOk result (λ is. is ≡ true → command_of (map string_bytes words.now) ≡ Some Batch) }
    ensures none { IfOk result (λ is. is ≡ false → command_of (map string_bytes words.now) ≡ None) }
{
    match read_line(alloc, words)? {
        Some(Command::Batch) => Ok(words.len() == 1),
        Some(Command::Read(_)) => Ok(false),
        Some(Command::Execute(_)) => Ok(false),
        None => Ok(false),
    }
}

/// The command that executes that these words are, where they ask for one; none where they are no command line.
pub fn execution_of(alloc: Global, words: &[String]) -> Result<Option<Execution>, NoMemory>
    requires executes { asks_to_execute (map string_bytes words.now) ≡ true }
    ensures line { IfOk result (λ execution. option_map Execute execution ≡ command_of (map string_bytes words.now)) }
    ensures window { IfOk result (λ execution. IfSome execution HasWindow) }
{
    match read_line(alloc, words)? {
        Some(Command::Execute(execution)) if is_execution(execution, words) => Ok(Some(execution)),
        Some(Command::Execute(_)) => Ok(None),
        Some(Command::Read(_)) => Ok(None),
        Some(Command::Batch) => Ok(None),
        None => Ok(None),
    }
}

// Whether the words are the line of this command.
fn is_reading(reading: Reading, words: &[String]) -> bool
    ensures { IsTrue result ↔ (reading_of (map string_bytes words.now) ≡ Some reading) }
{
    match words.split_first() {
        Some((word, options)) if word.as_str() == "draw" => is_drawing(reading, options),
        Some((word, options)) => is_reading_by(reading, word.as_str(), options),
        None => false,
    }
}

// Whether `draw` with these options is the line of this command.
fn is_drawing(reading: Reading, options: &[String]) -> bool
    ensures { IsTrue result ↔ (draw_of (map string_bytes options.now) ≡ Some reading) }
{
    match draw_of(options) {
        Some(drawn) => drawn == reading,
        None => false,
    }
}

// Whether this word with these options is the line of this command.
fn is_reading_by(reading: Reading, word: &str, options: &[String]) -> bool
    ensures { IsTrue result ↔ (reading_by word.now (map string_bytes options.now) ≡ Some reading) }
{
    let count = options.len();
    if count == 0 {
        is_reading_named(reading, word)
    } else if count == 1 {
        is_reading_with(reading, word, options[0].as_str())
    } else if count == 2 {
        is_reading_with_value(reading, word, options[0].as_str(), options[1].as_str())
    } else {
        false
    }
}

// Whether this word alone is the line of this command.
fn is_reading_named(reading: Reading, word: &str) -> bool
    ensures { IsTrue result ↔ (reading_named word.now ≡ Some reading) }
{
    match reading_named(word) {
        Some(named) => named == reading,
        None => false,
    }
}

/// The command that reads whose line this word alone is.
pub(crate) fn reading_named(word: &str) -> Option<Reading>
    ensures { result ≡ reading_named word.now }
{
    match word {
        "rate" => Some(Reading::Rate),
        "tree" => Some(Reading::Tree),
        "trace" => Some(Reading::Trace),
        "table" => Some(Reading::Table),
        "check" => Some(Reading::Check),
        "follow" => Some(Reading::Follow),
        _ => None,
    }
}

// Whether this word with this option is the line of this command.
fn is_reading_with(reading: Reading, word: &str, option: &str) -> bool
    ensures { IsTrue result ↔ (reading_with word.now option.now ≡ Some reading) }
{
    match reading {
        Reading::TraceMet => word == "trace" && option == "--met",
        Reading::TraceWrap => word == "trace" && option == "--by=wrap",
        Reading::TraceRepeat => word == "trace" && option == "--repeat",
        Reading::TableRepeat => word == "table" && option == "--repeat",
        _ => false,
    }
}

// Whether this word with this option and its value is the line of this command.
fn is_reading_with_value(reading: Reading, word: &str, option: &str, value: &str) -> bool
    ensures { IsTrue result ↔ (reading_with_value word.now option.now value.now ≡ Some reading) }
{
    match reading {
        Reading::TraceWrap => word == "trace" && option == "--by" && value == "wrap",
        _ => false,
    }
}

// `draw` with these options.
fn draw_of(words: &[String]) -> Option<Reading>
    ensures { result ≡ draw_of (map string_bytes words.now) }
{
    let (from, behind) = front("--from", words);
    let (units, rest) = front("--units", behind);
    if rest.is_empty() {
        drawn(from, units)
    } else {
        None
    }
}

// The value of this option at the front of the words, if it stands there, and the words behind it.
fn front<'a>(name: &str, words: &'a [String]) -> (Option<&'a [u8]>, &'a [String])
    ensures value { option_map (λ value. value.now) result.0 ≡ (front name.now (map string_bytes words.now)).0 }
    ensures rest { map string_bytes result.1.now ≡ (front name.now (map string_bytes words.now)).1 }
{
    match words {
        [word, value, rest @ ..] if word.as_str() == name => (Some(value.as_bytes()), rest),
        [word, rest @ ..] => match value_in(name, word.as_str()) {
            Some(value) => (Some(value), rest),
            None => (None, words),
        },
        [] => (None, words),
    }
}

// The value of this option that stands behind `=` in the same word.
fn value_in<'a>(name: &str, word: &'a str) -> Option<&'a [u8]>
    ensures { option_map (λ value. value.now) result ≡ value_in name.now word.now }
{
    word.as_bytes()
        .strip_prefix(name.as_bytes())?
        .strip_prefix(b"=".as_slice())
}

/// `draw` with the values of its options, where they stand there.
pub(crate) fn drawn(from: Option<&[u8]>, units: Option<&[u8]>) -> Option<Reading>
    ensures { result ≡ drawn (option_map (λ word. word.now) from.entry) (option_map (λ word. word.now) units.entry) }
{
    let from = asked_from(from)?;
    let units = asked_units(units)?;
    Some(Reading::Draw(Asked { from, units }))
}

// The first unit of a picture.
fn asked_from(word: Option<&[u8]>) -> Option<u64>
    ensures { result ≡ asked_from (option_map (λ w. w.now) word.entry) }
{
    match word {
        Some(word) => number_in(word, 0, u64::from(UNIT_LIMIT)),
        None => Some(0),
    }
}

// How many units a picture shows, where that is asked for.
fn asked_units(word: Option<&[u8]>) -> Option<Option<u64>>
    ensures { result ≡ asked_units (option_map (λ w. w.now) word.entry) }
{
    match word {
        Some(word) => number_in(word, 1, u64::from(UNIT_LIMIT)).map(Some),
        None => Some(None),
    }
}

// The number from `low` to `high` that a word writes.
fn number_in(word: &[u8], low: u64, high: u64) -> Option<u64>
    ensures { result ≡ number_in low high word.now }
{
    match read_number(word) {
        Some(number) if u128::from(low) <= number && number <= u128::from(high) => {
            Some(number as u64)
        }
        _ => None,
    }
}

// Whether the words are the line of this command.
fn is_execution(execution: Execution, words: &[String]) -> bool
    ensures { IsTrue result ↔ (execution_of (map string_bytes words.now) ≡ Some execution) }
{
    let count = words.len();
    if count == 1 {
        is_execution_named(execution, words[0].as_str())
    } else if count == 2 {
        is_execution_with(execution, words[0].as_str(), words[1].as_str())
    } else if count == 3 {
        is_execution_with_value(
            execution,
            words[0].as_str(),
            words[1].as_str(),
            words[2].as_str(),
        )
    } else {
        false
    }
}

// Whether this word alone is the line of this command.
fn is_execution_named(execution: Execution, word: &str) -> bool
    ensures { IsTrue result ↔ (execution_named word.now ≡ Some execution) }
{
    match execution {
        Execution::Exec { window } => word == "exec" && window == USUAL_WINDOW,
        Execution::Jobs => word == "jobs",
        Execution::Modes => word == "modes",
        Execution::ExecMet | Execution::Drill { .. } => false,
    }
}

// Whether this word with this option or value is the line of this command.
fn is_execution_with(execution: Execution, word: &str, option: &str) -> bool
    ensures { IsTrue result ↔ (execution_with word.now option.now ≡ Some execution) }
{
    match execution {
        Execution::Exec { window } => word == "exec" && is_window_option(option, window),
        Execution::ExecMet => word == "exec" && option == "--met",
        Execution::Drill { number } => {
            word == "drill" && number_in(option.as_bytes(), 0, u64::MAX) == Some(number)
        }
        Execution::Jobs | Execution::Modes => false,
    }
}

// Whether this option is `--window=` with this window.
fn is_window_option(option: &str, window: u32) -> bool
    ensures { IsTrue result ↔ (exec_by option.now ≡ Some (Exec window)) }
{
    match option.as_bytes().strip_prefix(b"--window=".as_slice()) {
        Some(value) => window_of(value) == Some(window),
        None => false,
    }
}

// Whether this word with this option and its value is the line of this command.
fn is_execution_with_value(execution: Execution, word: &str, option: &str, value: &str) -> bool
    ensures { IsTrue result ↔ (execution_with_value word.now option.now value.now ≡ Some execution) }
{
    match execution {
        Execution::Exec { window } => {
            word == "exec" && option == "--window" && window_of(value.as_bytes()) == Some(window)
        }
        _ => false,
    }
}

/// `exec` with the window that a word writes.
pub(crate) fn exec_with(word: &[u8]) -> Option<Execution>
    ensures { result ≡ exec_with word.now }
{
    window_of(word).map(|window| Execution::Exec { window })
}

// The window that a word writes.
fn window_of(word: &[u8]) -> Option<u32>
    ensures { result ≡ number_in 1 window_limit word.now }
{
    match read_number(word) {
        Some(number) if 1 <= number && number <= u128::from(WINDOW_LIMIT) => Some(number as u32),
        _ => None,
    }
}

/// `drill` with the number that a word writes.
pub(crate) fn drill_with(word: &[u8]) -> Option<Execution>
    ensures { result ≡ option_map (λ number. Drill number) (number_in 0 (2 ^ 64 - 1) word.now) }
{
    number_in(word, 0, u64::MAX).map(|number| Execution::Drill { number })
}

/// Whether the words ask for an execution, by the first of them.
pub fn asks_to_execute(words: &[String]) -> bool
    ensures { result ≡ asks_to_execute (map string_bytes words.now) }
{
    match words.first() {
        Some(word) => names_execution(word.as_str()),
        None => false,
    }
}

// Whether a command of this first word executes.
fn names_execution(word: &str) -> bool
    ensures { result ≡ asks_to_execute (word.now ∷ []) }
{
    matches!(word, "exec" | "drill" | "jobs" | "modes")
}

/// Whether the words ask for many sets, by the first of them.
pub fn asks_for_batch(words: &[String]) -> bool
    ensures { result ≡ asks_for_batch (map string_bytes words.now) }
{
    match words.first() {
        Some(word) => word.as_str() == "batch",
        None => false,
    }
}
