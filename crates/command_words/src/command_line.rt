//! Command lines, as `clap` reads them.
ghost use Rattle.std.specs.Prelude.{◌≡◌, ℕ, ◌-◌, ◌^◌, List, map, string_bytes, codes, Some, None, IfOk, option_map};
ghost use Rattle.std.specs.Result.{IsErr};
ghost use Rattle.clap.specs.declared.error.kind.ErrorKind.TheVariants.{OutOfMemory};
ghost use Rattle.clap.specs.Words.{kind_of, subcommand_of, subcommand_rows_of, first_of, found_of, one_of, rows_of};
ghost use Rattle.command_words.specs.Words.{command_of, drawn, exec_with, number_in};
ghost use Rattle.command_words.specs.CommandLine.{Spells, parser};
ghost use Rattle.command_words.specs.declared.command.Command.{Command};
ghost use Rattle.command_words.specs.declared.command.Command.TheVariants.{Read, Execute};
ghost use Rattle.command_words.specs.declared.command.Reading.TheVariants.{Trace, TraceMet, TraceWrap, TraceRepeat, Table, TableRepeat};
ghost use Rattle.command_words.specs.declared.command.Execution.TheVariants.{Exec, ExecMet, Drill};

use crate::command::{Command, Execution, Reading};
use crate::parser::parser;
use crate::words::{USUAL_WINDOW, drawn, drill_with, exec_with, reading_named};
use clap::ArgMatches;
use clap::error::ErrorKind;
use sched_base::NoMemory;
use std::alloc::Global;

/// The command that `clap` reads in the words; none where it refuses them. It reads further spellings of a command line.
pub(crate) fn read_line(alloc: Global, words: &[String]) -> Result<Option<Command>, NoMemory>
    // No command line is refused, or read as another command.
    ensures { (c : Command) → command_of (map string_bytes words.now) ≡ Some c → IfOk result (λ read. read ≡ Some c) }
{
    match parser(alloc)?.try_get_matches_from(words) {
        Ok(matches) => Ok(command_in(&matches)),
        Err(error) => unread(&error),
    }
}

// What comes of words that `clap` refuses: no command, or want of memory.
fn unread(error: &clap::Error) -> Result<Option<Command>, NoMemory>
    ensures { kind_of error.now ≡ OutOfMemory → IsErr result }
{
    if error.kind() == ErrorKind::OutOfMemory {
        Err(NoMemory)
    } else {
        Ok(None)
    }
}

// The command that was used, with its options.
fn command_in(matches: &ArgMatches<'_>) -> Option<Command>
    ensures { (c : Command) (words : List (List ℕ)) → Spells c words → subcommand_rows_of matches.now ≡ subcommand_of parser words
        → result ≡ Some c }
{
    let (name, options) = matches.subcommand()?;
    match name {
        "trace" => read(trace_in(options)),
        "table" => read(table_in(options)),
        "draw" => read(draw_in(options)),
        "batch" => Some(Command::Batch),
        "exec" => executed(exec_in(options)),
        "drill" => executed(drill_in(options)),
        "jobs" => Some(Command::Execute(Execution::Jobs)),
        "modes" => Some(Command::Execute(Execution::Modes)),
        _ => read(reading_named(name)),
    }
}

// The command of a reading.
fn read(reading: Option<Reading>) -> Option<Command>
    ensures { result ≡ option_map Read reading }
{
    reading.map(Command::Read)
}

// `trace` with its options.
fn trace_in(options: &ArgMatches<'_>) -> Option<Reading>
    ensures met { one_of (codes "met") (rows_of (found_of options.now)) ≡ Some (codes "true") → result ≡ Some TraceMet }
    ensures repeat { one_of (codes "met") (rows_of (found_of options.now)) ≡ Some (codes "false")
        → one_of (codes "repeat") (rows_of (found_of options.now)) ≡ Some (codes "true") → result ≡ Some TraceRepeat }
    ensures plain { one_of (codes "met") (rows_of (found_of options.now)) ≡ Some (codes "false")
        → one_of (codes "repeat") (rows_of (found_of options.now)) ≡ Some (codes "false")
        → first_of (codes "by") (rows_of (found_of options.now)) ≡ None → result ≡ Some Trace }
    ensures wrap { one_of (codes "met") (rows_of (found_of options.now)) ≡ Some (codes "false")
        → one_of (codes "repeat") (rows_of (found_of options.now)) ≡ Some (codes "false")
        → first_of (codes "by") (rows_of (found_of options.now)) ≡ Some (codes "wrap") → result ≡ Some TraceWrap }
{
    if options.get_flag("met") {
        return Some(Reading::TraceMet);
    }
    trace_unmet(options)
}

// `trace` with its options, where `--met` isn't one of them.
fn trace_unmet(options: &ArgMatches<'_>) -> Option<Reading>
    ensures repeat { one_of (codes "repeat") (rows_of (found_of options.now)) ≡ Some (codes "true") → result ≡ Some TraceRepeat }
    ensures plain { one_of (codes "repeat") (rows_of (found_of options.now)) ≡ Some (codes "false")
        → first_of (codes "by") (rows_of (found_of options.now)) ≡ None → result ≡ Some Trace }
    ensures wrap { one_of (codes "repeat") (rows_of (found_of options.now)) ≡ Some (codes "false")
        → first_of (codes "by") (rows_of (found_of options.now)) ≡ Some (codes "wrap") → result ≡ Some TraceWrap }
{
    if options.get_flag("repeat") {
        return Some(Reading::TraceRepeat);
    }
    match options.get_str("by") {
        Some(value) => by_with(value),
        None => Some(Reading::Trace),
    }
}

// `trace` by what a word names.
fn by_with(word: &str) -> Option<Reading>
    ensures { word.now ≡ codes "wrap" → result ≡ Some TraceWrap }
{
    if word == "wrap" {
        Some(Reading::TraceWrap)
    } else {
        None
    }
}

// `table` with its options.
fn table_in(options: &ArgMatches<'_>) -> Option<Reading>
    ensures repeat { one_of (codes "repeat") (rows_of (found_of options.now)) ≡ Some (codes "true") → result ≡ Some TableRepeat }
    ensures plain { one_of (codes "repeat") (rows_of (found_of options.now)) ≡ Some (codes "false") → result ≡ Some Table }
{
    if options.get_flag("repeat") {
        Some(Reading::TableRepeat)
    } else {
        Some(Reading::Table)
    }
}

// `draw` with its options.
fn draw_in(options: &ArgMatches<'_>) -> Option<Reading>
    ensures { result ≡ drawn (first_of (codes "from") (rows_of (found_of options.now))) (first_of (codes "units") (rows_of (found_of options.now))) }
{
    let from = bytes_of(options.get_str("from"));
    let units = bytes_of(options.get_str("units"));
    drawn(from, units)
}

// The bytes of a value, where there is one.
fn bytes_of(value: Option<&str>) -> Option<&[u8]>
    ensures { option_map (λ bytes. bytes.now) result ≡ option_map (λ text. text.now) value.entry }
{
    match value {
        Some(text) => Some(text.as_bytes()),
        None => None,
    }
}

// The command of an execution.
fn executed(execution: Option<Execution>) -> Option<Command>
    ensures { result ≡ option_map Execute execution }
{
    execution.map(Command::Execute)
}

// `drill` with its number.
fn drill_in(options: &ArgMatches<'_>) -> Option<Execution>
    ensures { (value : List ℕ) → first_of (codes "number") (rows_of (found_of options.now)) ≡ Some value → result
        ≡ option_map (λ number. Drill number) (number_in 0 (2 ^ 64 - 1) value) }
{
    match options.get_str("number") {
        Some(value) => drill_with(value.as_bytes()),
        None => None,
    }
}

// `exec` with its options.
fn exec_in(options: &ArgMatches<'_>) -> Option<Execution>
    ensures met { one_of (codes "met") (rows_of (found_of options.now)) ≡ Some (codes "true") → result ≡ Some ExecMet }
    ensures usual { one_of (codes "met") (rows_of (found_of options.now)) ≡ Some (codes "false")
        → first_of (codes "window") (rows_of (found_of options.now)) ≡ None → result ≡ Some (Exec 32) }
    ensures window { (value : List ℕ) → one_of (codes "met") (rows_of (found_of options.now)) ≡ Some (codes "false")
        → first_of (codes "window") (rows_of (found_of options.now)) ≡ Some value → result ≡ exec_with value }
{
    if options.get_flag("met") {
        return Some(Execution::ExecMet);
    }
    match options.get_str("window") {
        Some(value) => exec_with(value.as_bytes()),
        None => Some(Execution::Exec {
            window: USUAL_WINDOW,
        }),
    }
}
