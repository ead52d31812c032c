//! The commands and their options, and the parser that `clap` makes of them.
ghost use Rattle.std.specs.Prelude.{◌≡◌, false, IfOk};
ghost use Rattle.clap.specs.Words.{app_of, rule_of};
ghost use Rattle.command_words.specs.CommandLine.{program, parser, AddsItself};
ghost use Rattle.command_words.specs.Parts.{name_of, action_of, stands_in_place, rule_of_part, text_of, parts_of, words_in_order, app_of_word};

use clap::{Arg, ArgAction};
use std::alloc::{AllocError, Global};

/// An option of a command, or the value that stands in its place.
#[derive(Clone, Copy)]
pub(crate) enum Part {
    Met,
    By,
    Repeat,
    From,
    Units,
    Window,
    Number,
}

/// The first word of a command.
#[derive(Clone, Copy)]
pub(crate) enum Word {
    Rate,
    Tree,
    Trace,
    Table,
    Check,
    Follow,
    Draw,
    Batch,
    Exec,
    Drill,
    Jobs,
    Modes,
}

/// The program with its commands and their options, and no words of help.
pub(crate) fn parser<'a>(alloc: Global) -> Result<clap::Command<'a>, AllocError>
    ensures { IfOk result (λ p. app_of p ≡ parser) }
{
    let mut program = program(alloc);
    for word in words_in_order() {
        let command = command_of(alloc, *word)?;
        program = program.subcommand(command)?;
    }
    Ok(program)
}

// The program, which wants a command and has no words of help.
fn program<'a>(alloc: Global) -> clap::Command<'a>
    ensures { app_of result ≡ program }
{
    clap::Command::new(alloc, "furnacelime")
        .no_binary_name(true)
        .disable_help_flag(true)
        .disable_help_subcommand(true)
        .subcommand_required(true)
}

// The command of this word, with its options.
fn command_of<'a>(alloc: Global, word: Word) -> Result<clap::Command<'a>, AllocError>
    ensures app { IfOk result (λ c. app_of c ≡ app_of_word word) }
    ensures itself { IfOk result AddsItself }
{
    let mut command = clap::Command::new(alloc, text_of(word));
    for part in parts_of(word) {
        command = command.arg(arg_of(alloc, *part))?;
    }
    Ok(command)
}

// An option, or a value in its place.
fn arg_of<'a>(alloc: Global, part: Part) -> Arg<'a>
    ensures rule { rule_of result ≡ rule_of_part part }
    ensures local { result.global ≡ false }
{
    let name = name_of(part);
    let arg = Arg::new(alloc, name).action(action_of(part));
    if stands_in_place(part) {
        arg
    } else {
        arg.long(name)
    }
}

// The name of an option, without its hyphens, or of a value.
fn name_of<'a>(part: Part) -> &'a str
    ensures { result.now ≡ name_of part }
{
    match part {
        Part::Met => "met",
        Part::By => "by",
        Part::Repeat => "repeat",
        Part::From => "from",
        Part::Units => "units",
        Part::Window => "window",
        Part::Number => "number",
    }
}

// `--met` and `--repeat` alone take no value.
fn action_of(part: Part) -> ArgAction
    ensures { result ≡ action_of part }
{
    match part {
        Part::Met | Part::Repeat => ArgAction::SetTrue,
        Part::By | Part::From | Part::Units | Part::Window | Part::Number => ArgAction::Set,
    }
}

// The number of a drill has no name in the line.
fn stands_in_place(part: Part) -> bool
    ensures { result ≡ stands_in_place part }
{
    match part {
        Part::Number => true,
        Part::Met | Part::By | Part::Repeat | Part::From | Part::Units | Part::Window => false,
    }
}

// The words of the commands, in the order in which the program has them.
fn words_in_order() -> &'static [Word]
    ensures { result.now ≡ words_in_order }
{
    &[
        Word::Rate,
        Word::Tree,
        Word::Trace,
        Word::Table,
        Word::Check,
        Word::Follow,
        Word::Draw,
        Word::Batch,
        Word::Exec,
        Word::Drill,
        Word::Jobs,
        Word::Modes,
    ]
}

// A word as it is written.
fn text_of<'a>(word: Word) -> &'a str
    ensures { result.now ≡ text_of word }
{
    match word {
        Word::Rate => "rate",
        Word::Tree => "tree",
        Word::Trace => "trace",
        Word::Table => "table",
        Word::Check => "check",
        Word::Follow => "follow",
        Word::Draw => "draw",
        Word::Batch => "batch",
        Word::Exec => "exec",
        Word::Drill => "drill",
        Word::Jobs => "jobs",
        Word::Modes => "modes",
    }
}

// The options of a command.
fn parts_of(word: Word) -> &'static [Part]
    ensures { result.now ≡ parts_of word }
{
    match word {
        Word::Trace => &[Part::Met, Part::By, Part::Repeat],
        Word::Table => &[Part::Repeat],
        Word::Draw => &[Part::From, Part::Units],
        Word::Exec => &[Part::Met, Part::Window],
        Word::Drill => &[Part::Number],
        Word::Rate | Word::Tree | Word::Check | Word::Follow => &[],
        Word::Batch | Word::Jobs | Word::Modes => &[],
    }
}
