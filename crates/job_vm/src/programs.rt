//! The programs of a job text, line by line.
ghost use Rattle.std.specs.Prelude.{◌≡◌, ◌<◌, ◌^◌, ◌++◌, ◌∷◌, [], ◌==◌, ◌||◌, codes, is_some, length, Some, OnOk, IfOk, IfErr};
ghost use Rattle.std.specs.List.{after_first};
ghost use Rattle.sched_base.specs.Bytes.{line_feed};
ghost use Rattle.text_words.specs.Words.{after_word, lines_of};
ghost use Rattle.job_vm.specs.Faults.{NamesUnreadLine};
ghost use Rattle.job_vm.specs.Programs.{is_tasks, instructions, is_new, begun, lengthened, line_read};

use crate::faults::JobTextFault;
use crate::instructions::instruction_of;
use sched_base::{Name, lawful_name};
use std::alloc::Global;
use std::collections::BTreeSet;
use std::marker::Model;
use text_words::{after_word, first_line};

/// A program that was read.
#[derive(Drop)]
pub(crate) struct ReadProgram {
    name: Name,
    line: u64,
    code: Vec<u64>,
}

impl Model for ReadProgram {
    ghost use Rattle.job_vm.specs.Programs.{Program};

    ghost Value = { Program };

    ghost view = { λ p. record { name = p.name; line = p.line; code = p.code.items } };
}

impl ReadProgram {
    /// The name of its task.
    pub(crate) fn name(&self) -> &[u8]
        ensures { result.now ≡ self.now.name }
    {
        self.name.as_slice()
    }

    /// The number of the line that begins it.
    pub(crate) fn line(&self) -> u64
        ensures { result ≡ self.now.line }
    {
        self.line
    }

    /// The program's words.
    pub(crate) fn code(&self) -> &[u64]
        ensures { result.now ≡ self.now.code }
    {
        self.code.as_slice()
    }

    fn push(&mut self, word: u64) -> Result<(), JobTextFault>
        ensures ok { OnOk result (self.new ≡ record self.old { code = self.old.code ++ word ∷ [] }) }
        ensures name { self.new.name ≡ self.old.name }
        ensures err { IfErr result (λ f. f ≡ JobTextFault.NoMemory) }
    {
        self.code.push(word)?;
        Ok(())
    }
}

/// The programs that were read. Their names are kept in order besides, so that a text of many programs is read fast.
#[derive(Drop)]
pub(crate) struct Programs {
    list: Vec<ReadProgram>,
    names: BTreeSet<Vec<u8>>,
}

impl Model for Programs {
    ghost use Rattle.std.specs.Prelude.{◌≡◌, ◌<◌, ◌^◌, ℕ, List, length, not};
    ghost use Rattle.std.specs.BTreeSet.{contains_by};
    ghost use Rattle.std.specs.Cmp.Lexicographic.{slice_cmp};
    ghost use Rattle.std.specs.Ordering.{nat_cmp};
    ghost use Rattle.job_vm.specs.Programs.{Program, is_new};

    ghost Value = { List Program };

    ghost view = { λ p. p.list.items };

    ghost invariant = { λ p. (length p.list.items < 2 ^ 32)
        × ((name : List ℕ) → contains_by (λ k. slice_cmp nat_cmp name k.items) p.names ≡ not (is_new p.list.items name)) };
}

impl Programs {
    /// No program yet. This takes no memory.
    pub(crate) fn new(alloc: Global) -> Programs
        ensures { result ≡ [] }
    {
        Programs {
            list: Vec::new(alloc),
            names: BTreeSet::new(alloc),
        }
    }

    /// The programs, in the order of their lines.
    pub(crate) fn into_list(self) -> Vec<ReadProgram>
        ensures list { result.items ≡ self }
        ensures few { length result.items < 2 ^ 32 }
    {
        self.list
    }

    // Whether no program has this name.
    fn is_new(&self, name: &[u8]) -> bool
        ensures { result ≡ is_new self.now name.now }
    {
        !self.names.contains(name)
    }

    // Begins a program of this name.
    fn begin(&mut self, alloc: Global, at: u64, name: &[u8]) -> Result<(), JobTextFault>
        ensures begun { OnOk result (begun at self.old name.now ≡ Some self.new) }
        ensures fault { IfErr result (NamesUnreadLine at (begun at self.old name.now)) }
    {
        if !lawful_name(name) || !self.is_new(name) {
            return Err(JobTextFault::BadProgram { line: at });
        }
        // Programs are counted in 32 bits.
        if self.list.len() >= u32::MAX as usize {
            return Err(JobTextFault::NoMemory);
        }
        self.list.reserve(1)?;
        self.names.insert(name.to_vec(alloc)?)?;
        self.list.push_reserved(ReadProgram {
            name: Name::new(name),
            line: at,
            code: Vec::new(alloc),
        });
        Ok(())
    }

    // A word more for the last program.
    fn lengthen(&mut self, at: u64, word: u64) -> Result<(), JobTextFault>
        ensures lengthened { OnOk result (lengthened self.old word ≡ Some self.new) }
        ensures fault { IfErr result (NamesUnreadLine at (lengthened self.old word)) }
    {
        let count = self.list.len();
        if count == 0 {
            return Err(JobTextFault::BadProgram { line: at });
        }
        match self.list[count - 1].push(word) {
            Ok(()) => Ok(()),
            Err(fault) => Err(fault),
        }
    }
}

/// The first line, and what follows its line feed, which the last line may lack.
pub(crate) fn cut_line(text: &[u8]) -> (&[u8], &[u8])
    requires { 0 < length text.now }
    ensures line { lines_of text.now ≡ result.0.now ∷ lines_of result.1.now }
    ensures rest { result.1.now ≡ after_first (λ b. b == line_feed) text.now }
    ensures less { length result.1.now < length text.now }
{
    let (line, rest) = first_line(text);
    (line, &text[(line.len() + 1).min(text.len())..])
}

/// Whether this is the line behind which the set stands.
pub(crate) fn is_tasks(line: &[u8]) -> bool
    ensures { result ≡ is_tasks line.now }
{
    line == b"tasks".as_slice()
}

/// Reads line `at`, which this text follows, where the last program has so many instructions. What it gives is their number from
/// then on.
pub(crate) fn read_line(
    alloc: Global,
    programs: &mut Programs,
    count: usize,
    at: u64,
    line: &[u8],
    rest: &[u8],
) -> Result<usize, JobTextFault>
    ensures read { IfOk result (λ n. line_read at (record { programs = programs.old; count = count }) line.now (lines_of rest.now)
        ≡ Some (record { programs = programs.new; count = n })) }
    ensures fault { IfErr result (NamesUnreadLine at (line_read at (record { programs = programs.old; count = count }) line.now (lines_of rest.now))) }
{
    match after_word(b"program", line) {
        Some(name) => {
            programs.begin(alloc, at, name)?;
            Ok(instructions(rest))
        }
        None => match instruction_of(count, line) {
            Some(word) => {
                programs.lengthen(at, word)?;
                Ok(count)
            }
            None => Err(JobTextFault::BadProgram { line: at }),
        },
    }
}

// Whether a program ends before this line: another one begins there, or the set.
fn ends_program(line: &[u8]) -> bool
    ensures { result ≡ (is_some (after_word (codes "program") line.now) || is_tasks line.now) }
{
    after_word(b"program", line).is_some() || is_tasks(line)
}

// The number of instructions of a program before this text.
fn instructions(text: &[u8]) -> usize
    ensures { result ≡ instructions (lines_of text.now) }
{
    let mut count = 0;
    let mut rest = text;
    while !rest.is_empty() {
        let (line, next) = first_line(rest);
        if ends_program(line) {
            break;
        }
        count += 1;
        rest = next;
    }
    count
}
