//! The levels and their packs.
ghost use Rattle.std.specs.Prelude.{ℕ, ◌≡◌, ◌≤◌, ◌<◌, ◌+◌, ◌-◌, ◌^◌, [], length, min, Option, option_map};
ghost use Rattle.std.specs.Prelude.{slice_index_or, is_some, codes, Ok, IfOk, IfErr};
ghost use Rattle.std.specs.List.{AllByRecursion};
ghost use Rattle.text_words.specs.Words.{lines_of, after_word};
ghost use Rattle.trace_check.specs.Steps.{number_after};
ghost use Rattle.tree_check.specs.Written.{IsWrittenPack, IsWrittenLevel};
ghost use Rattle.tree_reader.specs.Reading.{packs_from, level_from, levels_from, ended, is_count, lines_so_far};
ghost use Rattle.trace_check.specs.Faults.{NamesBadLine};

use crate::packs::{level_size, read_pack};
use std::alloc::Global;
use text_words::{after_word, first_line};
use trace_check::{TraceFault, number_after};
use tree_check::{Level, Pack};

// This many packs of a level, the first of which stands on line `first`, and the lines that follow.
fn read_packs<'a>(
    alloc: Global,
    scale: u128,
    level: usize,
    count: u32,
    first: u64,
    text: &'a [u8],
) -> Result<(Vec<Pack>, &'a [u8]), TraceFault>
    requires scale { scale ≤ 2 ^ 94 }
    requires first { first + length text.now < 2 ^ 64 }
    ensures read { IfOk result (λ p. packs_from scale level first count [] (lines_of text.now) ≡ Ok (p.0.items, lines_of p.1.now)) }
    ensures count { IfOk result (λ p. length p.0.items ≡ count) }
    ensures less { IfOk result (λ p. count + length p.1.now ≤ length text.now) }
    ensures each { IfOk result (λ p. AllByRecursion (IsWrittenPack scale level) p.0.items) }
    ensures fault { IfErr result (NamesBadLine (packs_from scale level first count [] (lines_of text.now))) }
{
    let mut packs = Vec::new(alloc);
    let mut rest = text;
    for i in 0..count {
        let at = first + u64::from(i);
        if rest.is_empty() {
            return Err(TraceFault::BadLine { line: at });
        }
        let (line, later) = first_line(rest);
        let pack = match read_pack(alloc, scale, level, line)? {
            Some(pack) => pack,
            None => return Err(TraceFault::BadLine { line: at }),
        };
        packs.push(pack)?;
        rest = later;
    }
    Ok((packs, rest))
}

// A level whose line has this number, and the lines that follow it.
fn read_level<'a>(
    alloc: Global,
    scale: u128,
    level: usize,
    at: u64,
    line: &[u8],
    text: &'a [u8],
) -> Result<(Vec<Pack>, &'a [u8]), TraceFault>
    requires scale { scale ≤ 2 ^ 94 }
    requires at { at + 1 + length text.now < 2 ^ 64 }
    ensures read { IfOk result (λ p. level_from scale level at line.now (lines_of text.now) ≡ Ok (p.0.items, lines_of p.1.now)) }
    ensures less { IfOk result (λ p. length p.0.items + length p.1.now ≤ length text.now) }
    ensures lawful { IfOk result (λ p. IsWrittenLevel scale level p.0.items) }
    ensures fault { IfErr result (NamesBadLine (level_from scale level at line.now (lines_of text.now))) }
{
    match level_size(level, line) {
        Some(size) => read_packs(alloc, scale, level, size, at + 1, text),
        None => Err(TraceFault::BadLine { line: at }),
    }
}

// Whether the number is that of the levels, of which there is one at least.
fn is_count(levels: &[Level], number: Option<u128>) -> bool
    ensures { (n : Option ℕ) → number ≡ option_map (λ k. min k (2 ^ 128 - 1)) n → result ≡ is_count levels.now n }
{
    match number {
        Some(n) => n == levels.len() as u128 && n >= 1,
        None => false,
    }
}

// Whether a line is to be that of the number of levels.
fn begins_end(line: &[u8]) -> bool
    ensures { result ≡ is_some (after_word (codes "levels") line.now) }
{
    after_word(b"levels", line).is_some()
}

// Whether the line names the number of these levels, and nothing follows it.
fn end_of(levels: &[Level], at: u64, line: &[u8], rest: &[u8]) -> Result<(), TraceFault>
    requires { at + 1 < 2 ^ 64 }
    ensures read { IfOk result (λ done. ended at levels.now (number_after (codes "levels") line.now) (lines_of rest.now) ≡ Ok levels.now) }
    ensures some { IfOk result (λ done. 0 < length levels.now) }
    ensures fault { IfErr result (NamesBadLine (ended at levels.now (number_after (codes "levels") line.now) (lines_of rest.now))) }
{
    if !is_count(levels, number_after(b"levels", line)) {
        return Err(TraceFault::BadLine { line: at });
    }
    if !rest.is_empty() {
        return Err(TraceFault::BadLine { line: at + 1 });
    }
    Ok(())
}

/// Reads the levels and the line of their number. The first level's line has the number `first`.
pub(crate) fn read_levels(
    alloc: Global,
    scale: u128,
    first: u64,
    text: &[u8],
) -> Result<Vec<Level>, TraceFault>
    requires scale { scale ≤ 2 ^ 94 }
    requires first { first + length text.now + 1 < 2 ^ 64 }
    ensures read { IfOk result (λ levels. levels_from scale first 0 [] (lines_of text.now) ≡ Ok levels.items) }
    ensures some { IfOk result (λ levels. 0 < length levels.items) }
    ensures lawful { IfOk result (λ levels. (l : ℕ) → l < length levels.items → IsWrittenLevel scale l (slice_index_or levels.items l [])) }
    ensures lines { IfOk result (λ levels. first + lines_so_far levels.items < 2 ^ 64) }
    ensures fault { IfErr result (NamesBadLine (levels_from scale first 0 [] (lines_of text.now))) }
{
    let mut levels: Vec<Level> = Vec::new(alloc);
    let mut at = first;
    let mut rest = text;
    while !rest.is_empty() {
        let (line, later) = first_line(rest);
        if begins_end(line) {
            match end_of(&levels, at, line, later) {
                Ok(()) => return Ok(levels),
                Err(fault) => return Err(fault),
            }
        }
        let (packs, after) = match read_level(alloc, scale, levels.len(), at, line, later) {
            Ok(read) => read,
            Err(fault) => return Err(fault),
        };
        at += 1 + packs.len() as u64;
        levels.push(Level::new(packs))?;
        rest = after;
    }
    Err(TraceFault::BadLine { line: at })
}
