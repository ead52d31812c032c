//! The lines of packs, and lines with two numbers.
ghost use Rattle.std.specs.Prelude.{◌≡◌, ◌<◌, ◌≤◌, ◌-◌, ◌^◌, Ok, Err, IfOk, IfErr, IfSome, codes, option_and_then};
ghost use Rattle.text_words.specs.Words.{lines_of, number_of};
ghost use Rattle.trace_check.specs.Steps.{next_line, within};
ghost use Rattle.tree_check.specs.Written.{IsWrittenPack};
ghost use Rattle.tree_reader.specs.Packs.{pack_of, number_behind, second_number};

use crate::members::read_members;
use sched_base::NoMemory;
use std::alloc::Global;
use text_words::{after_word, cut_space, first_line, read_number};
use trace_check::BadLine;
use tree_check::Pack;

// The number from `low` to `high` that a word writes.
fn word_within(low: u128, high: u128, word: &[u8]) -> Option<u128>
    requires { high < 2 ^ 128 - 1 }
    ensures value { result ≡ option_and_then (within low high) (number_of word.now) }
    ensures limits { IfSome result (λ n. (low ≤ n) × (n ≤ high)) }
{
    let number = read_number(word)?;
    if number < low || number > high {
        return None;
    }
    Some(number)
}

// The second of two numbers, where the first is k.
fn number_behind(k: u128, low: u128, high: u128, first: &[u8], second: &[u8]) -> Option<u128>
    requires first { k < 2 ^ 128 - 1 }
    requires second { high < 2 ^ 128 - 1 }
    ensures value { result ≡ number_behind k low high (first.now, second.now) }
    ensures limits { IfSome result (λ n. (low ≤ n) × (n ≤ high)) }
{
    if read_number(first)? != k {
        return None;
    }
    word_within(low, high, second)
}

fn second_number(word: &[u8], k: u128, low: u128, high: u128, line: &[u8]) -> Option<u128>
    requires first { k < 2 ^ 128 - 1 }
    requires second { high < 2 ^ 128 - 1 }
    ensures value { result ≡ second_number word.now k low high line.now }
    ensures limits { IfSome result (λ n. (low ≤ n) × (n ≤ high)) }
{
    let (first, second) = cut_space(after_word(word, line)?)?;
    number_behind(k, low, high, first, second)
}

/// The second number, from `low` to `high`, of the next line, which begins with the word and the number k, and the lines
/// that follow.
pub(crate) fn next_second<'a>(
    text: &'a [u8],
    line: u64,
    word: &[u8],
    k: u128,
    low: u128,
    high: u128,
) -> Result<(u128, &'a [u8]), BadLine>
    requires first { k < 2 ^ 128 - 1 }
    requires second { high < 2 ^ 128 - 1 }
    ensures read { IfOk result (λ p. next_line line (second_number word.now k low high) (lines_of text.now) ≡ Ok (p.0, lines_of p.1.now)) }
    ensures fault { IfErr result (λ bad. next_line line (second_number word.now k low high) (lines_of text.now) ≡ Err bad.line) }
    ensures limits { IfOk result (λ p. (low ≤ p.0) × (p.0 ≤ high)) }
{
    if text.is_empty() {
        return Err(BadLine { line });
    }
    let (first, rest) = first_line(text);
    match second_number(word, k, low, high, first) {
        Some(number) => Ok((number, rest)),
        None => Err(BadLine { line }),
    }
}

/// The line of the number of packs of a level.
pub(crate) fn level_size(level: usize, line: &[u8]) -> Option<u32>
    ensures value { result ≡ second_number (codes "level") level 1 1280 line.now }
    ensures limits { IfSome result (λ n. (1 ≤ n) × (n ≤ 1280)) }
{
    let size = second_number(b"level", level as u128, 1, 1_280, line)?;
    Some(size as u32)
}

/// The pack that a line of this level writes, or None where the line is no pack.
pub(crate) fn read_pack(
    alloc: Global,
    scale: u128,
    level: usize,
    line: &[u8],
) -> Result<Option<Pack>, NoMemory>
    requires { scale < 2 ^ 128 - 1 }
    ensures value { IfOk result (λ pack. pack ≡ pack_of scale level line.now) }
    ensures lawful { IfOk result (λ pack. IfSome pack (IsWrittenPack scale level)) }
{
    let rest = match after_word(b"pack", line) {
        Some(rest) => rest,
        None => return Ok(None),
    };
    let (rate, words) = match cut_space(rest) {
        Some(parts) => parts,
        None => return Ok(None),
    };
    let rate = match word_within(0, scale, rate) {
        Some(rate) => rate,
        None => return Ok(None),
    };
    match read_members(alloc, level, words)? {
        Some(members) => Ok(Some(Pack::new(rate, members))),
        None => Ok(None),
    }
}
