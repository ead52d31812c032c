//! The lines of the idle leaves.
ghost use Rattle.std.specs.Prelude.{◌≡◌, ◌≤◌, ◌^◌, [], length, Ok, IfOk, IfErr};
ghost use Rattle.std.specs.List.{AllByRecursion};
ghost use Rattle.text_words.specs.Words.{lines_of};
ghost use Rattle.tree_reader.specs.Reading.{idles_from};
ghost use Rattle.trace_check.specs.Faults.{NamesBadLine};

use crate::packs::next_second;
use std::alloc::Global;
use trace_check::TraceFault;

/// Reads the rates of so many idle leaves, the first of which stands on line `first`, and gives the lines that follow.
pub(crate) fn read_idles<'a>(
    alloc: Global,
    scale: u128,
    count: u32,
    first: u64,
    text: &'a [u8],
) -> Result<(Vec<u128>, &'a [u8]), TraceFault>
    requires scale { scale ≤ 2 ^ 94 }
    requires count { count ≤ 1024 }
    requires first { first ≤ 300 }
    ensures read { IfOk result (λ p. idles_from first scale count [] (lines_of text.now) ≡ Ok (p.0.items, lines_of p.1.now)) }
    ensures count { IfOk result (λ p. length p.0.items ≡ count) }
    ensures each { IfOk result (λ p. AllByRecursion (λ r. (1 ≤ r) × (r ≤ scale)) p.0.items) }
    ensures fault { IfErr result (NamesBadLine (idles_from first scale count [] (lines_of text.now))) }
{
    let mut idles = Vec::new(alloc);
    let mut rest = text;
    for k in 0..count {
        let at = first + u64::from(k);
        let number = u128::from(k);
        let (rate, later) = next_second(rest, at, b"idle", number, 1, scale)?;
        idles.push(rate)?;
        rest = later;
    }
    Ok((idles, rest))
}
