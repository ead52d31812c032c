//! The members of a pack line.
ghost use Rattle.std.specs.Prelude.{◌≡◌, IfOk, option_map};
ghost use Rattle.tree_reader.specs.Members.{words_of, member_number, leaf_member, dual_member, member_of, members_from};

use sched_base::{Name, NoMemory, lawful_name};
use std::alloc::Global;
use text_words::{cut_space, read_number};
use tree_check::Member;

fn member_number(word: &[u8]) -> Option<Member>
    ensures { result ≡ member_number word.now }
{
    let number = read_number(word)?;
    if number > u128::from(u32::MAX) {
        return None;
    }
    Some(Member::Number(number as u32))
}

fn leaf_member(word: &[u8]) -> Option<Member>
    ensures { result ≡ leaf_member word.now }
{
    match word.split_first() {
        Some((first, number)) if *first == b'-' => member_number(number),
        Some(_) if lawful_name(word) => Some(Member::Name(Name::new(word))),
        _ => None,
    }
}

fn dual_member(word: &[u8]) -> Option<Member>
    ensures { result ≡ dual_member word.now }
{
    match word.split_first() {
        Some((first, number)) if *first == b'~' => member_number(number),
        _ => None,
    }
}

fn member_of(level: usize, word: &[u8]) -> Option<Member>
    ensures { result ≡ member_of level word.now }
{
    if level == 0 {
        leaf_member(word)
    } else {
        dual_member(word)
    }
}

/// The members that the words of a text of this level write, in order, or None where a word is no member.
pub(crate) fn read_members(
    alloc: Global,
    level: usize,
    text: &[u8],
) -> Result<Option<Vec<Member>>, NoMemory>
    ensures { IfOk result (λ found. option_map (λ v. v.items) found ≡ members_from level (words_of text.now)) }
{
    let mut members = Vec::new(alloc);
    let mut rest = text;
    while let Some((word, later)) = cut_space(rest) {
        match member_of(level, word) {
            Some(member) => members.push(member)?,
            None => return Ok(None),
        }
        rest = later;
    }
    match member_of(level, rest) {
        Some(member) => members.push(member)?,
        None => return Ok(None),
    }
    Ok(Some(members))
}
