//! Marks of packs: the next one is found without a look at each.
ghost use Rattle.std.specs.Prelude.{ℕ, ◌≡◌, ◌<◌, ◌≤◌, ◌+◌, ◌*◌, ◌/◌, ◌%◌, ◌^◌, false, true, length, IfOk, replicate, slice_index, slice_index_or};
ghost use Rattle.merged_rounds.specs.Marks.{is_marked};

use sched_base::NoMemory;
use std::alloc::Global;
use std::marker::Model;

/// So many numbers, counted from 0, with marks or without. It is seen as the list that tells this of each.
#[derive(Drop)]
pub(crate) struct Marks {
    // Number k has bit k % 64 of word k / 64.
    words: Vec<u64>,
    count: u32,
}

impl Model for Marks {
    ghost use Rattle.std.specs.Prelude.{List, Bool, ◌<◌, ◌*◌, ◌^◌, length};
    ghost use Rattle.merged_rounds.specs.Marks.{marks_by};

    ghost Value = { List Bool };

    ghost view = { λ m. marks_by m.words.items m.count };

    ghost invariant = { λ m. m.count < length m.words.items * 64 };
}

// Words for so many numbers, and for one more.
fn no_words(alloc: Global, count: u32) -> Result<Vec<u64>, NoMemory>
    ensures { IfOk result (λ v. v.items ≡ replicate (count / 64 + 1) 0) }
{
    Ok(vec![in alloc; 0u64; count as usize / 64 + 1]?)
}

// The marks of number k and of those behind it in its word.
#[inline(always)]
fn rest_at(words: &[u64], k: u64) -> u64
    requires { k < length words.now * 64 }
    ensures value { result ≡ slice_index words.now (k / 64) / 2 ^ (k % 64) }
    ensures fits { result < 2 ^ 64 }
{
    words[(k / 64) as usize] >> (k % 64)
}

// The number behind the word of number k.
#[inline(always)]
fn behind_word(k: u64) -> u64
    requires { k < 2 ^ 32 }
    ensures later { k < result }
    ensures few { result ≤ 2 ^ 33 }
    ensures same { (j : ℕ) → k ≤ j → j < result → j / 64 ≡ k / 64 }
{
    (k / 64 + 1) * 64
}

// The first number from k on that has a mark, given those in its word. The words are only spoken of.
#[inline(always)]
fn first_marked(words: &[u64], k: u64, rest: u64) -> u64
    requires few { k < 2 ^ 32 }
    requires rest { rest ≡ slice_index words.now (k / 64) / 2 ^ (k % 64) }
    requires some { 0 < rest }
    requires fits { rest < 2 ^ 64 }
    ensures after { k ≤ result }
    ensures skipped { (j : ℕ) → k ≤ j → j < result → is_marked words.now j ≡ false }
{
    let _words = words.len();
    behind_word(k).min(k + u64::from(rest.trailing_zeros()))
}

// The first of so many numbers from `from` on that has a mark, or how many they are where none has.
#[inline(always)]
fn next_marked(words: &[u64], count: u32, from: u32) -> u32
    requires room { count < length words.now * 64 }
    requires from { from ≤ count }
    ensures after { from ≤ result }
    ensures within { result ≤ count }
    ensures skipped { (j : ℕ) → from ≤ j → j < result → is_marked words.now j ≡ false }
{
    let mut k = u64::from(from);
    'words: while k < u64::from(count) {
        let rest = rest_at(words, k);
        if rest != 0 {
            return first_marked(words, k, rest).min(u64::from(count)) as u32;
        }
        k = behind_word(k);
    }
    count
}

// Number k gets a mark.
#[inline(always)]
fn set_mark(words: &mut [u64], k: u32)
    requires { k < length words.old * 64 }
    ensures own { is_marked words.new k ≡ true }
    ensures rest { (j : ℕ) → is_marked words.old j ≡ true → is_marked words.new j ≡ true }
{
    words[k as usize / 64] |= 1 << (k % 64);
}

impl Marks {
    /// So many numbers.
    pub(crate) fn new(alloc: Global, count: u32) -> Result<Marks, NoMemory>
        ensures { IfOk result (λ m. length m ≡ count) }
    {
        let words = no_words(alloc, count)?;
        Ok(Marks { words, count })
    }

    /// Forgets the marks.
    pub(crate) fn forget(&mut self)
        ensures { length self.new ≡ length self.old }
    {
        self.words.fill(0);
    }

    /// Number k gets a mark, and no other loses its own.
    #[inline(always)]
    pub(crate) fn mark(&mut self, k: u32)
        requires { k < length self.old }
        ensures long { length self.new ≡ length self.old }
        ensures own { slice_index_or self.new k false ≡ true }
        ensures rest { (j : ℕ) → slice_index_or self.old j false ≡ true → slice_index_or self.new j false ≡ true }
    {
        set_mark(&mut self.words, k);
    }

    /// The first number from `from` on that has a mark, or how many they are where none has.
    #[inline(always)]
    pub(crate) fn next(&self, from: u32) -> u32
        requires { from ≤ length self.now }
        ensures after { from ≤ result }
        ensures within { result ≤ length self.now }
        ensures skipped { (j : ℕ) → from ≤ j → j < result → slice_index_or self.now j false ≡ false }
    {
        next_marked(&self.words, self.count, from)
    }
}
