//! Marks of nodes, in words of bits.
ghost use Rattle.std.specs.Prelude.{ℕ, ◌≡◌, ◌≢◌, ◌<◌, ◌≤◌, ◌+◌, ◌-◌, ◌*◌, ◌/◌, ◌%◌, ◌^◌, false, true, length, replicate, slice_index, slice_set};
ghost use Rattle.std.specs.Prelude.{slice_index_or, IfOk, IfSome, None, Some};
ghost use Rattle.tree_select.specs.Marks.{has_bit, is_marked, IsShown};

use sched_base::{NoMemory, NodeId};
use std::alloc::Global;
use std::marker::Model;

/// How many marks stand in a word.
pub(crate) const WORD: u32 = 64;

/// So many nodes, counted from 0, with marks or without. It is seen as the list that tells this of each.
#[derive(Drop)]
pub struct Marks {
    // Node n has bit n % 64 of word n / 64.
    words: Vec<u64>,
    count: u32,
}

impl Model for Marks {
    ghost use Rattle.std.specs.Prelude.{List, Bool, ◌<◌, ◌*◌, length};
    ghost use Rattle.tree_select.specs.Marks.{marks_by};

    ghost Value = { List Bool };

    ghost view = { λ m. marks_by m.words.items m.count };

    ghost invariant = { λ m. m.count < length m.words.items * 64 };
}

// Words for so many nodes, and for one more, in which all have marks.
fn all_words(alloc: Global, count: u32) -> Result<Vec<u64>, NoMemory>
    ensures { IfOk result (λ v. v.items ≡ replicate (count / 64 + 1) (2 ^ 64 - 1)) }
{
    Ok(vec![in alloc; u64::MAX; (count / WORD) as usize + 1]?)
}

// Node n gets a mark.
#[inline(always)]
fn set_bit(words: &mut [u64], n: u32)
    requires { n < length words.old * 64 }
    ensures own { is_marked words.new n ≡ true }
    ensures rest { (k : ℕ) → k ≢ n → is_marked words.new k ≡ is_marked words.old k }
{
    words[(n / WORD) as usize] |= 1 << (n % WORD);
}

// Node n loses its mark.
#[inline(always)]
fn clear_bit(words: &mut [u64], n: u32)
    requires { n < length words.old * 64 }
    ensures own { is_marked words.new n ≡ false }
    ensures rest { (k : ℕ) → k ≢ n → is_marked words.new k ≡ is_marked words.old k }
{
    words[(n / WORD) as usize] &= !(1 << (n % WORD));
}

// The first node of a word that has a mark, of those that a mask shows.
#[inline(always)]
fn first_bit(words: &[u64], word: u32, mask: u64) -> Option<u32>
    requires word { word < length words.now }
    requires few { word < 2 ^ 26 }
    ensures shown { IfSome result (IsShown word mask) }
    ensures marked { IfSome result (λ n. is_marked words.now n ≡ true) }
    ensures lowest { (n k : ℕ) → result ≡ Some n → IsShown word mask k → k < n → is_marked words.now k ≡ false }
    ensures none { (k : ℕ) → result ≡ None → IsShown word mask k → is_marked words.now k ≡ false }
{
    let found = words[word as usize] & mask;
    if found == 0 {
        None
    } else {
        Some(word * WORD + found.trailing_zeros())
    }
}

impl Marks {
    /// So many nodes, which all have marks.
    pub fn new(alloc: Global, count: u32) -> Result<Marks, NoMemory>
        ensures { IfOk result (λ m. m ≡ replicate count true) }
    {
        let words = all_words(alloc, count)?;
        Ok(Marks { words, count })
    }

    /// Node n gets a mark.
    #[inline(always)]
    pub fn mark(&mut self, n: NodeId)
        requires { n.0 < length self.old }
        ensures { self.new ≡ slice_set self.old n.0 true }
    {
        set_bit(&mut self.words, n.0);
    }

    /// Node n loses its mark.
    #[inline(always)]
    pub fn unmark(&mut self, n: NodeId)
        requires { n.0 < length self.old }
        ensures { self.new ≡ slice_set self.old n.0 false }
    {
        clear_bit(&mut self.words, n.0);
    }

    // The first node that has a mark, of those that a mask shows in a word.
    #[inline(always)]
    pub(crate) fn first_of(&self, word: u32, mask: u64) -> Option<NodeId>
        requires word { word * 64 ≤ length self.now }
        requires within { (k : ℕ) → IsShown word mask k → k < length self.now }
        ensures shown { IfSome result (λ n. IsShown word mask n.0) }
        ensures marked { IfSome result (λ n. slice_index_or self.now n.0 false ≡ true) }
        ensures lowest { IfSome result (λ n. (k : ℕ) → IsShown word mask k → k < n.0 → slice_index_or self.now k false ≡ false) }
        ensures none { result ≡ None → (k : ℕ) → IsShown word mask k → slice_index_or self.now k false ≡ false }
    {
        let _count = self.count;
        match first_bit(&self.words, word, mask) {
            None => None,
            Some(n) => Some(NodeId(n)),
        }
    }
}
