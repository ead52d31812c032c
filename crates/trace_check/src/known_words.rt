//! Words that stand in line after line: their bytes are compared, so that no number is read twice.
ghost use Rattle.std.specs.Prelude.{ℕ, ◌≡◌, ◌+◌, ◌≤◌, ◌<◌, [], ◌∷◌, ◌++◌, codes, length, take, slice_index, IsTrue, IfSome};
ghost use Rattle.sched_base.specs.Bytes.{space};
ghost use Rattle.text_words.specs.Words.{BeginsWith};
ghost use Rattle.trace_check.specs.KnownWords.{IsSpaced, IsRowFront, BeginsRowOf};

use text_words::{cut_number, cut_short_number};

/// A word with the space behind it, and the number that it writes.
#[derive(Clone, Copy)]
pub(crate) struct KnownWord<'a> {
    pub word: &'a [u8],
    pub number: u128,
    ghost known: { IsSpaced number word.now },
}

/// A word with the space behind it, and the number of 64 bits that it writes.
#[derive(Clone, Copy)]
pub(crate) struct ShortWord<'a> {
    pub word: &'a [u8],
    pub number: u64,
    ghost known: { IsSpaced number word.now },
}

/// The front of a row line up to its start: the word `row` and its processor, with the spaces behind them.
#[derive(Clone, Copy)]
pub(crate) struct KnownFront<'a> {
    pub front: &'a [u8],
    pub processor: u128,
    ghost known: { IsRowFront processor front.now },
}

/// The front of a row line, of a processor of 32 bits.
#[derive(Clone, Copy)]
pub(crate) struct ShortFront<'a> {
    pub front: KnownFront<'a>,
    pub processor: u32,
    ghost same: { front.processor ≡ processor },
}

/// The words of a row line that most often stand in the next one too: its front, and its end, as the next start.
#[derive(Clone, Copy)]
pub(crate) struct LastWords<'a> {
    pub front: KnownFront<'a>,
    pub end: KnownWord<'a>,
}

impl<'a> LastWords<'a> {
    /// Those of no line.
    pub fn none() -> LastWords<'a> {
        LastWords {
            front: KnownFront {
                front: b"row 0 ",
                processor: 0,
            },
            end: KnownWord {
                word: b"0 ",
                number: 0,
            },
        }
    }
}

// Whether both have the same eight bytes from this place on.
#[inline(always)]
fn are_same_eight(text: &[u8], word: &[u8], at: usize) -> bool
    requires within { at + 8 ≤ length word.now }
    requires fits { length word.now ≤ length text.now }
    ensures { IsTrue result → (k : ℕ) → k < 8 → slice_index text.now (at + k) ≡ slice_index word.now (at + k) }
{
    (text[at] == word[at])
        & (text[at + 1] == word[at + 1])
        & (text[at + 2] == word[at + 2])
        & (text[at + 3] == word[at + 3])
        & (text[at + 4] == word[at + 4])
        & (text[at + 5] == word[at + 5])
        & (text[at + 6] == word[at + 6])
        & (text[at + 7] == word[at + 7])
}

// Whether both have the same four bytes from this place on.
#[inline(always)]
fn are_same_four(text: &[u8], word: &[u8], at: usize) -> bool
    requires within { at + 4 ≤ length word.now }
    requires fits { length word.now ≤ length text.now }
    ensures { IsTrue result → (k : ℕ) → k < 4 → slice_index text.now (at + k) ≡ slice_index word.now (at + k) }
{
    (text[at] == word[at])
        & (text[at + 1] == word[at + 1])
        & (text[at + 2] == word[at + 2])
        & (text[at + 3] == word[at + 3])
}

// Whether the text begins with a word of four to eight bytes. The last four may overlap those before them.
#[inline(always)]
fn begins_with_some(text: &[u8], word: &[u8]) -> bool
    requires some { 4 ≤ length word.now }
    requires most { length word.now ≤ 8 }
    requires fits { length word.now ≤ length text.now }
    ensures { IsTrue result → (k : ℕ) → k < length word.now → slice_index text.now k ≡ slice_index word.now k }
{
    are_same_four(text, word, 0) && are_same_four(text, word, word.len() - 4)
}

// Whether the text begins with a word of less than four bytes.
#[inline(always)]
fn begins_with_few(text: &[u8], word: &[u8]) -> bool
    requires fits { length word.now ≤ length text.now }
    ensures { IsTrue result → (k : ℕ) → k < length word.now → slice_index text.now k ≡ slice_index word.now k }
{
    for at in 0..word.len() {
        if text[at] != word[at] {
            return false;
        }
    }
    true
}

// Whether the text begins with a word of eight to sixteen bytes. The last eight may overlap those before them.
#[inline(always)]
fn begins_with_sixteen(text: &[u8], word: &[u8]) -> bool
    requires many { 8 ≤ length word.now }
    requires most { length word.now ≤ 16 }
    requires fits { length word.now ≤ length text.now }
    ensures { IsTrue result → (k : ℕ) → k < length word.now → slice_index text.now k ≡ slice_index word.now k }
{
    are_same_eight(text, word, 0) && are_same_eight(text, word, word.len() - 8)
}

// Whether the text begins with a word of at least eight bytes. The last eight may overlap those before them.
#[inline(always)]
fn begins_with_many(text: &[u8], word: &[u8]) -> bool
    requires many { 8 ≤ length word.now }
    requires fits { length word.now ≤ length text.now }
    ensures { IsTrue result → (k : ℕ) → k < length word.now → slice_index text.now k ≡ slice_index word.now k }
{
    let last = word.len() - 8;
    let mut at = 0;
    while at < last {
        if !are_same_eight(text, word, at) {
            return false;
        }
        at += 8;
    }
    are_same_eight(text, word, last)
}

/// Whether the text begins with the word.
#[inline(always)]
pub(crate) fn begins_with(text: &[u8], word: &[u8]) -> bool
    ensures within { IsTrue result → length word.now ≤ length text.now }
    ensures same { IsTrue result → take (length word.now) text.now ≡ word.now }
{
    if text.len() < word.len() {
        return false;
    }
    if word.len() < 4 {
        return begins_with_few(text, word);
    }
    if word.len() < 8 {
        return begins_with_some(text, word);
    }
    if word.len() <= 16 {
        return begins_with_sixteen(text, word);
    }
    begins_with_many(text, word)
}

/// What follows the word, where the text begins with it.
#[inline(always)]
pub(crate) fn after_known<'a>(text: &'a [u8], word: &[u8]) -> Option<&'a [u8]>
    ensures { IfSome result (λ rest. text.now ≡ word.now ++ rest.now) }
{
    if begins_with(text, word) {
        Some(&text[word.len()..])
    } else {
        None
    }
}

/// What follows the word `row` and a space.
#[inline(always)]
pub(crate) fn after_row(text: &[u8]) -> Option<&[u8]>
    ensures { IfSome result (λ rest. text.now ≡ codes "row" ++ space ∷ rest.now) }
{
    after_known(text, b"row ")
}

impl<'a> KnownWord<'a> {
    /// What follows the word, where the text begins with it.
    #[inline(always)]
    pub fn cut<'b>(&self, text: &'b [u8]) -> Option<&'b [u8]>
        ensures { IfSome result (λ rest. BeginsWith self.now.number text.now rest.now) }
    {
        after_known(text, self.word)
    }

    /// The word, where its number has 64 bits.
    pub fn short(&self) -> Option<ShortWord<'a>>
        ensures { IfSome result (λ w. w.number ≡ self.now.number) }
    {
        let number = narrow(self.number)?;
        Some(ShortWord {
            word: self.word,
            number,
        })
    }
}

impl<'a> ShortWord<'a> {
    /// What follows the word, where the text begins with it.
    #[inline(always)]
    pub fn cut<'b>(&self, text: &'b [u8]) -> Option<&'b [u8]>
        ensures { IfSome result (λ rest. BeginsWith self.now.number text.now rest.now) }
    {
        after_known(text, self.word)
    }

    /// The word, of a number of any size.
    pub fn wide(&self) -> KnownWord<'a>
        ensures { result.number ≡ self.now.number }
    {
        KnownWord {
            word: self.word,
            number: u128::from(self.number),
        }
    }
}

impl<'a> KnownFront<'a> {
    /// What follows the front, where the text begins with it.
    #[inline(always)]
    pub fn cut<'b>(&self, text: &'b [u8]) -> Option<&'b [u8]>
        ensures { IfSome result (λ rest. BeginsRowOf self.now.processor text.now rest.now) }
    {
        after_known(text, self.front)
    }

    /// The front, where its processor has 32 bits.
    pub fn short(&self) -> Option<ShortFront<'a>>
        ensures { IfSome result (λ f. f.processor ≡ self.now.processor) }
    {
        if self.processor > u128::from(u32::MAX) {
            return None;
        }
        Some(ShortFront {
            front: *self,
            processor: self.processor as u32,
        })
    }
}

/// The number in 64 bits, where it has no more.
#[inline(always)]
fn narrow(number: u128) -> Option<u64>
    ensures { IfSome result (λ n. n ≡ number) }
{
    if number <= u128::from(u64::MAX) {
        Some(number as u64)
    } else {
        None
    }
}

/// The front of a row line, and what follows it, if the processor has at most 38 digits.
#[inline(always)]
pub(crate) fn cut_front<'a>(text: &'a [u8]) -> Option<(KnownFront<'a>, &'a [u8])>
    ensures { IfSome result (λ p. BeginsRowOf p.0.processor text.now p.1.now) }
{
    let rest = after_row(text)?;
    let (processor, rest) = cut_number(rest)?;
    let front = &text[..text.len() - rest.len()];
    Some((KnownFront { front, processor }, rest))
}

/// The number at the front of a text with its word, and what follows, if they are there and the number has at most 38 digits.
#[inline(always)]
pub(crate) fn cut_word<'a>(text: &'a [u8]) -> Option<(KnownWord<'a>, &'a [u8])>
    ensures { IfSome result (λ p. BeginsWith p.0.number text.now p.1.now) }
{
    let (number, rest) = cut_number(text)?;
    let word = &text[..text.len() - rest.len()];
    Some((KnownWord { word, number }, rest))
}

/// The number at the front of a text with its word, and what follows, if they are there and the number has at most 18 digits.
#[inline(always)]
pub(crate) fn cut_short<'a>(text: &'a [u8]) -> Option<(ShortWord<'a>, &'a [u8])>
    ensures { IfSome result (λ p. BeginsWith p.0.number text.now p.1.now) }
{
    let (number, rest) = cut_short_number(text)?;
    let word = &text[..text.len() - rest.len()];
    Some((ShortWord { word, number }, rest))
}
