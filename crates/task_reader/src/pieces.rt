//! The pieces of a text that holds several sets.
ghost use Rattle.std.specs.Prelude.{ℕ, List, ◌+◌, ◌≡◌, ◌≤◌, ◌<◌, ◌^◌, ◌++◌, ◌∷◌, [], true, length, map};
ghost use Rattle.std.specs.Prelude.{slice_get, Some, IfOk};
ghost use Rattle.std.specs.List.{All, AllByRecursion, filter};
ghost use Rattle.sched_base.specs.Limits.{set_limit};
ghost use Rattle.task_reader.specs.Pieces.{full_lines_of, divides, pieces_of, bytes_in, IsWithin, joined, ends_line, IsOnePiece};

use sched_base::NoMemory;
use std::alloc::Global;
use std::marker::Model;

/// The pieces of a text, in order, each by its start and its end.
pub struct Pieces {
    spans: Vec<(usize, usize)>,
}

impl Drop for Pieces {
    fn drop(self) {
        let Self { spans: _spans } = self;
    }
}

impl Model for Pieces {
    ghost use Rattle.std.specs.Prelude.{ℕ, ◌<◌, ◌^◌, List, length};

    ghost Value = { List (ℕ × ℕ) };

    ghost view = { λ p. p.spans.items };

    ghost invariant = { λ p. length p.spans.items < 2 ^ 32 };
}

impl Pieces {
    /// How many there are, one at least.
    pub fn count(&self) -> u32
        ensures { result ≡ length self.now }
    {
        self.spans.len() as u32
    }

    /// The start and the end of piece j.
    pub fn piece(&self, j: u32) -> (usize, usize)
        requires { j < length self.now }
        ensures { slice_get self.now j ≡ Some result }
    {
        self.spans[j as usize]
    }

    /// All pieces, in order.
    pub fn as_slice(&self) -> &[(usize, usize)]
        ensures all { result.now ≡ self.now }
        ensures few { length result.now < 2 ^ 32 }
    {
        self.spans.as_slice()
    }
}

/// Cuts a text at its lines that are exactly `%%`. The last one may lack its line feed.
pub fn cut(alloc: Global, bytes: &[u8]) -> Result<Pieces, NoMemory>
    requires { length bytes.now ≤ set_limit }
    ensures each { IfOk result (λ p. map (bytes_in bytes.now) p ≡ pieces_of bytes.now) }
    ensures within { IfOk result (All (IsWithin bytes.now)) }
{
    let mut spans = Vec::new(alloc);
    let mut start = 0;
    let mut rest = bytes;
    while !rest.is_empty() {
        let (line, after) = first_line(rest);
        if divides(line) {
            spans.push((start, bytes.len() - rest.len()))?;
            start = bytes.len() - after.len();
        }
        rest = after;
    }
    spans.push((start, bytes.len()))?;
    Ok(Pieces { spans })
}

/// The first line with its line feed, and what follows it.
fn first_line(text: &[u8]) -> (&[u8], &[u8])
    requires { 0 < length text.now }
    ensures parts { text.now ≡ result.0.now ++ result.1.now }
    ensures some { 0 < length result.0.now }
    ensures line { full_lines_of text.now ≡ result.0.now ∷ full_lines_of result.1.now }
{
    for (i, b) in text.iter().enumerate() {
        if *b == b'\n' {
            return text.split_at(i + 1);
        }
    }
    text.split_at(text.len())
}

fn divides(line: &[u8]) -> bool
    ensures { result ≡ divides line.now }
{
    line == b"%%".as_slice() || line == b"%%\n".as_slice()
}

/// A text with n dividing lines has n + 1 pieces. Texts of whole lines of which none divides, with a dividing line between
/// each two, are cut into these texts again. This runs nothing: its clauses are the law.
pub fn pieces_law()
    ensures count { (bytes : List ℕ) → length (pieces_of bytes) ≡ length (filter divides (full_lines_of bytes)) + 1 }
    ensures again { (texts : List (List ℕ)) (last : List ℕ) → AllByRecursion (λ text. IsOnePiece text × (ends_line text ≡ true)) texts →
        IsOnePiece last
        → pieces_of (joined texts last) ≡ texts ++ last ∷ [] }
{}
