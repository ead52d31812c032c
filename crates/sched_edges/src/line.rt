//! One line of a text, made without memory.
ghost use Rattle.std.specs.Prelude.{◌≡◌, ◌≤◌, ◌<◌, ◌+◌, ◌++◌, ◌∷◌, [], length, decimal};
ghost use Rattle.std.specs.Fmt.{signed_decimal};
ghost use Rattle.sched_base.specs.Bytes.{line_feed, space};
ghost use Rattle.sched_edges.specs.Lines.{word_line, number_line, numbers_line, named_line};

use itoa::{Buffer, Integer};
use std::marker::Model;

/// The most bytes of a line.
const ROOM: usize = 256;

/// A line, or the beginning of one, of at most 256 bytes. It is seen as these bytes.
#[derive(Drop)]
pub struct Line {
    bytes: [u8; ROOM],
    len: usize,
}

impl Model for Line {
    ghost use Rattle.std.specs.Prelude.{ℕ, List, ◌≤◌, take};

    ghost Value = { List ℕ };

    ghost view = { λ l. take l.len l.bytes };

    ghost invariant = { λ l. l.len ≤ 256 };
}

impl Line {
    /// No bytes yet.
    pub fn new() -> Line
        ensures { result ≡ [] }
    {
        Line {
            bytes: [0; ROOM],
            len: 0,
        }
    }

    /// The bytes.
    pub fn as_slice(&self) -> &[u8]
        ensures bytes { result.now ≡ self.now }
        ensures fits { length result.now ≤ 256 }
    {
        &self.bytes[..self.len]
    }

    /// Adds a text.
    pub fn text(&mut self, text: &[u8])
        requires { length self.old + length text.now ≤ 256 }
        ensures { self.new ≡ self.old ++ text.now }
    {
        let end = self.len + text.len();
        self.bytes[self.len..end].copy_from_slice(text);
        self.len = end;
    }

    // Adds what prints an integer.
    fn integer<I: Integer>(&mut self, integer: I)
        requires { length self.old ≤ 216 }
        ensures text { self.new ≡ self.old ++ I.text integer }
        ensures short { length self.new ≤ length self.old + 40 }
    {
        let mut buffer = Buffer::new();
        self.text(buffer.format(integer).as_bytes());
    }

    /// Adds a number, in decimal digits.
    pub fn number(&mut self, number: u128)
        requires { length self.old ≤ 216 }
        ensures text { self.new ≡ self.old ++ decimal number }
        ensures short { length self.new ≤ length self.old + 40 }
    {
        self.integer(number);
    }

    /// Adds a number that may be below 0, in decimal digits, with a `-` before them where it is.
    pub fn signed(&mut self, number: i64)
        requires { length self.old ≤ 216 }
        ensures text { self.new ≡ self.old ++ signed_decimal number }
        ensures short { length self.new ≤ length self.old + 40 }
    {
        self.integer(number);
    }

    /// Adds the space between two words.
    pub fn space(&mut self)
        requires { length self.old < 256 }
        ensures { self.new ≡ self.old ++ space ∷ [] }
    {
        self.text(b" ");
    }

    /// Adds the line feed.
    pub fn end(&mut self)
        requires { length self.old < 256 }
        ensures { self.new ≡ self.old ++ line_feed ∷ [] }
    {
        self.text(b"\n");
    }
}

/// A line of one word.
#[tactic(auto, unfolding(crate::specs::Lines::word_line, crate::specs::Lines::line_of))]
pub fn word_line(word: &[u8]) -> Line
    requires { length word.now ≤ 128 }
    ensures { result ≡ word_line word.now }
{
    let mut line = Line::new();
    line.text(word);
    line.end();
    line
}

/// A line of a word and a number.
#[tactic(auto, unfolding(crate::specs::Lines::number_line, crate::specs::Lines::line_of))]
pub fn number_line(word: &[u8], number: u128) -> Line
    requires { length word.now ≤ 128 }
    ensures { result ≡ number_line word.now number }
{
    let mut line = Line::new();
    line.text(word);
    line.space();
    line.number(number);
    line.end();
    line
}

/// A line of a word and two numbers.
#[tactic(auto, unfolding(crate::specs::Lines::numbers_line, crate::specs::Lines::line_of))]
pub fn numbers_line(word: &[u8], first: u128, second: u128) -> Line
    requires { length word.now ≤ 128 }
    ensures { result ≡ numbers_line word.now first second }
{
    let mut line = Line::new();
    line.text(word);
    line.space();
    line.number(first);
    line.space();
    line.number(second);
    line.end();
    line
}

/// The begin of a line: a word, a name and a number.
pub fn named_begin(word: &[u8], name: &[u8], number: u128) -> Line
    requires word { length word.now ≤ 128 }
    requires name { length name.now ≤ 64 }
    ensures text { result ≡ word.now ++ (space ∷ (name.now ++ (space ∷ decimal number))) }
    ensures short { length result ≤ length word.now + length name.now + 42 }
{
    let mut line = Line::new();
    line.text(word);
    line.space();
    line.text(name);
    line.space();
    line.number(number);
    line
}

/// A line of a word, a name and a number.
#[tactic(auto, unfolding(crate::specs::Lines::named_line, crate::specs::Lines::line_of))]
pub fn named_line(word: &[u8], name: &[u8], number: u128) -> Line
    requires word { length word.now ≤ 128 }
    requires name { length name.now ≤ 64 }
    ensures { result ≡ named_line word.now name.now number }
{
    let mut line = named_begin(word, name, number);
    line.end();
    line
}
