//! Lines that go out together.
ghost use Rattle.std.specs.Prelude.{◌≡◌, ◌≤◌, ◌<◌, ◌+◌, ◌++◌, ◌∷◌, [], codes, length, decimal};
ghost use Rattle.sched_base.specs.Bytes.{line_feed, space};

use crate::digits::put_name;
use crate::pens::{Count, Lead};
use std::marker::Model;

/// The most bytes of a page.
const ROOM: usize = 4096;

/// A page with more bytes than these may have no room for another line.
pub(crate) const FULL: usize = 3840;

/// Lines that aren't handed on yet, of at most 4096 bytes. It is seen as these bytes.
#[derive(Drop)]
pub(crate) struct Page {
    bytes: [u8; ROOM],
    len: usize,
}

impl Model for Page {
    ghost use Rattle.std.specs.Prelude.{ℕ, List, ◌≤◌, take};

    ghost Value = { List ℕ };

    ghost view = { λ p. take p.len p.bytes };

    ghost invariant = { λ p. p.len ≤ 4096 };
}

impl Page {
    /// No bytes yet.
    pub(crate) fn new() -> Page
        ensures { result ≡ [] }
    {
        Page {
            bytes: [0; ROOM],
            len: 0,
        }
    }

    /// The bytes.
    pub(crate) fn as_slice(&self) -> &[u8]
        ensures { result.now ≡ self.now }
    {
        &self.bytes[..self.len]
    }

    /// How many bytes there are.
    pub(crate) fn len(&self) -> usize
        ensures { result ≡ length self.now }
    {
        self.len
    }

    /// No bytes again.
    pub(crate) fn clear(&mut self)
        ensures { self.new ≡ [] }
    {
        self.len = 0;
    }

    /// Adds a text.
    #[inline(always)]
    pub(crate) fn text(&mut self, text: &[u8])
        requires { length self.old + length text.now ≤ 4096 }
        ensures { self.new ≡ self.old ++ text.now }
    {
        let end = self.len + text.len();
        self.bytes[self.len..end].copy_from_slice(text);
        self.len = end;
    }

    /// Adds a text of at most 32 bytes.
    #[inline(always)]
    pub(crate) fn put_name(&mut self, name: &[u8])
        requires { length self.old + length name.now ≤ 4096 }
        ensures { self.new ≡ self.old ++ name.now }
    {
        self.len = put_name(&mut self.bytes, self.len, name);
    }

    /// Adds a number whose digits are kept.
    #[inline(always)]
    pub(crate) fn count(&mut self, count: &Count)
        requires { length self.old + 48 ≤ 4096 }
        ensures text { self.new ≡ self.old ++ decimal count.now }
        ensures short { length self.new ≤ length self.old + 40 }
    {
        self.len = count.put(&mut self.bytes, self.len);
    }

    /// Adds such a number and a space.
    #[inline(always)]
    pub(crate) fn word(&mut self, count: &Count)
        requires { length self.old + 48 ≤ 4096 }
        ensures text { self.new ≡ self.old ++ (decimal count.now ++ space ∷ []) }
        ensures short { length self.new ≤ length self.old + 41 }
    {
        self.len = count.put_word(&mut self.bytes, self.len);
    }

    /// Adds a row's line up to its start, with the space behind it.
    #[inline(always)]
    pub(crate) fn begin_row(&mut self, lead: &Lead, start: &Count)
        requires { length self.old + 64 ≤ 4096 }
        ensures text { self.new ≡ self.old ++ ((codes "row " ++ (decimal lead.now ++ space ∷ [])) ++ (decimal start.now ++ space ∷ [])) }
        ensures short { length self.new ≤ length self.old + 57 }
    {
        let at = lead.put(&mut self.bytes, self.len);
        self.len = start.put_word(&mut self.bytes, at);
    }

    /// Adds the rest of a row's line, from its end on.
    #[inline(always)]
    pub(crate) fn end_row(&mut self, end: &Count, name: &[u8])
        requires { length self.old + length name.now + 48 ≤ 4096 }
        ensures { self.new ≡ self.old ++ ((decimal end.now ++ space ∷ []) ++ (name.now ++ line_feed ∷ [])) }
    {
        let at = end.put_word(&mut self.bytes, self.len);
        let feed = put_name(&mut self.bytes, at, name);
        self.bytes[feed] = b'\n';
        self.len = feed + 1;
    }

    /// Adds the space between two words.
    #[inline(always)]
    pub(crate) fn space(&mut self)
        requires { length self.old < 4096 }
        ensures { self.new ≡ self.old ++ space ∷ [] }
    {
        self.text(b" ");
    }

    /// Adds the line feed.
    #[inline(always)]
    pub(crate) fn end(&mut self)
        requires { length self.old < 4096 }
        ensures { self.new ≡ self.old ++ line_feed ∷ [] }
    {
        self.text(b"\n");
    }
}
