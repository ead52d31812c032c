//! The window.
ghost use Rattle.std.specs.Prelude.{ℕ, ◌≡◌, ◌≤◌, ◌<◌, ◌+◌, ◌^◌, List, [], ◌∷◌, ◌++◌, drop, length, IfOk, IfErr, OnOk, true, false};
ghost use Rattle.sched_base.specs.Bytes.{line_feed};
ghost use Rattle.std.specs.Io.KnownBytes.{IsAtEnd};
ghost use Rattle.text_words.specs.Words.{lines_of};
ghost use Rattle.text_window.specs.Lines.{EndsLine};
ghost use Rattle.text_window.specs.Windows.{Fills, GaveRest, StopsFilling};

use sched_edges::{Source, TakeFault, empty_piece, read_piece};
use std::alloc::{AllocError, Global};
use std::marker::Model;

/// The bytes of a source that were read and that nobody has gone past yet.
#[derive(Drop)]
pub struct Window {
    alloc: Global,
    bytes: Vec<u8>,
    count: usize,
    limit: usize,
}

impl Model for Window {
    ghost use Rattle.text_window.specs.Windows.{WindowHeld};

    ghost Value = { WindowHeld };

    ghost view = { λ w. record { ahead = w.bytes.items; count = w.count; limit = w.limit } };
}

// Moves what follows the first bytes to the front.
fn remove_front(bytes: &mut Vec<u8>, count: usize)
    requires { count ≤ length bytes.old.items }
    ensures { bytes.new.items ≡ drop count bytes.old.items }
{
    let len = bytes.len();
    bytes.as_mut_slice().copy_within(count..len, 0);
    bytes.truncate(len - count);
}

// Whether there is a last line that has no line feed.
fn lacks_feed(text: &[u8]) -> bool
    ensures ended { result ≡ false → EndsLine text.now }
    ensures other { result ≡ true → lines_of (text.now ++ line_feed ∷ []) ≡ lines_of text.now }
{
    match text.split_last() {
        Some((last, _)) => *last != b'\n',
        None => false,
    }
}

impl Window {
    ghost use Rattle.std.specs.Prelude.{[]};
    ghost use Rattle.text_window.specs.Windows.{WindowHeld};

    /// A window at the front of a source, of which at most so many bytes are taken.
    pub fn new(alloc: Global, limit: usize) -> Window
        ensures { result ≡ record { ahead = []; count = 0; limit = limit } }
    {
        Window {
            alloc,
            bytes: Vec::new(alloc),
            count: 0,
            limit,
        }
    }

    /// The bytes that were read and not yet gone past.
    pub fn ahead(&self) -> &[u8]
        ensures { result.now ≡ self.now.ahead }
    {
        self.bytes.as_slice()
    }

    /// Goes past the first bytes.
    pub fn pass(&mut self, count: usize)
        requires { count ≤ length self.old.ahead }
        ensures ahead { self.new.ahead ≡ drop count self.old.ahead }
        ensures count { self.new.count ≡ self.old.count }
        ensures limit { self.new.limit ≡ self.old.limit }
    {
        remove_front(&mut self.bytes, count);
    }

    // Reads once. It is false where the source is at its end.
    fn read_on<R: Source>(&mut self, source: &mut R) -> Result<bool, TakeFault>
        requires within { self.old.count ≤ self.old.limit }
        requires small { self.old.limit < 2 ^ 63 }
        ensures fills { IfOk result (λ _. Fills (R.left source.old) (R.left source.new) self.old self.new) }
        ensures more { IfOk result (λ some. some ≡ true → self.old.count < self.new.count) }
        ensures end { IfOk result (λ some. some ≡ false → IsAtEnd (R.left source.new)) }
        ensures stops { IfErr result (StopsFilling (R.left source.old) (R.left source.new) (R.faults source.old) (R.faults source.new) self.old) }
        ensures later { R.faults source.old ≤ R.faults source.new }
    {
        let mut piece = empty_piece(self.alloc)?;
        let want = (self.limit - self.count).min(piece.len() - 1) + 1;
        let count = read_piece(source, &mut piece[..want], &mut self.bytes)?;
        self.count += count;
        if self.count > self.limit {
            return Err(TakeFault::TooLong {
                count: self.count as u64,
            });
        }
        Ok(count > 0)
    }

    /// Reads on until at least so many bytes are ahead or the source is at its end: then it is false. It never takes more than
    /// one byte past the limit.
    pub fn fill<R: Source>(&mut self, source: &mut R, least: usize) -> Result<bool, TakeFault>
        requires within { self.old.count ≤ self.old.limit }
        requires small { self.old.limit < 2 ^ 63 }
        ensures fills { IfOk result (λ _. Fills (R.left source.old) (R.left source.new) self.old self.new) }
        ensures more { IfOk result (λ goes_on. goes_on ≡ true → least ≤ length self.new.ahead) }
        ensures end { IfOk result (λ goes_on. goes_on ≡ false → IsAtEnd (R.left source.new)) }
        ensures stops { IfErr result (StopsFilling (R.left source.old) (R.left source.new) (R.faults source.old) (R.faults source.new) self.old) }
        ensures later { R.faults source.old ≤ R.faults source.new }
    {
        while self.bytes.len() < least {
            if !self.read_on(source)? {
                return Ok(false);
            }
        }
        Ok(true)
    }

    /// Reads the source to its end, and never more than one byte past the limit.
    pub fn fill_all<R: Source>(&mut self, source: &mut R) -> Result<(), TakeFault>
        requires within { self.old.count ≤ self.old.limit }
        requires small { self.old.limit < 2 ^ 63 }
        ensures fills { OnOk result (Fills (R.left source.old) (R.left source.new) self.old self.new) }
        ensures end { OnOk result (IsAtEnd (R.left source.new)) }
        ensures stops { IfErr result (StopsFilling (R.left source.old) (R.left source.new) (R.faults source.old) (R.faults source.new) self.old) }
        ensures later { R.faults source.old ≤ R.faults source.new }
    {
        while self.read_on(source)? {}
        Ok(())
    }

    /// Goes past all that is ahead, and reads the source to its end, and never more than one byte past the limit.
    pub fn skip_all<R: Source>(&mut self, source: &mut R) -> Result<(), TakeFault>
        requires within { self.old.count ≤ self.old.limit }
        requires small { self.old.limit < 2 ^ 63 }
        ensures rest { OnOk result ((more : List ℕ) × GaveRest (R.left source.old) (R.left source.new) self.old more
            × (self.new.count ≡ self.old.count + length more)) }
        ensures limit { OnOk result (self.new.limit ≡ self.old.limit) }
        ensures stops { IfErr result (StopsFilling (R.left source.old) (R.left source.new) (R.faults source.old) (R.faults source.new) self.old) }
        ensures later { R.faults source.old ≤ R.faults source.new }
    {
        loop {
            let count = self.bytes.len();
            self.pass(count);
            if !self.read_on(source)? {
                return Ok(());
            }
        }
    }

    /// Gives the last line of a source that is at its end its line feed, where it has none.
    pub fn end_line(&mut self) -> Result<(), AllocError>
        ensures lines { OnOk result (lines_of self.new.ahead ≡ lines_of self.old.ahead) }
        ensures ended { OnOk result (EndsLine self.new.ahead) }
        ensures kept { OnOk result ((feed : List ℕ) × (self.new.ahead ≡ self.old.ahead ++ feed)) }
        ensures count { self.new.count ≡ self.old.count }
        ensures limit { self.new.limit ≡ self.old.limit }
    {
        if !lacks_feed(&self.bytes) {
            return Ok(());
        }
        self.bytes.extend_from_slice(b"\n")?;
        Ok(())
    }
}
