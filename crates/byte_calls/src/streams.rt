//! A source over bytes that are there, and a sink that grows.
ghost use Rattle.std.specs.Prelude.{◌≡◌, ◌<◌, ◌↔◌, IsTrue, [], Some};

use sched_edges::{Failed, Sink, Source};
use std::alloc::Global;

/// A source of these bytes, which never fails.
#[derive(Drop)]
pub(crate) struct ByteSource<'a> {
    rest: &'a [u8],
}

impl<'a> ByteSource<'a> {
    /// A source of these bytes.
    pub(crate) fn new(bytes: &'a [u8]) -> ByteSource<'a>
        ensures { result.rest.now ≡ bytes.now }
    {
        ByteSource { rest: bytes }
    }
}

impl Source for ByteSource<'_> {
    ghost left = { λ s. Some s.rest.now };

    ghost faults = { λ _. 0 };

    fn read(&mut self, buffer: &mut [u8]) -> Result<usize, Failed> {
        let count = self.rest.len().min(buffer.len());
        let (front, rest) = self.rest.split_at(count);
        buffer[..count].copy_from_slice(front);
        self.rest = rest;
        Ok(count)
    }
}

/// A sink that keeps all that it took. It fails where memory is refused.
#[derive(Drop)]
pub(crate) struct ByteSink {
    pub(crate) bytes: Vec<u8>,
    pub(crate) faults: u64,
}

impl ByteSink {
    /// An empty sink.
    pub(crate) fn new(alloc: Global) -> ByteSink
        ensures taken { result.bytes.items ≡ [] }
        ensures faults { result.faults ≡ 0 }
    {
        ByteSink {
            bytes: Vec::new(alloc),
            faults: 0,
        }
    }

    /// Whether memory was refused to it.
    pub(crate) fn has_failed(&self) -> bool
        ensures { IsTrue result ↔ (0 < self.now.faults) }
    {
        self.faults > 0
    }
}

impl Sink for ByteSink {
    ghost taken = { λ s. Some s.bytes.items };

    ghost faults = { λ s. s.faults };

    fn write(&mut self, piece: &[u8]) -> Result<usize, Failed> {
        match self.bytes.extend_from_slice(piece) {
            Ok(()) => Ok(piece.len()),
            Err(_) => {
                self.faults = self.faults.saturating_add(1);
                Err(Failed)
            }
        }
    }
}
