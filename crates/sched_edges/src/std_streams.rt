//! Streams over std's readers and writers. Over the streams of the process they are the edge that is trusted.
ghost use Rattle.std.specs.Prelude.{◌≡◌, [], OnOk};
ghost use Rattle.std.specs.Io.{ReadsAtMost, WritesAtMost};
ghost use Rattle.std.specs.Io.Buffered.{writer_contents};
ghost use Rattle.std.specs.Io.KnownBytes.{Keeps, ReadConsumes, WriteAppends};
ghost use Rattle.sched_edges.specs.Causes.{HasCause};
ghost use Rattle.sched_edges.specs.StdStreams.{source_faults, sink_faults, kept_back};

use crate::streams::{Failed, Sink, Source, fault};
use std::io;
use std::io::{BufWriter, ErrorKind, Read, Write};

/// How often a call is made again that a signal interrupts each time.
const TRIES: u32 = 64;

// Reads once. A call that a signal interrupted is made again.
fn read_again<R: Read>(reader: &mut R, buffer: &mut [u8]) -> io::Result<usize>
    ensures bound { ReadsAtMost result buffer.new }
    ensures bytes { ReadConsumes (R.remaining reader.old) (R.remaining reader.new) result buffer.new }
{
    for _ in 0..TRIES {
        match reader.read(buffer) {
            Err(error) if error.kind() == ErrorKind::Interrupted => {}
            told => return told,
        }
    }
    reader.read(buffer)
}

// Writes once. A call that a signal interrupted is made again.
fn write_again<W: Write>(writer: &mut W, piece: &[u8]) -> io::Result<usize>
    ensures bound { WritesAtMost result piece.now }
    ensures bytes { WriteAppends (W.contents writer.old) (W.contents writer.new) result piece.now }
{
    for _ in 0..TRIES {
        match writer.write(piece) {
            Err(error) if error.kind() == ErrorKind::Interrupted => {}
            told => return told,
        }
    }
    writer.write(piece)
}

/// A source over a reader. It tells what the reader tells: standard input tells nothing.
#[derive(Drop)]
pub struct StdSource<R: Read + Drop> {
    inner: R,
    faults: u64,
}

impl<R: Read + Drop> StdSource<R> {
    /// A source over this reader.
    pub fn new(inner: R) -> Self
        ensures { source_faults result ≡ 0 }
    {
        StdSource { inner, faults: 0 }
    }
}

impl<R: Read + Drop> Source for StdSource<R> {
    ghost left = { λ s. R.remaining s.inner };

    ghost faults = { λ s. source_faults s };

    fn read(&mut self, buffer: &mut [u8]) -> Result<usize, Failed> {
        match read_again(&mut self.inner, buffer) {
            Ok(count) => Ok(count),
            Err(_) => Err(fault(&mut self.faults)),
        }
    }
}

/// A sink over a writer. It tells what the writer tells: standard output and standard error tell nothing.
#[derive(Drop)]
pub struct StdSink<W: Write + Drop> {
    inner: W,
    faults: u64,
}

impl<W: Write + Drop> StdSink<W> {
    /// A sink over this writer.
    pub fn new(inner: W) -> Self
        ensures { sink_faults result ≡ 0 }
    {
        StdSink { inner, faults: 0 }
    }
}

impl<W: Write + Drop> StdSink<BufWriter<W>> {
    /// Hands on what the writer has kept back. To be called at the end.
    pub fn flush(&mut self) -> Result<(), Failed>
        ensures handed_on { OnOk result (kept_back self.new ≡ []) }
        ensures bytes { Keeps (writer_contents W.contents self.old.inner) (writer_contents W.contents self.new.inner) }
        ensures cause { HasCause (sink_faults self.old) (sink_faults self.new) result }
    {
        match self.inner.flush() {
            Ok(()) => Ok(()),
            Err(_) => Err(fault(&mut self.faults)),
        }
    }
}

impl<W: Write + Drop> Sink for StdSink<W> {
    ghost taken = { λ s. W.contents s.inner };

    ghost faults = { λ s. sink_faults s };

    fn write(&mut self, piece: &[u8]) -> Result<usize, Failed> {
        match write_again(&mut self.inner, piece) {
            Ok(count) if count > 0 || piece.is_empty() => Ok(count),
            _ => Err(fault(&mut self.faults)),
        }
    }
}
