//! Bytes that are read to their end and lines that are written, and streams that fail: that calls succeed, and which pieces a sink
//! is given.

use sched_edges::{
    Failed, Line, MemSink, MemSource, Sink, Source, StdSink, StdSource, SureSink, SureSource,
    TakeFault, named_line, number_line, numbers_line, read_all, word_line, write_all, write_lines,
};
use std::alloc::Global;
use std::io;
use std::io::{Read, Write};
use std::process::Abort;

/// What a source gives, which of its calls fail, the limit, and the fault where it isn't read to its end.
const SOURCES: &[(&[u8], &[u64], usize, Option<TakeFault>)] = &[
    (b"", &[], 0, None),
    (b"0123456789", &[], 10, None),
    (b"0123456789", &[3], 10, None),
    (
        b"0123456789a",
        &[],
        10,
        Some(TakeFault::TooLong { count: 11 }),
    ),
    (b"a", &[], 0, Some(TakeFault::TooLong { count: 1 })),
    (b"0123456789", &[1], 10, Some(TakeFault::Read)),
    (b"0123456789", &[2], 10, Some(TakeFault::Read)),
];

/// Reads a source to its end, and makes sure of its bytes or of the fault.
fn assert_read<R: Source>(
    rt: &impl Abort,
    alloc: Global,
    source: &mut R,
    limit: usize,
    bytes: &[u8],
    fault: Option<TakeFault>,
) {
    match read_all(alloc, source, limit) {
        Ok(found) => {
            assert!(rt; found.as_slice() == bytes);
            assert!(rt; fault == None);
        }
        Err(found) => assert!(rt; Some(found) == fault),
    }
}

#[test]
fn reads_to_the_end_or_says_why_not(rt: HostRuntime) {
    for (bytes, fails, limit, fault) in SOURCES {
        let mut source = MemSource::new(rt.alloc(), bytes, fails).expect(&rt, "there is memory");
        assert_read(&rt, rt.alloc(), &mut source, *limit, bytes, *fault);
    }
}

#[test]
fn reads_from_a_sure_source_and_by_std(rt: HostRuntime) {
    let alloc = rt.alloc();
    let mut sure = SureSource::new(alloc, b"processors = 2\n").expect(&rt, "there is memory");
    assert_read(&rt, alloc, &mut sure, 20, b"processors = 2\n", None);
    assert_read(&rt, alloc, &mut sure, 20, b"", None);
    let mut source = StdSource::new(b"input".as_slice());
    assert_read(&rt, alloc, &mut source, 5, b"input", None);
}

const TEXT: &[u8] =
    b"run-tree 1\nprocessors 3\nlevel 0 5\nrate a 340282366920938463463374607431768211455\n";

/// The room of a sink, which of its calls fail, one for each line, and how many bytes it takes.
const SINKS: &[(usize, &[u64], usize)] = &[
    (81, &[], 81),
    (1000, &[5], 81),
    (80, &[], 80),
    (1000, &[1], 0),
    (1000, &[2], 11),
    (1000, &[4], 34),
    (0, &[], 0),
];

/// Writes lines into a sink, and makes sure of the bytes that it takes.
fn assert_written(
    rt: &impl Abort,
    alloc: Global,
    lines: &[Line],
    room: usize,
    fails: &[u64],
    want: usize,
) {
    let mut sink = MemSink::new(alloc, room, fails).expect(rt, "there is memory");
    let result = write_lines(&mut sink, lines);
    assert!(rt; result.is_ok() == (want == TEXT.len()));
    assert!(rt; sink.taken().len() == want);
    assert!(rt; TEXT.starts_with(sink.taken()));
}

/// Writes lines into each sink.
fn assert_each(rt: &impl Abort, alloc: Global, lines: &[Line]) {
    for (room, fails, want) in SINKS {
        assert_written(rt, alloc, lines, *room, fails, *want);
    }
    assert!(rt; write_lines(&mut SureSink::new(), lines) == Ok(()));
}

#[test]
fn writes_until_the_sink_fails(rt: HostRuntime) {
    let lines = [
        word_line(b"run-tree 1"),
        number_line(b"processors", 3),
        numbers_line(b"level", 0, 5),
        named_line(b"rate", b"a", u128::MAX),
    ];
    assert_each(&rt, rt.alloc(), &lines);
}

#[derive(Drop)]
struct Broken;

impl Read for Broken {
    fn read(&mut self, _buffer: &mut [u8]) -> io::Result<usize> {
        Err(io::Error::other("broken"))
    }
}

impl Write for Broken {
    fn write(&mut self, _piece: &[u8]) -> io::Result<usize> {
        Ok(0)
    }

    fn flush(&mut self) -> io::Result<()> {
        Err(io::Error::other("broken"))
    }
}

/// Writes by std into bytes.
fn assert_std_sink(rt: &impl Abort, alloc: Global) {
    let mut taken = Vec::new(alloc);
    let mut sink = StdSink::new(&mut taken);
    assert!(rt; write_all(&mut sink, b"output") == Ok(()));
    assert!(rt; taken.as_slice() == b"output".as_slice());
}

#[test]
fn writes_by_std_and_counts_its_faults(rt: HostRuntime) {
    assert_std_sink(&rt, rt.alloc());
    let mut source = StdSource::new(Broken);
    assert!(rt; source.read(&mut [0; 4]) == Err(Failed));
    assert!(rt; read_all(rt.alloc(), &mut source, 5).is_ok() == false);
    let mut sink = StdSink::new(Broken);
    assert!(rt; write_all(&mut sink, b"output") == Err(Failed));
    assert!(rt; write_all(&mut sink, b"") == Ok(()));
}

/// Interrupts the first calls, and then does as std's streams of bytes do.
#[derive(Drop)]
struct Interrupting {
    calls: u32,
}

impl Interrupting {
    // Whether this call is one that is interrupted.
    fn interrupts(&mut self) -> bool {
        let is_left = self.calls > 0;
        self.calls = self.calls.saturating_sub(1);
        is_left
    }
}

impl Read for Interrupting {
    fn read(&mut self, buffer: &mut [u8]) -> io::Result<usize> {
        if self.interrupts() {
            return Err(io::Error::from(io::ErrorKind::Interrupted));
        }
        b"in".as_slice().read(buffer)
    }
}

impl Write for Interrupting {
    fn write(&mut self, piece: &[u8]) -> io::Result<usize> {
        if self.interrupts() {
            return Err(io::Error::from(io::ErrorKind::Interrupted));
        }
        Ok(piece.len())
    }

    fn flush(&mut self) -> io::Result<()> {
        Ok(())
    }
}

#[test]
fn interrupted_calls_are_made_again(rt: HostRuntime) {
    let mut source = StdSource::new(Interrupting { calls: 3 });
    assert!(rt; source.read(&mut [0; 4]) == Ok(2));
    let mut sink = StdSink::new(Interrupting { calls: 3 });
    assert!(rt; write_all(&mut sink, b"output") == Ok(()));

    // Not for ever.
    let mut source = StdSource::new(Interrupting { calls: u32::MAX });
    assert!(rt; source.read(&mut [0; 4]) == Err(Failed));
}
