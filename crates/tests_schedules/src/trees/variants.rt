//! Texts that differ from that of a tree in one place: cut after each byte, a line twice or left out, a number one more.
use super::answers::{Answer, answer_for};
use super::worked_texts::{NINE_TASKS, ONE_IDLE_LEAF, THREE_TASKS, TWO_REDUCTIONS, Worked};
use std::alloc::Global;
use std::process::Abort;

const TEXTS: &[Worked] = &[THREE_TASKS, ONE_IDLE_LEAF, TWO_REDUCTIONS, NINE_TASKS];

/// What a mark in the place of the last byte of a text says, if that byte stands on this line.
fn marked(mark: u8, line: u64) -> Answer {
    match mark {
        b'+' => Answer::BadLine(line.saturating_add(1)),
        b'=' => Answer::Tree,
        _ => Answer::BadLine(line),
    }
}

/// Cuts a text after each byte but the last.
fn assert_cuts(rt: &impl Abort, alloc: Global, worked: &Worked) {
    let bytes = worked.text.as_bytes();
    let mut line: u64 = 1;
    assert!(rt; worked.cuts.len() + 1 == bytes.len());
    for (i, mark) in worked.cuts.as_bytes().iter().enumerate() {
        if *mark == b'\n' {
            line = line.saturating_add(1);
        }
        let found = answer_for(rt, alloc, &bytes[..=i], bytes);
        assert!(rt; found == marked(*mark, line), "{i} of {}", worked.text);
    }
}

/// Some bytes of a text, and some others.
fn spliced(
    rt: &impl Abort,
    alloc: Global,
    first: Option<&[u8]>,
    middle: &[u8],
    last: Option<&[u8]>,
) -> Vec<u8> {
    let (Some(first), Some(last)) = (first, last) else {
        panic!(rt; "no place of the text");
    };
    let parts: [&[u8]; 3] = [first, middle, last];
    parts.concat(alloc).expect(rt, "there is memory")
}

/// Makes sure of what is answered for the bytes up to a place, others, and the bytes from another place on.
fn assert_spliced(
    rt: &impl Abort,
    alloc: Global,
    bytes: &[u8],
    (end, middle, start): (usize, &[u8], usize),
    answer: Answer,
) {
    let text = spliced(rt, alloc, bytes.get(..end), middle, bytes.get(start..));
    assert!(rt;
        answer_for(rt, alloc, &text, &text) == answer,
        "up to {end} and from {start} on"
    );
}

/// Has each line of a text twice, and leaves it out.
fn assert_lines(rt: &impl Abort, alloc: Global, worked: &Worked) {
    let bytes = worked.text.as_bytes();
    let mut start: usize = 0;
    let rows = worked.doubled.iter().zip(worked.left_out);
    for (line, (doubled, left_out)) in worked.text.split_inclusive('\n').zip(rows) {
        let end = start.saturating_add(line.len());
        assert_spliced(
            rt,
            alloc,
            bytes,
            (end, b"", start),
            Answer::BadLine(*doubled),
        );
        assert_spliced(
            rt,
            alloc,
            bytes,
            (start, b"", end),
            Answer::BadLine(*left_out),
        );
        start = end;
    }
    assert!(rt;
        start == bytes.len(),
        "a row for each line of {}",
        worked.text
    );
}

/// The digits in place of a number's last one, where the number is one more. No number of two digits ends in 9.
fn raised(digit: u8) -> &'static [u8] {
    match digit {
        b'0' => b"1",
        b'1' => b"2",
        b'2' => b"3",
        b'3' => b"4",
        b'4' => b"5",
        b'5' => b"6",
        b'6' => b"7",
        b'7' => b"8",
        b'8' => b"9",
        _ => b"10",
    }
}

/// Whether the byte at a place is a digit.
fn is_digit(bytes: &[u8], i: usize) -> bool {
    match bytes.get(i) {
        Some(byte) => byte.is_ascii_digit(),
        None => false,
    }
}

/// Has each number of a text one more.
fn assert_raised(rt: &impl Abort, alloc: Global, worked: &Worked) {
    let bytes = worked.text.as_bytes();
    let mut answers = worked.raised.iter();
    for (i, byte) in bytes.iter().enumerate() {
        let next = i.saturating_add(1);
        if is_digit(bytes, i) && !is_digit(bytes, next) {
            let answer = answers.next().expect(rt, "an answer for each number");
            assert_spliced(rt, alloc, bytes, (i, raised(*byte), next), *answer);
        }
    }
    assert!(rt; answers.next().is_none(), "the numbers of {}", worked.text);
}

#[test]
fn texts_that_differ_in_one_place(rt: HostRuntime) {
    assert!(rt; answer_for(&rt, rt.alloc(), b"", b"") == Answer::BadLine(1));
    for worked in TEXTS {
        assert_cuts(&rt, rt.alloc(), worked);
        assert_lines(&rt, rt.alloc(), worked);
        assert_raised(&rt, rt.alloc(), worked);
    }
}
