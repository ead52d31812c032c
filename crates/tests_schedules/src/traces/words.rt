//! Numbers, lines and words of texts that anybody wrote.
use text_words::{after_word, cut_number, first_line, read_number};

/// Words, and the numbers that they are.
const NUMBERS: &[(&[u8], Option<u128>)] = &[
    (b"0", Some(0)),
    (b"4294967295", Some(4_294_967_295)),
    (
        b"170141183460469231731687303715884105727",
        Some(170_141_183_460_469_231_731_687_303_715_884_105_727),
    ),
    (
        b"99999999999999999999999999999999999999999999999999",
        Some(u128::MAX),
    ),
    (b"", None),
    (b"07", None),
    (b"00", None),
    (b"+3", None),
    (b"3\r", None),
];

#[test]
fn words_are_read_as_numbers(rt: HostRuntime) {
    for (number, (word, want)) in NUMBERS.iter().enumerate() {
        assert!(rt; read_number(word) == *want, "word {number}");
    }
}

/// Texts, and the number with which each begins, before a space.
const CUT: &[(&[u8], Option<u128>)] = &[
    (b"0 a", Some(0)),
    (b"9999999999999999999 a", Some(9_999_999_999_999_999_999)),
    (b"10000000000000000000 a", Some(10_000_000_000_000_000_000)),
    (
        b"99999999999999999999999999999999999999 a",
        Some(99_999_999_999_999_999_999_999_999_999_999_999_999),
    ),
    (b"100000000000000000000000000000000000000 a", None),
    (b"07 a", None),
    (b" a", None),
    (b"7\na", None),
    (b"7", None),
];

/// What the clause of `cut_number` leaves open: that it answers wherever a number of at most 38 digits and a space begin the text.
#[test]
fn numbers_are_cut_from_the_front(rt: HostRuntime) {
    for (row, (text, want)) in CUT.iter().enumerate() {
        match cut_number(text) {
            Some((number, rest)) => {
                assert!(rt; Some(number) == *want, "text {row}");
                assert!(rt; rest == b"a".as_slice(), "text {row}");
            }
            None => assert!(rt; want.is_none(), "a number and a space begin text {row}"),
        }
    }
}

#[test]
fn a_line_ends_at_its_line_feed(rt: HostRuntime) {
    let text = b"row 0 3\r\n\nrows";
    let (first, rest) = first_line(text);
    assert!(rt; first == b"row 0 3\r".as_slice());
    assert!(rt; rest == b"\nrows".as_slice());
    match after_word(b"row", first) {
        Some(rest) => assert!(rt; rest == b"0 3\r".as_slice()),
        None => assert!(rt; false, "the line begins with row"),
    }
    assert!(rt; after_word(b"row", b"rows 4").is_none());
}
