//! Words that are no command line.

use super::calls::SURE;
use super::cases::assert_call;
use super::lanes::Did;
use super::texts::THREE_TASKS;
use run_tool::Status;
use std::alloc::Global;
use std::process::Abort;
use std::sync::Wait;
use std::thread::Threads;

/// Words that are no command line.
const FAULTY: &[&[&str]] = &[
    &[],
    &["run"],
    &["rate", "x"],
    &["rate", "rate"],
    &["rate", "--met"],
    &["drill", "07"],
    &["drill", "-1"],
    &["trace", "trace"],
    &["--met", "trace"],
    &["trace", "--met", "--met"],
    &["trace", "--met="],
    &["trace", "--met=true"],
    &["trace", "--me"],
    &["trace", "-m"],
    &["trace", "--met", "--"],
    &["trace", "--repeat=1"],
    &["trace", "--repeat", "--repeat"],
    &["trace", "--met", "--repeat"],
    &["trace", "--repeat", "--met"],
    &["trace", "--repeat", "--by", "wrap"],
    &["table", "--met"],
    &["table", "--repeat", "x"],
    &["table", "--rep"],
    &["rate", "--repeat"],
    &["--repeat", "table"],
    &["--", "trace"],
    &["trace", ""],
    &["check", "x"],
    &["check", "--met"],
    &["check", "check"],
    &[""],
    &["Rate"],
    // No word asks for help, and `--` is no word of a line.
    &["--"],
    &["rate", "--"],
    &["help"],
    &["help", "rate"],
    &["--help"],
    &["rate", "-h"],
    &["--version"],
    &["furnacelime", "rate"],
];

/// Words that are near the lines of `exec`, and are none.
const EXECS: &[&[&str]] = &[
    &["exec", "--window", "0"],
    &["exec", "--window", "1025"],
    &["exec", "--window", "01"],
    &["exec", "--window", "00"],
    &["exec", "--window", "+1"],
    &["exec", "--window", "-1"],
    &["exec", "--window", " 1"],
    &["exec", "--window", "1 "],
    &["exec", "--window", "0x1"],
    &["exec", "--window", ""],
    // 2^32 + 1, and 2^128 + 1.
    &["exec", "--window", "4294967297"],
    &[
        "exec",
        "--window",
        "340282366920938463463374607431768211457",
    ],
    &["exec", "--window=0"],
    &["exec", "--window=1025"],
    &["exec", "--window=01"],
    &["exec", "--window="],
    &["exec", "--window==2"],
    &["exec", "--window"],
    &["exec", "--windows=2"],
    &["exec", "--win=2"],
    &["exec", "-w", "2"],
    &["exec", "2"],
    &["exec", "x"],
    &["exec", "exec"],
    &["exec", "--met", "--met"],
    &["exec", "--met", "--window", "2"],
    &["exec", "--window=2", "--met"],
    &["exec", "--window=2", "--window=2"],
    &["exec", "--", "--met"],
    &["exec", "--window", "2", "x"],
    &["--window", "2", "exec"],
    &["--window=2", "exec"],
    &["--met", "exec"],
    &["--", "exec"],
    &["Exec"],
];

/// Words that are near the line of `drill`, and are none.
const DRILLS: &[&[&str]] = &[
    &["trace", "--window", "2"],
    &["drill"],
    &["drill", "1", "2"],
    &["drill", "07"],
    &["drill", "00"],
    &["drill", "-1"],
    &["drill", "+1"],
    &["drill", ""],
    &["drill", " 1"],
    &["drill", "1 "],
    &["drill", "0x1"],
    &["drill", "1.0"],
    &["drill", "one"],
    // 2^64, and 2^128 + 1.
    &["drill", "18446744073709551616"],
    &["drill", "340282366920938463463374607431768211457"],
    &["drill", "--", "1"],
    &["drill", "1", "--met"],
    &["drill", "1", "--window", "2"],
    &["drill", "--number", "1"],
    &["1", "drill"],
    &["Drill", "1"],
];

/// Words that are near the lines of `draw`, and are none.
const DRAWS: &[&[&str]] = &[
    &["draw", "--units", "0"],
    &["draw", "--units=0"],
    &["draw", "--units", "07"],
    &["draw", "--units=07"],
    &["draw", "--from", "07"],
    &["draw", "--from=00"],
    &["draw", "--from"],
    &["draw", "--units"],
    &["draw", "--from="],
    &["draw", "--units="],
    &["draw", "--from=1="],
    &["draw", "--units", "1", "--from", "0"],
    &["draw", "--units=1", "--from=0"],
    &["draw", "--units=1", "--from", "0"],
    &["draw", "--from", "1", "--from", "2"],
    &["draw", "--from=1", "--from=1"],
    &["draw", "--units=1", "--units=1"],
    &["draw", "--from", "--units", "1"],
    &["draw", "--from", "1", "--units"],
    &["draw", "--from", "1", "--units", "2", "3"],
    &["draw", "--from", "-1"],
    &["draw", "--from=-1"],
    &["draw", "--from", "+1"],
    &["draw", "--from", " 1"],
    &["draw", "--from", ""],
    // 2^32, and 2^128 + 1.
    &["draw", "--from", "4294967296"],
    &["draw", "--units", "4294967296"],
    &["draw", "--units", "340282366920938463463374607431768211457"],
    &["draw", "--fro", "1"],
    &["draw", "-f", "1"],
    &["draw", "1"],
    &["draw", "draw"],
    &["draw", "--met"],
    &["draw", "--", "--from", "1"],
    &["--from", "1", "draw"],
    &["check", "--from", "1"],
];

/// Words that are near the lines of `trace --by wrap`, `table`, `batch` and `modes`, and are none.
const OTHERS: &[&[&str]] = &[
    &["trace", "--by"],
    &["trace", "--by="],
    &["trace", "--by", ""],
    &["trace", "--by", "rm"],
    &["trace", "--by=rm"],
    &["trace", "--by", "Wrap"],
    &["trace", "--by=wrap", "--met"],
    &["trace", "--met", "--by", "wrap"],
    &["trace", "--by", "wrap", "--met"],
    &["trace", "--by", "wrap", "--by", "wrap"],
    &["trace", "--by=wrap", "x"],
    &["trace", "wrap"],
    &["--by", "wrap", "trace"],
    &["exec", "--by", "wrap"],
    &["rate", "--by=wrap"],
    &["tables"],
    &["Table"],
    &["table", ""],
    &["table", "table"],
    &["table", "--met"],
    &["table", "--by=wrap"],
    &["batch", ""],
    &["batch", "x"],
    &["batch", "batch"],
    &["batch", "--met"],
    &["--", "batch"],
    &["batch", "--"],
    &["Batch"],
    &["modes", "modes"],
    &["modes", "--met"],
    &["modes", "x"],
];

/// Makes sure that such words are refused: nothing is read, nothing is written to `out`, and no gate and no job is called.
fn assert_no_lines<X: Abort + Threads + Wait + Sync>(rt: &X, alloc: Global, lines: &[&[&str]]) {
    for line in lines {
        let end = (Status::Usage, [].as_slice(), "refused 2 Usage\n");
        let did = Did::NothingRead(THREE_TASKS.len());
        assert_call(rt, alloc, line, &[THREE_TASKS], &SURE, end, did);
    }
}

#[test]
fn other_words_are_no_line(rt: HostRuntime) {
    assert_no_lines(&rt, rt.alloc(), FAULTY);
}

#[test]
fn words_near_an_execution_are_no_line(rt: HostRuntime) {
    assert_no_lines(&rt, rt.alloc(), EXECS);
}

#[test]
fn words_near_a_drill_are_no_line(rt: HostRuntime) {
    assert_no_lines(&rt, rt.alloc(), DRILLS);
}

#[test]
fn words_near_a_drawing_are_no_line(rt: HostRuntime) {
    assert_no_lines(&rt, rt.alloc(), DRAWS);
}

#[test]
fn words_near_other_lines_are_no_line(rt: HostRuntime) {
    assert_no_lines(&rt, rt.alloc(), OTHERS);
}
