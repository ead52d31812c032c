//! What is answered for a tree text.
use sched_edges::MemSink;
use std::alloc::Global;
use std::process::Abort;
use tree_check::{ReadTree, TreeKind, TreeRefused, check_tree};
use tree_reader::{TreeFault, read_tree};
use tree_text::write_tree;

/// What is answered for a tree text.
#[derive(Clone, Copy, PartialEq, Eq)]
pub(super) enum Answer {
    /// It isn't of the form, at this line.
    BadLine(u64),
    /// It is that of no reduction tree, at this line and for this reason.
    Fault(u64, TreeKind),
    /// It is that of a tree.
    Tree,
}

/// Five tasks of rate 3/5 on three processors. Another rule packed level 1.
pub(super) const THREE_LEVELS: &str =
    "run-tree 1\nprocessors 3\nhorizon 5\nscale 5\ntasks 5\ntask a 3 5\ntask b 3 5\ntask c 3 5\ntask d 3 5\n\
    task e 3 5\nidles 0\nlevel 0 5\npack 3 a\npack 3 b\npack 3 c\npack 3 d\npack 3 e\nlevel 1 3\npack 4 ~0 ~2\npack 4 ~1 ~3\npack 2 ~4\n\
    level 2 1\npack 5 ~0 ~1 ~2\nlevels 3\n";

/// Three tasks of rate 3/5 on two processors, with one idle leaf.
pub(super) const ONE_IDLE: &str =
    "run-tree 1\nprocessors 2\nhorizon 5\nscale 5\ntasks 3\ntask a 3 5\ntask b 3 5\ntask c 3 5\nidles 1\n\
    idle 0 1\nlevel 0 3\npack 4 a -0\npack 3 b\npack 3 c\nlevel 1 1\npack 5 ~0 ~1 ~2\nlevels 2\n";

/// What is told of line i, counted from 0, where lines are told by their numbers from 1; else the line itself.
fn told_line<'a>(told: &[(usize, &'a str)], i: usize, line: &'a str) -> &'a str {
    for (number, other) in told {
        if *number == i.saturating_add(1) {
            return other;
        }
    }
    line
}

/// The text with each of these lines, counted from 1, as it is told.
pub(super) fn with_lines(
    rt: &impl Abort,
    alloc: Global,
    text: &str,
    told: &[(usize, &str)],
) -> String {
    let mut edited = String::new(alloc);
    for (i, line) in text.split_inclusive('\n').enumerate() {
        edited
            .push_str(told_line(&*told, i, line))
            .expect(rt, "there is memory");
    }
    edited
}

/// What is answered for these bytes. Where they are the text of a tree, it is written as this text.
pub(super) fn answer_for(rt: &impl Abort, alloc: Global, bytes: &[u8], written: &[u8]) -> Answer {
    match read_tree(alloc, bytes) {
        Ok(tree) => answer_checked(rt, alloc, &tree, written),
        Err(TreeFault::BadLine { line }) => Answer::BadLine(line),
        Err(TreeFault::NoMemory) => panic!(rt; "no memory"),
    }
}

fn answer_checked(rt: &impl Abort, alloc: Global, tree: &ReadTree, written: &[u8]) -> Answer {
    match check_tree(alloc, tree) {
        Ok(plan) => {
            let mut sink = MemSink::new(alloc, 4096, &[]).expect(rt, "there is memory");
            assert!(rt; write_tree(&plan, &mut sink).is_ok());
            assert!(rt; sink.taken() == written);
            Answer::Tree
        }
        Err(TreeRefused::Fault { line, kind }) => Answer::Fault(line, kind),
        Err(TreeRefused::NoMemory) => panic!(rt; "no memory"),
    }
}

/// The lines of a text that differ, and what is then answered.
pub(super) type Row<'a> = (&'a [(usize, &'a str)], Answer);

/// Compares what is answered for a text with lines that differ.
pub(super) fn compare(rt: &impl Abort, alloc: Global, text: &str, rows: &[Row]) {
    for (told, answer) in rows {
        let edited = with_lines(rt, alloc, text, told);
        let found = answer_for(rt, alloc, edited.as_bytes(), edited.as_bytes());
        assert!(rt; found == *answer, "{edited}");
    }
}
