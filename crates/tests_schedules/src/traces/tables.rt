//! Worked schedules in C, and a sink that fails. That of three tasks stands whole in the tests of the command `table`.
ghost use Rattle.std.specs.Prelude.{◌≡◌, ◌≤◌, ◌*◌, ◌<◌, ◌^◌, length};

use super::A;
use merged_rows::MergedRows;
use sched_base::{Leaf, TaskId, TaskSet};
use sched_edges::MemSink;
use std::alloc::Global;
use std::process::Abort;
use table_text::write_table;

/// What a sink takes of the schedule of a set, which comes again from a unit on, where these calls of it fail.
fn written(
    rt: &impl Abort,
    alloc: Global,
    set: &TaskSet,
    scale: u128,
    rows: &MergedRows,
    from: u64,
    fails: &[u64],
) -> MemSink
    requires some_scale { 1 ≤ scale }
    requires from { from ≤ set.now.horizon }
    requires fits { set.now.horizon * scale < 2 ^ 64 }
    requires processors { length rows.now.lanes ≡ set.now.processors }
{
    let mut sink = MemSink::new(alloc, 4096, fails).expect(rt, "there is memory");
    assert!(rt; write_table(&mut sink, set, scale, rows, from).is_ok() == fails.is_empty());
    sink
}

/// Rows of one processor that begin at 0 and at this tick, and end at another.
fn two_rows(rt: &impl Abort, alloc: Global, tick: u128, end: u128) -> MergedRows
    ensures { length result.lanes ≡ 1 }
{
    let mut rows = MergedRows::new(alloc, 1).expect(rt, "there is memory");
    rows.add_round(tick, &[Some(A)])
        .expect(rt, "there is memory");
    rows.add_round(end, &[Some(Leaf::Idle(0))])
        .expect(rt, "there is memory");
    rows
}

/// A tick that a row ends at besides the horizon, which is as many ticks as the scale, the scale, and the line of the type.
const NARROWEST: &[(u128, u128, &[u8])] = &[
    (1, 255, b"  uint8_t start, end;\n"),
    (1, 256, b"  uint16_t start, end;\n"),
    (1, 65_535, b"  uint16_t start, end;\n"),
    (1, 65_536, b"  uint32_t start, end;\n"),
    (1, 4_294_967_295, b"  uint32_t start, end;\n"),
    (1, 4_294_967_296, b"  uint64_t start, end;\n"),
    (1, 18_446_744_073_709_551_615, b"  uint64_t start, end;\n"),
    // 2^64 - 1 is 3 * 5 * 17 * 257 * 641 * 65537 * 6700417: in steps of all but the first four it ends at 65,535, of all but three at 255.
    (
        281_479_271_743_489,
        18_446_744_073_709_551_615,
        b"  uint16_t start, end;\n",
    ),
    (
        72_340_172_838_076_673,
        18_446_744_073_709_551_615,
        b"  uint8_t start, end;\n",
    ),
];

/// Compares the line of the type, which is the last that a sink takes whose third call fails.
fn compare_type(rt: &impl Abort, alloc: Global, set: &TaskSet, tick: u128, scale: u128, line: &[u8])
    requires processors { set.now.processors ≡ 1 }
    requires horizon { set.now.horizon ≡ 1 }
{
    assert!(rt; 1 <= scale && scale < 1 << 64);
    let rows = two_rows(rt, alloc, tick, scale);
    let sink = written(rt, alloc, set, scale, &rows, 0, &[3]);
    assert!(rt;
        sink.taken().ends_with(line),
        "a row ends at {tick} of {scale}"
    );
}

/// The numbers of a row have the narrowest type that holds the steps up to the horizon.
#[test]
fn the_narrowest_types(rt: HostRuntime) {
    let set = TaskSet::start(rt.alloc(), 1, 1);
    for (tick, scale, line) in NARROWEST {
        compare_type(&rt, rt.alloc(), &set, *tick, *scale, line);
    }
}

// Neither the late task's waiting row nor the idle one has a task. 6, 256 and 300 are told in steps of 2.
const LATE: &[u8] = b"struct furnacelime_task furnacelime_tasks[] = {
  {\"late\", 1u, 2u, 1u},
  {\"\", 0u, 0u, 0u}
};

static const struct furnacelime_row furnacelime_rows_0[] = {
  {0u, 3u, -1},
  {3u, 128u, 0},
  {128u, 150u, -1},
  {0u, 0u, -1}
};

static const struct furnacelime_processor furnacelime_processors[] = {
  {3u, furnacelime_rows_0},
};

extern const struct furnacelime_table furnacelime_table;
const struct furnacelime_table furnacelime_table = {
  6u, /* scale */
  2u, /* step */
  300u, /* ticks */
  264u, /* repeat_from */
  50u, /* horizon */
  1u, /* processor_count */
  1u, /* task_count */
  furnacelime_processors,
  furnacelime_tasks
};
";

#[test]
fn a_late_task_waits_in_its_table(rt: HostRuntime) {
    let mut rows = MergedRows::new(rt.alloc(), 1).expect(&rt, "there is memory");
    rows.add_round(6, &[Some(Leaf::Wait(TaskId(0)))])
        .expect(&rt, "there is memory");
    rows.add_round(256, &[Some(A)])
        .expect(&rt, "there is memory");
    rows.add_round(300, &[Some(Leaf::Idle(0))])
        .expect(&rt, "there is memory");
    let mut set = TaskSet::start(rt.alloc(), 1, 50);
    set.add_late(b"late", 1, 2, 1)
        .expect(&rt, "there is memory");
    let sink = written(&rt, rt.alloc(), &set, 6, &rows, 44, &[]);
    assert!(rt; sink.taken().ends_with(LATE));
}

const NONE: &[u8] = b"struct furnacelime_task furnacelime_tasks[] = {
  {\"\", 0u, 0u, 0u}
};

static const struct furnacelime_row furnacelime_rows_0[] = {
  {0u, 1u, -1},
  {0u, 0u, -1}
};

static const struct furnacelime_row furnacelime_rows_1[] = {
  {0u, 1u, -1},
  {0u, 0u, -1}
};

static const struct furnacelime_processor furnacelime_processors[] = {
  {1u, furnacelime_rows_0},
  {1u, furnacelime_rows_1},
};

extern const struct furnacelime_table furnacelime_table;
const struct furnacelime_table furnacelime_table = {
  1u, /* scale */
  1u, /* step */
  1u, /* ticks */
  0u, /* repeat_from */
  1u, /* horizon */
  2u, /* processor_count */
  0u, /* task_count */
  furnacelime_processors,
  furnacelime_tasks
};
";

/// The calls of a sink that fail, and the end of what it takes of the table of no tasks.
const TAKEN: &[(&[u64], &[u8])] = &[
    (&[], NONE),
    (&[3], b"struct furnacelime_row {\n  uint8_t start, end;\n"),
];

/// The table of no tasks, and what a sink takes of it whose third call fails.
#[test]
fn a_table_of_no_tasks_is_told(rt: HostRuntime) {
    let mut rows = MergedRows::new(rt.alloc(), 2).expect(&rt, "there is memory");
    rows.add_round(1, &[Some(Leaf::Idle(0)), Some(Leaf::Empty)])
        .expect(&rt, "there is memory");
    let set = TaskSet::start(rt.alloc(), 2, 1);
    for (fails, taken) in TAKEN {
        let sink = written(&rt, rt.alloc(), &set, 1, &rows, 0, fails);
        assert!(rt; sink.taken().ends_with(taken), "{} calls fail", fails.len());
    }
}
