//! Texts of schedules with large numbers, and with many rounds.
ghost use Rattle.std.specs.Prelude.{◌≡◌, ◌≤◌, [], ◌∷◌, IfOk};
ghost use Rattle.tests_schedules.specs.LongTables.{steady_rows};

use super::{A, row};
use sched_base::{Leaf, NoMemory, RowTable, TaskSet};
use sched_edges::MemSink;
use std::alloc::Global;
use trace_writer::{Finishes, write_met, write_trace};

#[test]
fn numbers_past_64_bits(rt: HostRuntime) {
    let mut sink = MemSink::new(rt.alloc(), 1024, &[]).expect(&rt, "there is memory");
    let mut table = RowTable::new(rt.alloc(), 1, 5).expect(&rt, "there is memory");
    table.push_round(&[row(0, 0, 18_446_744_073_709_551_615, A)]);
    table.push_round(&[row(
        0,
        18_446_744_073_709_551_615,
        18_446_744_073_709_551_616,
        Leaf::Idle(0),
    )]);
    table.push_round(&[row(
        0,
        18_446_744_073_709_551_616,
        100_000_000_000_000_000_007,
        A,
    )]);
    table.push_round(&[row(
        0,
        100_000_000_000_000_000_007,
        100_000_000_000_000_000_000_000_000_000_000_000_000,
        Leaf::Idle(0),
    )]);
    table.push_round(&[row(
        0,
        100_000_000_000_000_000_000_000_000_000_000_000_000,
        170_141_183_460_469_231_731_687_303_715_884_105_727,
        A,
    )]);
    let mut set = TaskSet::start(rt.alloc(), 1, 1);
    set.add(b"a", 1, 1).expect(&rt, "there is memory");
    let total = 70_141_183_460_469_231_831_687_303_715_884_105_733;
    assert!(rt; write_trace(&mut sink, &set, 1, &table, &[total]).is_ok());
    let text = concat!(
        "run-trace 1\nprocessors 1\nhorizon 1\nscale 1\ntasks 1\ntask a 1 1\n",
        "row 0 0 18446744073709551615 a\n",
        "row 0 18446744073709551615 18446744073709551616 -\n",
        "row 0 18446744073709551616 100000000000000000007 a\n",
        "row 0 100000000000000000007 100000000000000000000000000000000000000 -\n",
        "row 0 100000000000000000000000000000000000000 170141183460469231731687303715884105727 a\n",
        "total a 70141183460469231831687303715884105733\nrows 5\n",
    );
    assert!(rt; sink.taken() == text.as_bytes());
}

/// So many rounds of one tick each, in which task a runs on the one processor.
fn long_table(alloc: Global, rounds: u64) -> Result<RowTable, NoMemory>
    requires { rounds ≤ 1_000_000 }
    ensures { IfOk result (λ table. table.lanes ≡ steady_rows rounds ∷ []) }
{
    let mut table = RowTable::new(alloc, 1, rounds)?;
    for k in 0..rounds {
        table.push_round(&[row(0, u128::from(k), u128::from(k + 1), A)]);
    }
    Ok(table)
}

// Were each of the million periods looked up in each of the rounds, this would take minutes.
#[test]
fn many_rounds_and_many_periods(rt: HostRuntime) -> Result<(), NoMemory> {
    let mut set = TaskSet::start(rt.alloc(), 1, 1_000_000);
    set.add(b"a", 1, 1)?;
    let table = long_table(rt.alloc(), 200_000)?;
    let mut sink = MemSink::new(rt.alloc(), 30_000_000, &[])?;
    let mut finishes = Finishes::with_room(rt.alloc(), &set)?;
    assert!(rt; write_met(&mut sink, &set, 1, &table, &[200_000], &mut finishes).is_ok());
    let first =
        b"run-trace 2\nprocessors 1\nhorizon 1000000\nscale 1\ntasks 1\ntask a 1 1 0\nrow 0 0 200000 a\ntotal a 200000\nmet a 0 1\nmet a 1 2\n";
    let last = b"\nmet a 999998 999998\nmet a 999999 999999\nrows 1\n";
    assert!(rt; sink.taken().starts_with(first));
    assert!(rt; sink.taken().ends_with(last));
    Ok(())
}
