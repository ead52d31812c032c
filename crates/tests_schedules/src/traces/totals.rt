//! The totals of a worked set.
use super::{A, B, C, row};
use row_totals::totals_of;
use sched_base::RowTable;

/// Three tasks of rate 2/3 on two processors, over one period of 9 ticks: each is given 6.
#[test]
fn three_tasks_are_given_six_ticks_each(rt: HostRuntime) {
    let mut table = RowTable::new(rt.alloc(), 2, 3).expect(&rt, "there is memory");
    table.push_round(&[row(0, 0, 3, B), row(1, 0, 3, C)]);
    table.push_round(&[row(0, 3, 6, A), row(1, 3, 6, C)]);
    table.push_round(&[row(0, 6, 9, A), row(1, 6, 9, B)]);
    let totals = totals_of(rt.alloc(), &table, 3).expect(&rt, "there is memory");
    assert!(rt; totals.as_slice() == [6, 6, 6].as_slice());
}
