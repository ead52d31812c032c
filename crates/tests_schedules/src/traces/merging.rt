//! The merged rows of a worked set.
use super::{A, B, C, row};
use merged_rows::MergedRows;

/// Three tasks of rate 2/3 on two processors, over one period of 9 ticks: on each processor two rounds of one name are one row.
#[test]
fn three_tasks(rt: HostRuntime) {
    let mut rows = MergedRows::new(rt.alloc(), 2).expect(&rt, "there is memory");
    rows.add_round(3, &[Some(B), Some(C)])
        .expect(&rt, "there is memory");
    rows.add_round(6, &[Some(A), Some(C)])
        .expect(&rt, "there is memory");
    rows.add_round(9, &[None, Some(B)])
        .expect(&rt, "there is memory");
    assert!(rt; (rows.processors(), rows.count(0), rows.count(1)) == (2, 2, 2));
    assert!(rt;
        (
            rows.row(0, 0),
            rows.row(0, 1),
            rows.row(1, 0),
            rows.row(1, 1)
        ) == (
            row(0, 0, 3, B),
            row(0, 3, 9, A),
            row(1, 0, 6, C),
            row(1, 6, 9, B)
        )
    );
}
