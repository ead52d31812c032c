//! Steps of a round by worked tables: which member is picked, and where packs are placed.
use cpu_assign::Places;
use edf_pick::{Candidate, earliest};

/// A member: the end of its window, and what is left of its due.
type Member = (u128, u128);

/// Three members, and which of them is picked.
const MEMBERS: &[(Member, Member, Member, Option<usize>)] = &[
    // a tie
    ((9, 2), (6, 1), (6, 3), Some(1)),
    // the first of the tie is done
    ((9, 2), (6, 0), (6, 3), Some(2)),
    // nothing is left
    ((9, 0), (6, 0), (0, 0), None),
    ((0, 0), (0, 0), (0, 0), None),
];

fn candidate((end, remain): Member) -> Candidate {
    Candidate { end, remain }
}

#[test]
fn picks_the_earliest_deadline(rt: HostRuntime) {
    for (number, (a, b, c, picked)) in MEMBERS.iter().enumerate() {
        let candidates = [candidate(*a), candidate(*b), candidate(*c)];
        assert!(rt; earliest(&candidates) == *picked, "members {number}");
    }
}

/// Which of three packs run in a tick, and which pack each of two processors gets.
const TICKS: &[(&[bool], &[Option<u32>])] = &[
    (&[false, true, true], &[Some(1), Some(2)]),
    (&[true, false, true], &[Some(0), Some(2)]),
    (&[true, true, false], &[Some(0), Some(1)]),
    (&[false, false, false], &[None, None]),
    (&[false, true, false], &[None, Some(1)]),
];

#[test]
fn places_tick_by_tick(rt: HostRuntime) {
    let mut places = Places::new(rt.alloc(), 3, 2).expect(&rt, "there is memory");
    for ((runs, placed), tick) in TICKS.iter().zip(0..TICKS.len()) {
        assert!(rt; runs.len() == 3);
        let mut onto = [None; 2];
        places.place(runs, &mut onto);
        assert!(rt; onto.as_slice() == *placed, "tick {tick}");
    }
}
