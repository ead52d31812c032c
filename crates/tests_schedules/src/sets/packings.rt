//! Packings of worked rates, idle clients in them, and duals.
ghost use Rattle.std.specs.Prelude.{◌≤◌, ◌^◌, ◌*◌, length, sum, All};

use dual_step::duals;
use idle_fill::fill;
use sched_base::NoMemory;
use server_pack::{Packing, first_fit};
use std::alloc::Global;
use std::process::Abort;

/// A server: its rate, that of its idle client, and its members.
type Server<'a> = (u128, u128, &'a [u32]);

/// Compares the servers.
fn assert_servers(rt: &impl Abort, packing: &Packing, servers: &[Server]) {
    assert!(rt; packing.servers() as usize == servers.len());
    for (s, (rate, idle, members)) in (0..packing.servers()).zip(servers) {
        assert!(rt; s < packing.servers());
        assert!(rt;
            (packing.rate(s), packing.idle(s), packing.members(s)) == (*rate, *idle, *members),
            "server {s}"
        );
    }
}

fn compare_packed(rt: &impl Abort, alloc: Global) {
    let alone = first_fit(alloc, &[2, 2, 2], 3).expect(rt, "there is memory");
    assert_servers(rt, &alone, &[(2, 0, &[0]), (2, 0, &[1]), (2, 0, &[2])]);
    let rates = [6, 6, 6, 6, 6, 2, 3, 3, 2];
    let shared = first_fit(alloc, &rates, 10).expect(rt, "there is memory");
    let servers: [Server; 5] = [
        (10, 0, &[0, 5, 8]),
        (9, 0, &[1, 6]),
        (9, 0, &[2, 7]),
        (6, 0, &[3]),
        (6, 0, &[4]),
    ];
    assert_servers(rt, &shared, &servers);
    let none = first_fit(alloc, &[], 1).expect(rt, "there is memory");
    assert_servers(rt, &none, &[]);
}

/// The packing of these rates, filled up to two processors.
fn filled(alloc: Global, rates: &[u128], scale: u128) -> Result<Packing, NoMemory>
    requires scale { scale ≤ 2 ^ 94 }
    requires each { All (λ rate. (1 ≤ rate) × (rate ≤ scale)) rates.now }
    requires few { length rates.now ≤ 1024 }
    requires fits { sum rates.now ≤ 2 * scale }
{
    let mut packing = first_fit(alloc, rates, scale)?;
    fill(alloc, &mut packing, 2, scale)?;
    Ok(packing)
}

fn compare_filled(rt: &impl Abort, alloc: Global) {
    let one_idle_leaf = filled(alloc, &[3, 3, 3], 5).expect(rt, "there is memory");
    assert_servers(
        rt,
        &one_idle_leaf,
        &[(4, 1, &[0]), (3, 0, &[1]), (3, 0, &[2])],
    );
    let full = filled(alloc, &[2, 2, 2], 3).expect(rt, "there is memory");
    assert_servers(rt, &full, &[(2, 0, &[0]), (2, 0, &[1]), (2, 0, &[2])]);
    let no_task = filled(alloc, &[], 1).expect(rt, "there is memory");
    assert_servers(rt, &no_task, &[(1, 1, &[]), (1, 1, &[])]);
}

/// Each of three servers leaves one of three ticks.
fn compare_duals(rt: &impl Abort, alloc: Global) {
    let rates = duals(alloc, &[2, 2, 2], 3).expect(rt, "there is memory");
    assert!(rt; rates.as_slice() == [1, 1, 1].as_slice());
}

#[test]
fn packs_and_fills(rt: HostRuntime) {
    compare_packed(&rt, rt.alloc());
    compare_filled(&rt, rt.alloc());
    compare_duals(&rt, rt.alloc());
}
