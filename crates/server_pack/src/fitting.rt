//! First fit.
ghost use Rattle.std.specs.Prelude.{◌≡◌, ◌≤◌, ◌<◌, ◌^◌, ◌+◌, ℕ, [], ◌∷◌, ◌++◌, length, sum, All, IfOk, OnOk, OnErr};
ghost use Rattle.sched_base.specs.FirstFit.{first_with_room, packed, homes};
ghost use Rattle.server_pack.specs.Servers.{server_at, rates_of, rate_sum, items_of, put_in, alone, with_member, HasNoIdle, IsWithin};

use crate::members::Members;
use crate::packing::{Packing, Server};
use sched_base::NoMemory;
use std::alloc::Global;

/// Packs items of these rates: in order, each goes into the first server whose rate together with the item's is at most
/// the scale, and into a new one at the end where no server has that room.
pub fn first_fit(alloc: Global, rates: &[u128], scale: u128) -> Result<Packing, NoMemory>
    requires scale { scale ≤ 2 ^ 94 }
    requires each { All (λ rate. (1 ≤ rate) × (rate ≤ scale)) rates.now }
    requires few { length rates.now ≤ 1024 }
    ensures scale { IfOk result (λ p. p.scale ≡ scale) }
    ensures rates { IfOk result (λ p. rates_of p.servers ≡ packed scale rates.now) }
    ensures members { IfOk result (λ p. (b : ℕ) → (server_at p.servers b).members ≡ items_of (homes scale rates.now) b) }
    ensures no_idle { IfOk result (λ p. HasNoIdle p.servers) }
    ensures few { IfOk result (λ p. length p.servers ≤ length rates.now) }
    ensures sum { IfOk result (λ p. rate_sum p.servers ≡ sum rates.now) }
{
    let mut servers = Vec::new(alloc);
    for (i, rate) in rates.iter().enumerate() {
        place(alloc, &mut servers, *rate, scale, i as u32)?;
    }
    Ok(Packing { scale, servers })
}

fn place(
    alloc: Global,
    servers: &mut Vec<Server>,
    rate: u128,
    scale: u128,
    item: u32,
) -> Result<(), NoMemory>
    requires scale { scale ≤ 2 ^ 94 }
    requires within { IsWithin scale servers.old.items }
    requires rate { rate ≤ scale }
    ensures { OnOk result (servers.new.items ≡ put_in rate item (first_with_room scale rate (rates_of servers.old.items)) servers.old.items) }
{
    let home = first_room(servers, rate, scale);
    if home < servers.len() {
        join(&mut servers[home], rate, item)
    } else {
        open(alloc, servers, rate, item)
    }
}

fn first_room(servers: &[Server], rate: u128, scale: u128) -> usize
    requires scale { scale ≤ 2 ^ 94 }
    requires within { IsWithin scale servers.now }
    requires rate { rate ≤ scale }
    ensures { result ≡ first_with_room scale rate (rates_of servers.now) }
{
    for (i, server) in servers.iter().enumerate() {
        if server.rate + rate <= scale {
            return i;
        }
    }
    servers.len()
}

fn join(server: &mut Server, rate: u128, item: u32) -> Result<(), NoMemory>
    requires { server.old.rate + rate < 2 ^ 128 }
    ensures ok { OnOk result (server.new ≡ with_member server.old rate item) }
    ensures err { OnErr result (server.new ≡ server.old) }
{
    server.members.push(item)?;
    server.rate += rate;
    Ok(())
}

fn open(alloc: Global, servers: &mut Vec<Server>, rate: u128, item: u32) -> Result<(), NoMemory>
    ensures { OnOk result (servers.new.items ≡ servers.old.items ++ alone rate item ∷ []) }
{
    let mut members = Members::new(alloc);
    members.push(item)?;
    servers.push(Server {
        rate,
        members,
        idle: 0,
    })?;
    Ok(())
}
