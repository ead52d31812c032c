//! Idle fill: idle clients that take what the items of a packing leave of the processors.
#![tactic(auto)]

ghost use Rattle.std.specs.Prelude.{◌≡◌, ◌≤◌, ◌<◌, ◌+◌, ◌-◌, ◌*◌, ◌/◌, ◌⊎◌, ◌++◌, length, map, replicate};
ghost use Rattle.std.specs.Prelude.{slice_set, OnOk, OnErr};
ghost use Rattle.sched_base.specs.Limits.{processor_limit};
ghost use Rattle.sched_base.specs.FirstFit.{idles};
ghost use Rattle.server_pack.specs.Servers.{server_at, rates_of, rate_sum, HasNoIdle, idle_alone, with_idle, with_idles};

use sched_base::NoMemory;
use server_pack::Packing;
use std::alloc::Global;

/// Fills a packing up to the rate of so many processors. The slack is what their rates leave of `processors` times the
/// scale. Each server in order, while slack remains, gets an idle client of what it has left or of the slack, whichever
/// is less, and none where that is 0. Slack that then remains makes servers of one idle client each, at the end.
pub fn fill(
    _alloc: Global,
    packing: &mut Packing,
    processors: u32,
    scale: u128,
) -> Result<(), NoMemory>
    requires made { packing.old.scale ≡ scale }
    requires no_idle { HasNoIdle packing.old.servers }
    requires few { processors ≤ processor_limit }
    requires fits { rate_sum packing.old.servers ≤ processors * scale }
    ensures filled { OnOk result (packing.new.servers ≡ with_idles (idles scale (processors * scale - rate_sum packing.old.servers)
        (rates_of packing.old.servers)) packing.old.servers) }
    ensures sum { OnOk result (rate_sum packing.new.servers ≡ processors * scale) }
    ensures scale { packing.new.scale ≡ packing.old.scale }
    ensures err { OnErr result (packing.new ≡ packing.old) }
{
    let servers = packing.servers();
    let slack = u128::from(processors) * scale - total(packing);
    packing.reserve(processors.saturating_sub(servers))?;
    let left = top_up(packing, slack);
    if left > 0 {
        add_servers(packing, processors - servers);
    }
    Ok(())
}

/// The rates of all servers together.
fn total(packing: &Packing) -> u128
    ensures { result ≡ rate_sum packing.now.servers }
{
    let mut sum: u128 = 0;
    for s in 0..packing.servers() {
        sum += packing.rate(s);
    }
    sum
}

/// Gives each server in order an idle client, while slack remains, and says what then remains.
fn top_up(packing: &mut Packing, slack: u128) -> u128
    requires { HasNoIdle packing.old.servers }
    ensures filled { packing.new.servers ++ map idle_alone (replicate (result / packing.old.scale) packing.old.scale)
        ≡ with_idles (idles packing.old.scale slack (rates_of packing.old.servers)) packing.old.servers }
    ensures sum { rate_sum packing.new.servers + result ≡ rate_sum packing.old.servers + slack }
    ensures full { (result ≡ 0) ⊎ (rate_sum packing.new.servers ≡ length packing.new.servers * packing.old.scale) }
    ensures scale { packing.new.scale ≡ packing.old.scale }
    ensures room { packing.new.room ≡ packing.old.room }
    ensures long { length packing.new.servers ≡ length packing.old.servers }
{
    let scale = packing.scale();
    let mut left = slack;
    for s in 0..packing.servers() {
        let rate = (scale - packing.rate(s)).min(left);
        give(packing, s, rate);
        left -= rate;
    }
    left
}

/// Gives server s an idle client of this rate, or none where the rate is 0.
fn give(packing: &mut Packing, s: u32, rate: u128)
    requires server { s < length packing.old.servers }
    requires none { (server_at packing.old.servers s).idle ≡ 0 }
    requires fits { (server_at packing.old.servers s).rate + rate ≤ packing.old.scale }
    ensures { packing.new ≡ record packing.old { servers = slice_set packing.old.servers s (with_idle (server_at packing.old.servers s) rate) } }
{
    if rate > 0 {
        packing.give_idle(s, rate);
    }
}

/// Opens so many servers of one idle client each, whose rate is the scale.
fn add_servers(packing: &mut Packing, count: u32)
    requires some { 1 ≤ packing.old.scale }
    requires room { count ≤ packing.old.room }
    requires few { length packing.old.servers + count ≤ 4096 }
    ensures servers { packing.new.servers ≡ packing.old.servers ++ replicate count (idle_alone packing.old.scale) }
    ensures scale { packing.new.scale ≡ packing.old.scale }
{
    let scale = packing.scale();
    for _ in 0..count {
        packing.add_idle(scale);
    }
}
