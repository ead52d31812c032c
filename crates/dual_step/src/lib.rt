//! Duals: what a server leaves of each unit.
#![tactic(auto)]

ghost use Rattle.std.specs.Prelude.{◌≡◌, ◌<◌, ◌-◌, map, All, IfOk};

use sched_base::NoMemory;
use std::alloc::Global;
use std::marker::Model;

/// Rates, in ticks per unit.
#[derive(Drop)]
pub struct Rates(Vec<u128>);

impl Model for Rates {
    ghost use Rattle.std.specs.Prelude.{ℕ, List};

    ghost Value = { List ℕ };

    ghost view = { λ r. r.0.items };
}

impl Rates {
    /// The rates, in order.
    pub fn as_slice(&self) -> &[u128]
        ensures { result.now ≡ self.now }
    {
        self.0.as_slice()
    }
}

/// The rate of the dual of each server, by the servers' rates: the scale less the server's rate.
pub fn duals(alloc: Global, servers: &[u128], scale: u128) -> Result<Rates, NoMemory>
    requires { All (λ rate. (0 < rate) × (rate < scale)) servers.now }
    ensures { IfOk result (λ duals. duals ≡ map (λ rate. scale - rate) servers.now) }
{
    let mut rates = Vec::with_capacity(alloc, servers.len())?;
    for rate in servers {
        rates.push_reserved(scale - *rate);
    }
    Ok(Rates(rates))
}
