//! Packings: servers that hold items, and perhaps an idle client each.
ghost use Rattle.std.specs.Prelude.{◌≡◌, ◌≤◌, ◌<◌, ◌+◌, [], ◌∷◌, ◌++◌, length, slice_set, OnOk, OnErr};
ghost use Rattle.server_pack.specs.Servers.{server_at, idle_alone, with_idle, IsPacked};

use crate::members::Members;
use sched_base::NoMemory;
use std::alloc::Global;
use std::marker::Model;

/// A server of a packing.
#[derive(Drop)]
pub struct Server {
    /// The rates of its members and of its idle client together, in ticks per unit.
    pub rate: u128,
    /// The pack's members, in rising order.
    pub members: Members,
    /// The rate of its idle client, 0 where it has none.
    pub idle: u128,
}

/// Servers that hold items, none of a rate past the scale with which the packing was made.
#[derive(Drop)]
pub struct Packing {
    pub(crate) scale: u128,
    pub(crate) servers: Vec<Server>,
}

impl Model for Packing {
    ghost use Rattle.std.specs.Prelude.{◌-◌, vec_capacity, vec_len};
    ghost use Rattle.server_pack.specs.Servers.{Packed, IsPacked};

    ghost Value = { Packed };

    ghost view = { λ p. record { scale = p.scale; servers = p.servers.items; room = vec_capacity p.servers - vec_len p.servers } };

    ghost invariant = { λ p. IsPacked (record { scale = p.scale; servers = p.servers.items; room = 0 }) };
}

impl Packing {
    /// The number of servers.
    pub fn servers(&self) -> u32
        ensures value { result ≡ length self.now.servers }
        ensures kept { IsPacked self.now }
    {
        self.servers.len() as u32
    }

    /// The scale with which the packing was made, in ticks per unit.
    pub fn scale(&self) -> u128
        ensures { result ≡ self.now.scale }
    {
        self.scale
    }

    /// The rate of server s, its idle client's too.
    pub fn rate(&self, s: u32) -> u128
        requires { s < length self.now.servers }
        ensures value { result ≡ (server_at self.now.servers s).rate }
        ensures within { result ≤ self.now.scale }
        ensures kept { IsPacked self.now }
    {
        self.servers[s as usize].rate
    }

    /// The numbers of the items of server s, in rising order.
    pub fn members(&self, s: u32) -> &[u32]
        requires { s < length self.now.servers }
        ensures { result.now ≡ (server_at self.now.servers s).members }
    {
        self.servers[s as usize].members.as_slice()
    }

    /// The rate of the idle client of server s, 0 where it has none.
    pub fn idle(&self, s: u32) -> u128
        requires { s < length self.now.servers }
        ensures { result ≡ (server_at self.now.servers s).idle }
    {
        self.servers[s as usize].idle
    }

    /// Makes room for so many further servers.
    pub fn reserve(&mut self, servers: u32) -> Result<(), NoMemory>
        ensures scale { self.new.scale ≡ self.old.scale }
        ensures servers { self.new.servers ≡ self.old.servers }
        ensures ok { OnOk result (servers ≤ self.new.room) }
        ensures err { OnErr result (self.new ≡ self.old) }
    {
        self.servers.reserve(servers as usize)?;
        Ok(())
    }

    /// Gives server s an idle client of this rate.
    pub fn give_idle(&mut self, s: u32, rate: u128)
        requires server { s < length self.old.servers }
        requires none { (server_at self.old.servers s).idle ≡ 0 }
        requires some { 1 ≤ rate }
        requires fits { (server_at self.old.servers s).rate + rate ≤ self.old.scale }
        ensures { self.new ≡ record self.old { servers = slice_set self.old.servers s (with_idle (server_at self.old.servers s) rate) } }
    {
        let server = &mut self.servers[s as usize];
        server.rate += rate;
        server.idle = rate;
    }

    /// Opens a server at the end that has an idle client of this rate and no member.
    pub fn add_idle(&mut self, rate: u128)
        requires room { 1 ≤ self.old.room }
        requires few { length self.old.servers < 4096 }
        requires some { 1 ≤ rate }
        requires fits { rate ≤ self.old.scale }
        ensures scale { self.new.scale ≡ self.old.scale }
        ensures servers { self.new.servers ≡ self.old.servers ++ idle_alone rate ∷ [] }
        ensures room { self.new.room + 1 ≡ self.old.room }
    {
        let members = Members::new(*self.servers.allocator());
        self.servers.push_reserved(Server {
            rate,
            members,
            idle: rate,
        });
    }
}
