//! What packs show, as it is kept: a number and what it is the number of.
ghost use Rattle.std.specs.Prelude.{◌≡◌, ◌↔◌, ◌<◌, ◌^◌, IsTrue};
ghost use Rattle.merged_rounds.specs.Shown.{is_some, kind_of as shown_kind, number_of as shown_number};

use sched_base::{Leaf, TaskId};
use std::marker::Model;

// What a number is the number of. Where it is of nothing, it is 0.
#[derive(Clone, Copy, PartialEq, Eq)]
enum Kind {
    Off,
    Task,
    Idle,
    Wait,
    Empty,
}

/// What a pack shows, or nothing where it is on no processor, in 8 bytes.
#[derive(Clone, Copy)]
pub(crate) struct Shown {
    number: u32,
    kind: Kind,
}

impl Model for Shown {
    ghost use Rattle.std.specs.Prelude.{Option};
    ghost use Rattle.sched_base.specs.declared.rows.Leaf.{Leaf};

    ghost Value = { Option Leaf };

    ghost use Rattle.merged_rounds.specs.Shown.{IsPlain, kind_of, kind_and_number, number_of, shown_as};

    ghost view = { λ s. shown_as s.kind s.number };

    ghost invariant = { λ s. IsPlain s.kind s.number };

    ghost inverse = { λ o. record { number = number_of o; kind = kind_of o } };

    ghost inverse_ok = { λ s h. kind_and_number s.kind s.number h };
}

/// A pack, by its number, and what it shows, in 8 bytes.
#[derive(Drop)]
pub(crate) struct Entry {
    number: u32,
    pack: u16,
    kind: Kind,
}

impl Model for Entry {
    ghost use Rattle.merged_rounds.specs.Shown.{PackShows};

    ghost Value = { PackShows };

    ghost use Rattle.merged_rounds.specs.Shown.{IsPlain, shown_as};

    ghost view = { λ e. record { pack = e.pack; shown = shown_as e.kind e.number } };

    ghost invariant = { λ e. IsPlain e.kind e.number };
}

// The number that stands for this leaf, or for nothing.
#[inline(always)]
fn number_of(leaf: Option<Leaf>) -> u32
    ensures { result ≡ shown_number leaf }
{
    match leaf {
        Some(Leaf::Task(task) | Leaf::Wait(task)) => task.0,
        Some(Leaf::Idle(number)) => number,
        Some(Leaf::Empty) | None => 0,
    }
}

// The kind of that number.
#[inline(always)]
fn kind_of(leaf: Option<Leaf>) -> Kind
    ensures { result ≡ shown_kind leaf }
{
    match leaf {
        Some(Leaf::Task(_task)) => Kind::Task,
        Some(Leaf::Idle(_number)) => Kind::Idle,
        Some(Leaf::Wait(_task)) => Kind::Wait,
        Some(Leaf::Empty) => Kind::Empty,
        None => Kind::Off,
    }
}

impl Shown {
    /// Nothing.
    #[inline(always)]
    pub(crate) fn nothing() -> Shown
        ensures { result ≡ None }
    {
        Shown {
            number: 0,
            kind: Kind::Off,
        }
    }

    /// This leaf, or nothing.
    #[inline(always)]
    pub(crate) fn of(leaf: Option<Leaf>) -> Shown
        ensures { result ≡ leaf }
    {
        Shown {
            number: number_of(leaf),
            kind: kind_of(leaf),
        }
    }

    /// The leaf that is shown.
    #[inline(always)]
    pub(crate) fn leaf(self) -> Option<Leaf>
        ensures { result ≡ self }
    {
        let number = self.number;
        match self.kind {
            Kind::Off => None,
            Kind::Task => Some(Leaf::Task(TaskId(number))),
            Kind::Idle => Some(Leaf::Idle(number)),
            Kind::Wait => Some(Leaf::Wait(TaskId(number))),
            Kind::Empty => Some(Leaf::Empty),
        }
    }

    /// Whether something is shown.
    #[inline(always)]
    pub(crate) fn is_some(self) -> bool
        ensures { result ≡ is_some self }
    {
        self.kind != Kind::Off
    }

    /// Whether both show the same.
    #[inline(always)]
    pub(crate) fn is_same(self, other: Shown) -> bool
        ensures { IsTrue result ↔ (self ≡ other) }
    {
        self.number == other.number && self.kind == other.kind
    }
}

impl Entry {
    /// An entry of this pack, which shows this.
    #[inline(always)]
    pub(crate) fn new(pack: u32, shows: Shown) -> Entry
        requires { pack < 2 ^ 16 }
        ensures pack { result.pack ≡ pack }
        ensures shown { result.shown ≡ shows }
    {
        Entry {
            number: shows.number,
            pack: pack as u16,
            kind: shows.kind,
        }
    }

    /// The pack's number.
    #[inline(always)]
    pub(crate) fn pack(&self) -> u32
        ensures { result ≡ self.now.pack }
    {
        u32::from(self.pack)
    }

    /// What it shows.
    #[inline(always)]
    pub(crate) fn shown(&self) -> Shown
        ensures { result ≡ self.now.shown }
    {
        Shown {
            number: self.number,
            kind: self.kind,
        }
    }
}
