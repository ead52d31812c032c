//! A clock that goes through the periods of a task.
ghost use Rattle.std.specs.Prelude.{◌≡◌, ◌+◌, ◌*◌, ◌<◌, ◌≤◌};
ghost use Rattle.trace_verdict.specs.Clock.{period_at};

use std::marker::Model;

/// Periods of one length, and the one at which the clock stands. Near it a tick's period is found without a division.
/// Ticks in, numbers of periods out; the first period is number 0.
#[derive(Drop)]
pub struct Clock {
    /// The first tick of the first period.
    base: u128,
    /// The ticks of each period.
    span: u128,
    /// The number of the period at which the clock stands.
    number: u128,
    /// The first tick of that period.
    begin: u128,
}

impl Model for Clock {
    ghost use Rattle.std.specs.Prelude.{◌≡◌, ◌+◌, ◌*◌, ◌<◌};
    ghost use Rattle.trace_verdict.specs.Clock.{ClockState};

    ghost Value = { ClockState };

    ghost view = { λ c. record { base = c.base; span = c.span; number = c.number } };

    ghost invariant = { λ c. (0 < c.span) × (c.begin ≡ c.base + c.number * c.span) };
}

impl Clock {
    ghost use Rattle.trace_verdict.specs.Clock.{ClockState};

    /// A clock at the first of the periods of `span` ticks.
    pub fn new(base: u128, span: u128) -> Clock
        requires { 0 < span }
        ensures { result ≡ record { base = base; span = span; number = 0 } }
    {
        Clock {
            base,
            span,
            number: 0,
            begin: base,
        }
    }

    /// Goes to the period that has this tick, and tells its number.
    pub fn seek(&mut self, tick: u128) -> u128
        requires { self.old.base ≤ tick }
        ensures number { result ≡ period_at self.old.base self.old.span tick }
        ensures stands { self.new ≡ record { base = self.old.base; span = self.old.span; number = result } }
    {
        if self.begin <= tick {
            let gone = tick - self.begin;
            if gone < self.span {
                return self.number;
            }
            if gone - self.span < self.span {
                self.number += 1;
                self.begin += self.span;
                return self.number;
            }
        }
        self.number = (tick - self.base) / self.span;
        self.begin = self.base + self.number * self.span;
        self.number
    }

    /// The number of the period at which the clock stands.
    pub fn number(&self) -> u128
        ensures { result ≡ self.now.number }
    {
        self.number
    }

    /// The first tick of the period at which the clock stands.
    pub fn begin(&self) -> u128
        ensures { result ≡ self.now.base + self.now.number * self.now.span }
    {
        self.begin
    }
}
