//! The greatest ends of rows, one for each period of a task. They take half of the memory where all have at most 64 bits.
ghost use Rattle.std.specs.Prelude.{◌≡◌, ◌<◌, max, length, replicate, slice_index, slice_set, IfOk, OnOk};

use std::alloc::{AllocError, Global};
use std::marker::Model;

/// Some numbers. They are short ones, until one is raised past 64 bits: then they are all long ones.
#[derive(Drop)]
pub(crate) struct Ends {
    short: Vec<u64>,
    long: Vec<u128>,
    alloc: Global,
}

impl Model for Ends {
    ghost use Rattle.std.specs.Prelude.{ℕ, List, ◌++◌};

    ghost Value = { List ℕ };

    ghost view = { λ e. e.short.items ++ e.long.items };
}

impl Ends {
    /// So many periods, of each of which the end is 0 so far.
    pub fn new(alloc: Global, count: usize) -> Result<Ends, AllocError>
        ensures { IfOk result (λ e. e ≡ replicate count 0) }
    {
        let short = vec![in alloc; 0u64; count]?;
        Ok(Ends {
            short,
            long: Vec::new(alloc),
            alloc,
        })
    }

    /// The number of periods.
    pub fn len(&self) -> usize
        ensures { result ≡ length self.now }
    {
        self.short.len() + self.long.len()
    }

    /// The end kept of period i, in ticks.
    pub fn get(&self, i: usize) -> u128
        requires { i < length self.now }
        ensures { result ≡ slice_index self.now i }
    {
        let count = self.short.len();
        if i < count {
            u128::from(self.short[i])
        } else {
            self.long[i - count]
        }
    }

    // Makes all of them long ones, and sets number i to this one.
    fn widen_with(&mut self, i: usize, end: u128) -> Result<(), AllocError>
        requires { i < length self.old }
        ensures { OnOk result (self.new ≡ slice_set self.old i end) }
    {
        let mut long = Vec::with_capacity(self.alloc, self.len())?;
        for k in 0..self.len() {
            let number = if k == i { end } else { self.get(k) };
            long.push(number)?;
        }
        self.short = Vec::new(self.alloc);
        self.long = long;
        Ok(())
    }

    /// Raises number i to this one, where it is less.
    pub fn raise(&mut self, i: usize, end: u128) -> Result<(), AllocError>
        requires { i < length self.old }
        ensures { OnOk result (self.new ≡ slice_set self.old i (max end (slice_index self.old i))) }
    {
        if end <= self.get(i) {
            return Ok(());
        }
        let count = self.short.len();
        if i >= count {
            self.long[i - count] = end;
            return Ok(());
        }
        if end > u128::from(u64::MAX) {
            return self.widen_with(i, end);
        }
        self.short[i] = end as u64;
        Ok(())
    }
}
