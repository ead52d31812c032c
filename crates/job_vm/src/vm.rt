//! The machine that runs a job's program, step by step.
ghost use Rattle.std.specs.Prelude.{◌≡◌, ◌≤◌, ◌<◌, ◌+◌, ◌-◌, ◌/◌, ◌%◌, ◌^◌, slice_index, slice_set};
ghost use Rattle.sched_edges.specs.JobMachine.{started, jump, obeyed, step, alone, numbers};

use crate::operations::{ADD, JUMP, JUMP_IF_ZERO, MUL, SET, SUB};
use std::marker::Model;

/// A program counter and eight registers.
#[derive(Drop)]
pub(crate) struct Vm {
    counter: u64,
    registers: [u64; 8],
}

impl Model for Vm {
    ghost use Rattle.sched_edges.specs.JobMachine.{JobMachine};

    ghost Value = { JobMachine };

    ghost view = { λ m. record { counter = m.counter; registers = m.registers } };
}

impl Vm {
    /// The machine before its first step.
    pub(crate) fn new() -> Vm
        ensures { result ≡ started }
    {
        Vm {
            counter: 0,
            registers: [0; 8],
        }
    }

    /// The counter, and the registers.
    pub(crate) fn numbers(&self) -> [u64; 9]
        ensures { result ≡ numbers self.now }
    {
        let [r0, r1, r2, r3, r4, r5, r6, r7] = self.registers;
        [self.counter, r0, r1, r2, r3, r4, r5, r6, r7]
    }

    /// Runs the program on, from so many steps to so many. It ends as soon as a step changes nothing, since then no further
    /// step does. Each change moves the counter.
    pub(crate) fn run(&mut self, code: &[u64], from: u128, to: u128)
        requires at { self.old ≡ alone code.now from }
        requires on { from ≤ to }
        ensures { self.new ≡ alone code.now to }
    {
        for _step in from..to {
            let before = self.counter();
            self.step(code);
            if self.counter() == before {
                return;
            }
        }
    }

    fn step(&mut self, code: &[u64])
        ensures { self.new ≡ step code.now self.old }
    {
        let at = self.counter() as usize;
        if at < code.len() {
            self.obey(code[at]);
        }
    }

    fn obey(&mut self, word: u64)
        requires { self.old.counter < 2 ^ 64 - 1 }
        ensures { self.new ≡ obeyed (word / 2 ^ 40) (word / 2 ^ 32 % 2 ^ 8) (word % 2 ^ 32) self.old }
    {
        let a = ((word >> 32) % 256) as usize;
        let b = word % (1 << 32);
        if a >= 8 {
            return;
        }
        match word >> 40 {
            SET => self.put(a, b),
            ADD if b < 8 => {
                let sum = self.register(a).wrapping_add(self.register(b as usize));
                self.put(a, sum);
            }
            SUB if b < 8 => {
                let difference = self.register(a).wrapping_sub(self.register(b as usize));
                self.put(a, difference);
            }
            MUL if b < 8 => {
                let product = self.register(a).wrapping_mul(self.register(b as usize));
                self.put(a, product);
            }
            JUMP_IF_ZERO if self.register(a) == 0 => self.jump(b),
            JUMP_IF_ZERO => self.jump(self.counter() + 1),
            JUMP if a == 0 => self.jump(b),
            _ => {}
        }
    }

    fn counter(&self) -> u64
        ensures { result ≡ self.now.counter }
    {
        self.counter
    }

    fn register(&self, a: usize) -> u64
        requires { a < 8 }
        ensures { result ≡ slice_index self.now.registers a }
    {
        self.registers[a]
    }

    fn jump(&mut self, to: u64)
        ensures { self.new ≡ jump to self.old }
    {
        self.counter = to;
    }

    // The register takes the number, and the counter goes on.
    fn put(&mut self, a: usize, n: u64)
        requires register { a < 8 }
        requires counter { self.old.counter < 2 ^ 64 - 1 }
        ensures { self.new ≡ record { counter = self.old.counter + 1; registers = slice_set self.old.registers a n } }
    {
        self.registers[a] = n;
        self.counter += 1;
    }
}
