//! What is kept from one line to the next.
ghost use Rattle.std.specs.Prelude.{◌≡◌, ◌≤◌, ◌<◌, ◌+◌, ◌*◌, ◌^◌, ◌++◌, ◌∷◌, [], codes, length, take, decimal};
ghost use Rattle.sched_base.specs.Bytes.{space};
ghost use Rattle.trace_writer.specs.Digits.{IsFront};

use crate::digits::{EIGHT, put_block, put_eight, put_few, put_number, put_past_word, put_short};
use std::marker::Model;

/// What is in front of a number's last eight digits, and how many digits that has: 0 has none.
#[derive(Clone, Copy)]
struct Front {
    number: u64,
    len: usize,
}

/// A number as it stands in a line: its decimal digits, with a space behind them. As long as the digits before the last eight stay, these
/// alone are made anew for the next number, and as long as those before the last sixteen stay, these.
///
/// It is seen as the number.
#[derive(Drop)]
pub(crate) struct Count {
    number: u128,
    /// Of a number within 64 bits; else 0.
    front: Front,
    text: [u8; 48],
    /// How many digits there are.
    len: usize,
}

impl Model for Count {
    ghost use Rattle.std.specs.Prelude.{ℕ};
    ghost use Rattle.trace_writer.specs.Digits.{IsHeld};

    ghost Value = { ℕ };

    ghost view = { λ c. c.number };

    ghost invariant = { λ c. IsHeld c.number c.front.number c.front.len c.text c.len };
}

impl Count {
    /// 0.
    pub(crate) fn zero() -> Count
        ensures { result ≡ 0 }
    {
        let mut text = [b' '; 48];
        text[0] = b'0';
        Count {
            number: 0,
            front: Front { number: 0, len: 0 },
            text,
            len: 1,
        }
    }

    /// Mostly the number that it is.
    #[inline(always)]
    pub(crate) fn keep(&mut self, number: u128)
        ensures { self.new ≡ number }
    {
        if number != self.number {
            self.set(number);
        }
    }

    /// Another number.
    #[inline(always)]
    pub(crate) fn set(&mut self, number: u128)
        ensures { self.new ≡ number }
    {
        let (front, len) = put_digits(&mut self.text, self.front, self.len, number);
        self.text[len] = b' ';
        self.number = number;
        self.front = front;
        self.len = len;
    }

    /// Writes the digits from place `at` on, and says where they end.
    #[inline(always)]
    pub(crate) fn put(&self, bytes: &mut [u8], at: usize) -> usize
        requires room { at + 48 ≤ length bytes.old }
        ensures end { result ≤ at + 40 }
        ensures text { take result bytes.new ≡ take at bytes.old ++ decimal self.now }
    {
        let text = self.text;
        put_block(bytes, at, &text, self.len)
    }

    /// Writes the digits and the space from place `at` on, and says where they end.
    #[inline(always)]
    pub(crate) fn put_word(&self, bytes: &mut [u8], at: usize) -> usize
        requires room { at + 48 ≤ length bytes.old }
        ensures end { result ≤ at + 41 }
        ensures text { take result bytes.new ≡ take at bytes.old ++ (decimal self.now ++ space ∷ []) }
    {
        let text = self.text;
        put_block(bytes, at, &text, self.len + 1)
    }
}

// Writes the digits of a number over those of another one that has this front, and `len` digits. Says what the number's front is, and how
// many digits there are.
#[inline(always)]
fn put_digits(text: &mut [u8], front: Front, len: usize, number: u128) -> (Front, usize)
    requires room { 48 ≤ length text.old }
    requires front { IsFront front.number front.len text.old }
    ensures front { IsFront result.0.number result.0.len text.new }
    ensures within { result.0.len ≤ result.1 }
    ensures few { result.1 ≤ 40 }
    ensures text { take result.1 text.new ≡ decimal number }
{
    if number <= u128::from(u64::MAX) {
        return put_after_front(text, front, number as u64);
    }
    let len = put_past_word(text, len, number);
    (Front { number: 0, len: 0 }, len)
}

// So of a number within 64 bits.
#[inline(always)]
fn put_after_front(text: &mut [u8], front: Front, number: u64) -> (Front, usize)
    requires room { 48 ≤ length text.old }
    requires front { IsFront front.number front.len text.old }
    ensures front { IsFront result.0.number result.0.len text.new }
    ensures within { result.0.len ≤ result.1 }
    ensures few { result.1 ≤ 40 }
    ensures text { take result.1 text.new ≡ decimal number }
{
    let high = number / EIGHT;
    let low = (number - high * EIGHT) as u32;
    let front = turn_front(text, front, high);
    let len = put_last(text, front, low);
    (front, len)
}

// Writes the digits of what is in front of a number's last eight digits over those of another one.
#[inline(always)]
fn turn_front(text: &mut [u8], front: Front, number: u64) -> Front
    requires room { 48 ≤ length text.old }
    requires few { number < 10 ^ 16 }
    requires front { IsFront front.number front.len text.old }
    ensures front { IsFront result.number result.len text.new }
    ensures number { result.number ≡ number }
{
    if number == front.number {
        return front;
    }
    if EIGHT <= front.number && number / EIGHT == front.number / EIGHT {
        put_eight(text, front.len - 8, (number % EIGHT) as u32);
        return Front {
            number,
            len: front.len,
        };
    }
    let len = put_front(text, number);
    Front { number, len }
}

// Writes the digits of a number, and none of 0. How many these are.
#[inline(always)]
fn put_front(text: &mut [u8], number: u64) -> usize
    requires few { number < 10 ^ 16 }
    requires room { 48 ≤ length text.old }
    ensures { IsFront number result text.new }
{
    if number == 0 {
        return 0;
    }
    put_short(text, 0, number)
}

// Writes a number's last digits behind its front: all of them where it has no others, else eight. Says how many digits the number has.
#[inline(always)]
fn put_last(text: &mut [u8], front: Front, low: u32) -> usize
    requires room { 48 ≤ length text.old }
    requires low { low < 10 ^ 8 }
    requires front { IsFront front.number front.len text.old }
    ensures front { IsFront front.number front.len text.new }
    ensures within { front.len ≤ result }
    ensures few { result ≤ 40 }
    ensures text { take result text.new ≡ decimal (front.number * 10 ^ 8 + low) }
{
    if front.number == 0 {
        return put_few(text, 0, low);
    }
    put_eight(text, front.len, low);
    front.len + 8
}

/// The first word of a row's line and its processor, with a space after each. It is seen as the processor.
#[derive(Drop)]
pub(crate) struct Lead {
    processor: u32,
    bytes: [u8; 48],
    len: usize,
}

impl Model for Lead {
    ghost use Rattle.std.specs.Prelude.{◌≡◌, ◌≤◌, ◌++◌, ◌∷◌, [], ℕ, codes, take, decimal};
    ghost use Rattle.sched_base.specs.Bytes.{space};

    ghost Value = { ℕ };

    ghost view = { λ l. l.processor };

    ghost invariant = { λ l. (l.len ≤ 16) × (take l.len l.bytes ≡ codes "row " ++ (decimal l.processor ++ space ∷ [])) };
}

impl Lead {
    /// Of this processor.
    pub(crate) fn of(processor: u32) -> Lead
        ensures { result ≡ processor }
    {
        let mut bytes = [0; 48];
        bytes[0] = b'r';
        bytes[1] = b'o';
        bytes[2] = b'w';
        bytes[3] = b' ';
        let end = put_number(&mut bytes, 4, u128::from(processor));
        bytes[end] = b' ';
        Lead {
            processor,
            bytes,
            len: end + 1,
        }
    }

    /// Of another processor.
    pub(crate) fn set(&mut self, processor: u32)
        ensures { self.new ≡ processor }
    {
        if processor != self.processor {
            *self = Lead::of(processor);
        }
    }

    /// Writes it from place `at` on, and says where it ends.
    pub(crate) fn put(&self, bytes: &mut [u8], at: usize) -> usize
        requires room { at + 16 ≤ length bytes.old }
        ensures end { result ≤ at + 16 }
        ensures text { take result bytes.new ≡ take at bytes.old ++ (codes "row " ++ (decimal self.now ++ space ∷ [])) }
    {
        let block = self.bytes;
        put_block(bytes, at, &block[..16], self.len)
    }
}

/// What is kept from one row's line to the next: the end of a row is mostly the start of the next one.
#[derive(Drop)]
pub(crate) struct Pen {
    pub lead: Lead,
    pub tick: Count,
}

impl Pen {
    /// Before the first row.
    pub(crate) fn new() -> Pen {
        Pen {
            lead: Lead::of(0),
            tick: Count::zero(),
        }
    }
}
