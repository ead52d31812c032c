//! The events of a book, a byte each.
ghost use Rattle.std.specs.Prelude.{◌≡◌, ◌<◌, ◌++◌, ◌∷◌, [], length, slice_get, IfOk};
ghost use Rattle.exec_book.specs.Logs.{event_of, lane_in};

use book_machine::Event;
use sched_base::{NoMemory, ProcId};
use std::alloc::Global;
use std::marker::Model;

/// The byte of a post on lane 0. That of a take on lane p is p.
const POST: u8 = 64;

/// The byte of a halt on lane 0.
const HALT: u8 = 128;

/// The events of a book, in order.
#[derive(Drop)]
pub struct EventLog {
    bytes: Vec<u8>,
}

impl Model for EventLog {
    ghost use Rattle.std.specs.Prelude.{map, vec_capacity};
    ghost use Rattle.exec_book.specs.Logs.{LogContents, event_of};

    ghost Value = { LogContents };

    ghost view = { λ l. record { events = map event_of l.bytes.items; room = vec_capacity l.bytes } };
}

impl EventLog {
    /// No event yet, with room for that many.
    pub(crate) fn with_room(alloc: Global, events: u64) -> Result<EventLog, NoMemory>
        ensures none { IfOk result (λ l. l.events ≡ []) }
        ensures room { IfOk result (λ l. l.room ≡ events) }
    {
        Ok(EventLog {
            bytes: Vec::with_capacity(alloc, events as usize)?,
        })
    }

    /// Appends an event.
    pub(crate) fn push(&mut self, event: Event)
        requires lane { lane_in event < 64 }
        requires room { length self.old.events < self.old.room }
        ensures { self.new ≡ record self.old { events = self.old.events ++ event ∷ [] } }
    {
        self.bytes.push_reserved(byte_of(event));
    }

    /// How many events there are.
    pub fn count(&self) -> usize
        ensures { result ≡ length self.now.events }
    {
        self.bytes.len()
    }

    /// The event in place i, from 0.
    pub fn get(&self, i: usize) -> Option<Event>
        ensures { result ≡ slice_get self.now.events i }
    {
        match self.bytes.get(i) {
            Some(byte) => Some(event_of(*byte)),
            None => None,
        }
    }
}

fn byte_of(event: Event) -> u8
    requires { lane_in event < 64 }
    ensures { event_of result ≡ event }
{
    match event {
        Event::Take(p) => p.0 as u8,
        Event::Post(p) => POST + p.0 as u8,
        Event::Halt(p) => HALT + p.0 as u8,
    }
}

fn event_of(byte: u8) -> Event
    ensures { result ≡ event_of byte }
{
    if byte < POST {
        Event::Take(ProcId(u32::from(byte)))
    } else if byte < HALT {
        Event::Post(ProcId(u32::from(byte - POST)))
    } else {
        Event::Halt(ProcId(u32::from(byte - HALT)))
    }
}
