//! Why bytes are refused as a task set.
ghost use Rattle.std.specs.Prelude.{◌≡◌, IfOk};

use sched_base::NoMemory;
use std::alloc::{AllocError, Global};
use std::marker::Model;

/// A key of the format.
#[derive(Clone, Copy, Debug, PartialEq, Eq)]
pub enum Key {
    Processors,
    Horizon,
    Task,
    Name,
    Work,
    Period,
    Offset,
}

/// A table of the document.
#[derive(Clone, Copy, Debug, PartialEq, Eq)]
pub enum Place {
    /// The top table.
    Top,
    /// The table of a task, by its place in the array.
    Task(u32),
}

/// The text of a key that the format doesn't have.
#[derive(Debug, Drop)]
pub struct KeyText {
    bytes: Vec<u8>,
}

impl Model for KeyText {
    ghost use Rattle.std.specs.Prelude.{ℕ, List};

    ghost Value = { List ℕ };

    ghost view = { λ k. k.bytes.items };
}

impl KeyText {
    /// A copy of the text.
    pub(crate) fn new(alloc: Global, text: &str) -> Result<KeyText, AllocError>
        ensures { IfOk result (λ k. k ≡ text.now) }
    {
        Ok(KeyText {
            bytes: Vec::from_slice(alloc, text.as_bytes())?,
        })
    }

    /// The bytes of the text, which are UTF-8.
    pub fn as_slice(&self) -> &[u8]
        ensures { result.now ≡ self.now }
    {
        self.bytes.as_slice()
    }
}

/// Why bytes are no task set. An earlier refusal comes before a later one, over the whole document. Of one refusal the
/// first place comes: the top table, and then the tasks in order; in one table the unknown keys in the order of their
/// bytes, and the known ones in the order of `Key`.
#[derive(Debug, Drop)]
pub enum ReadSet {
    /// The bytes aren't UTF-8, or no TOML document.
    NotToml,
    /// The top table has a key other than `processors`, `horizon` and `task`, or a task's table one other than `name`,
    /// `work`, `period` and `offset`.
    UnknownKey { place: Place, key: KeyText },
    /// `processors` or `horizon` is missing, or a task's `name`, `work` or `period`.
    Missing { place: Place, key: Key },
    /// The value of a key isn't of its kind, or a task is no table (its key is then `Task`).
    WrongKind { place: Place, key: Key },
    /// The processors are below 1 or above 32.
    BadProcessors { value: i64 },
    /// The horizon is below 1 or above 4,294,967,295.
    BadHorizon { value: i64 },
    /// There are more than 256 tasks.
    TooManyTasks { count: u64 },
    /// The name of task `index` isn't lawful.
    BadName { index: u32 },
    /// Task `index` has the name of an earlier one.
    SameName { index: u32 },
    /// The period of task `index` is below 1 or above 4,294,967,295.
    BadPeriod { index: u32 },
    /// The work of task `index` is below 1 or above its period.
    BadWork { index: u32 },
    /// The offset of task `index` is below 0 or above 4,294,967,295.
    BadOffset { index: u32 },
    /// Memory was refused. No clause says when.
    NoMemory,
}

impl From<NoMemory> for ReadSet {
    ghost use Rattle.std.specs.Prelude.{◌≡◌};
    ghost use Rattle.task_reader.specs.declared.refusals.ReadSet.TheVariants.{NoMemory as OutOfMemory};

    ghost from_gives = { λ _ e. e ≡ OutOfMemory };

    fn from(_: NoMemory) -> Self {
        ReadSet::NoMemory
    }
}

impl From<AllocError> for ReadSet {
    ghost use Rattle.std.specs.Prelude.{◌≡◌};
    ghost use Rattle.task_reader.specs.declared.refusals.ReadSet.TheVariants.{NoMemory};

    ghost from_gives = { λ _ e. e ≡ NoMemory };

    fn from(_: AllocError) -> Self {
        ReadSet::NoMemory
    }
}
