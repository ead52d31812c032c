//! Tasks as a document writes them, before their limits are known.
ghost use Rattle.std.specs.Prelude.{◌≡◌, IfOk};
ghost use Rattle.toml.specs.View.{view, table_view, items_view};
ghost use Rattle.task_reader.specs.Written.{natural, written_in, written_by, written_tasks};

use crate::refusals::Key;
use crate::tree::{number_at, text_at};
use std::alloc::{AllocError, Global};
use std::marker::Model;
use toml::Value;
use toml::value::Table;

/// A task with whatever numbers stand in its table.
#[derive(Drop)]
pub(crate) struct WrittenTask {
    name: Vec<u8>,
    pub(crate) work: i64,
    pub(crate) period: i64,
    pub(crate) offset: i64,
}

impl Model for WrittenTask {
    ghost use Rattle.task_reader.specs.Written.{WrittenTask as Contents};

    ghost Value = { Contents };

    ghost view = { λ t. record { name = t.name.items; work = t.work; period = t.period; offset = t.offset } };
}

impl WrittenTask {
    /// The task of these parts.
    fn new(
        alloc: Global,
        name: &[u8],
        work: i64,
        period: i64,
        offset: i64,
    ) -> Result<WrittenTask, AllocError>
        ensures { IfOk result (λ t. t ≡ record { name = name.now; work = work; period = period; offset = offset }) }
    {
        Ok(WrittenTask {
            name: Vec::from_slice(alloc, name)?,
            work,
            period,
            offset,
        })
    }

    /// The name.
    pub fn name(&self) -> &[u8]
        ensures { result.now ≡ self.now.name }
    {
        self.name.as_slice()
    }
}

/// The number that a whole number is, 0 for one below 0.
pub(crate) fn natural(value: i64) -> u64
    ensures { result ≡ natural value }
{
    if value < 0 { 0 } else { value as u64 }
}

/// What a table writes.
fn written_in(alloc: Global, table: &Table) -> Result<WrittenTask, AllocError>
    ensures { IfOk result (λ t. t ≡ written_in (table_view table.now)) }
{
    WrittenTask::new(
        alloc,
        text_at(table, Key::Name).as_bytes(),
        number_at(table, Key::Work),
        number_at(table, Key::Period),
        number_at(table, Key::Offset),
    )
}

/// What a value of the array writes.
fn written_by(alloc: Global, value: &Value) -> Result<WrittenTask, AllocError>
    ensures { IfOk result (λ t. t ≡ written_by (view value.now)) }
{
    match value.as_table() {
        Some(table) => written_in(alloc, table),
        None => WrittenTask::new(alloc, &[], 0, 0, 0),
    }
}

/// What the values of the array write, in order.
pub(crate) fn written_tasks(alloc: Global, tasks: &[Value]) -> Result<Vec<WrittenTask>, AllocError>
    ensures { IfOk result (λ ts. ts.items ≡ written_tasks (items_view tasks.now)) }
{
    let mut written = Vec::new(alloc);
    for value in tasks {
        written.push(written_by(alloc, value)?)?;
    }
    Ok(written)
}
