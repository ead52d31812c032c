//! The reading of a set.
ghost use Rattle.std.specs.Prelude.{◌≡◌, ◌≢◌, ◌≤◌, ◌<◌, ℕ, List, map, length, true, [], ◌∷◌, ◌++◌, Some, Ok, Err, IfOk, OnOk};
ghost use Rattle.std.specs.List.{AllByRecursion};
ghost use Rattle.std.specs.Str.{is_utf8};
ghost use Rattle.toml.specs.Data.{Members};
ghost use Rattle.toml.specs.Parse.{parse_document};
ghost use Rattle.toml.specs.View.{table_view};
ghost use Rattle.sched_base.specs.Limits.{set_limit, task_limit};
ghost use Rattle.sched_base.specs.Sets.{SetContents, IsFree, NamesDiffer, IsLawfulTask, IsLawful};
ghost use Rattle.task_reader.specs.Tree.{tasks_of};
ghost use Rattle.task_reader.specs.Written.{written_tasks, task_of};
ghost use Rattle.task_reader.specs.Reading.{set_of, top_refusals, task_refusals, refusal_of, answer_of, set_read_from};
ghost use Rattle.task_reader.specs.Members.{first_refusal};
ghost use Rattle.task_reader.specs.Writes.{Writes};

use crate::limits::{Flaw, bad_horizon, bad_processors, first_flaw, same_name, too_many};
use crate::members::{KeyFlaw, first_flawed, unknown};
use crate::refusals::{Key, ReadSet};
use crate::tree::{number_at, tasks_of};
use crate::written::{WrittenTask, natural, written_tasks};
use sched_base::{NoMemory, TaskSet};
use std::alloc::Global;
use toml::value::Table;

/// Reads a task set from the bytes of a TOML document, of which there are at most `SET_LIMIT`.
///
/// What comes is a function of the bytes, want of memory aside: the set that the document writes, or the first
/// refusal in the order of `ReadSet`.
pub fn read_set(alloc: Global, bytes: &[u8]) -> Result<TaskSet, ReadSet>
    requires { length bytes.now ≤ set_limit }
    ensures { result ≢ Err ReadSet.NoMemory → result ≡ set_read_from bytes.now }
{
    match toml::table_from_slice(alloc, bytes) {
        Ok(top) => read_document(alloc, &top),
        Err(error) => {
            if error.is_memory() {
                Err(ReadSet::NoMemory)
            } else {
                Err(ReadSet::NotToml)
            }
        }
    }
}

fn read_document(alloc: Global, top: &Table) -> Result<TaskSet, ReadSet>
    ensures { result ≢ Err ReadSet.NoMemory → result ≡ answer_of (table_view top.now) (refusal_of (table_view top.now)) }
{
    if let Some(refusal) = unknown(alloc, top)? {
        return Err(refusal);
    }
    if let Some(refusal) = top_refusal(top) {
        return Err(refusal);
    }
    if let Some(refusal) = too_many(tasks_of(top)) {
        return Err(refusal);
    }
    let tasks = written_tasks(alloc, tasks_of(top))?;
    if let Some(refusal) = task_refusal(&tasks) {
        return Err(refusal);
    }
    Ok(set_of(alloc, top, &tasks)?)
}

/// The first refusal for missing keys, for kinds, and for the numbers of the top table.
fn top_refusal(top: &Table) -> Option<ReadSet>
    ensures { result ≡ first_refusal (λ refusal. refusal) (top_refusals (table_view top.now)) }
{
    if let Some(refusal) = first_flawed(top, KeyFlaw::Missing) {
        return Some(refusal);
    }
    if let Some(refusal) = first_flawed(top, KeyFlaw::WrongKind) {
        return Some(refusal);
    }
    if let Some(refusal) = bad_processors(top) {
        return Some(refusal);
    }
    bad_horizon(top)
}

/// The first refusal for what the tasks write.
fn task_refusal(tasks: &[WrittenTask]) -> Option<ReadSet>
    requires { length tasks.now ≤ task_limit }
    ensures { result ≡ first_refusal (λ refusal. refusal) (task_refusals tasks.now) }
{
    if let Some(refusal) = first_flaw(tasks, Flaw::Name) {
        return Some(refusal);
    }
    if let Some(refusal) = same_name(tasks) {
        return Some(refusal);
    }
    if let Some(refusal) = first_flaw(tasks, Flaw::Period) {
        return Some(refusal);
    }
    if let Some(refusal) = first_flaw(tasks, Flaw::Work) {
        return Some(refusal);
    }
    first_flaw(tasks, Flaw::Offset)
}

/// The set of a document that isn't refused, whose tasks these are.
fn set_of(alloc: Global, top: &Table, tasks: &[WrittenTask]) -> Result<TaskSet, NoMemory>
    requires tasks { tasks.now ≡ written_tasks (tasks_of (table_view top.now)) }
    requires lawful { IsLawful (set_of (table_view top.now)) }
    ensures { IfOk result (λ s. s ≡ set_of (table_view top.now)) }
{
    let processors = natural(number_at(top, Key::Processors));
    let horizon = natural(number_at(top, Key::Horizon));
    let mut set = TaskSet::start(alloc, processors as u32, horizon);
    add_all(&mut set, tasks)?;
    Ok(set)
}

/// Adds the tasks to an empty set.
fn add_all(set: &mut TaskSet, tasks: &[WrittenTask]) -> Result<(), NoMemory>
    requires empty { set.old.tasks ≡ [] }
    requires few { length tasks.now ≤ task_limit }
    requires each { AllByRecursion IsLawfulTask (map task_of tasks.now) }
    requires names_differ { NamesDiffer (map task_of tasks.now) }
    ensures { OnOk result (set.new ≡ record set.old { tasks = map task_of tasks.now }) }
{
    for task in tasks {
        add(set, task)?;
    }
    Ok(())
}

/// Adds one task at the end.
fn add(set: &mut TaskSet, task: &WrittenTask) -> Result<(), NoMemory>
    requires room { length set.old.tasks < task_limit }
    requires lawful { IsLawfulTask (task_of task.now) }
    requires free { IsFree task.now.name set.old.tasks }
    ensures { OnOk result (set.new ≡ record set.old { tasks = set.old.tasks ++ task_of task.now ∷ [] }) }
{
    set.add_late(
        task.name(),
        natural(task.work),
        natural(task.period),
        natural(task.offset),
    )
}

/// Bytes are read as a set exactly where they are UTF-8, are a document whose tree writes the set, and the set is
/// lawful. In this law no key has a fallback, and no refusal an order.
pub fn reading_law()
    ensures text { (bytes : List ℕ) (s : SetContents) → set_read_from bytes ≡ Ok s → is_utf8 bytes ≡ true }
    ensures read { (bytes : List ℕ) (s : SetContents) → set_read_from bytes ≡ Ok s → (top : Members) × (parse_document bytes ≡ Some top)
        × Writes top s }
    ensures lawful { (bytes : List ℕ) (s : SetContents) → set_read_from bytes ≡ Ok s → IsLawful s }
    ensures written { (bytes : List ℕ) (top : Members) (s : SetContents) → is_utf8 bytes ≡ true → parse_document bytes ≡ Some top → Writes top s →
        IsLawful s → set_read_from bytes ≡ Ok s }
{}
