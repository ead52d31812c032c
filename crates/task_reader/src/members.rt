//! The refusals for the keys of a document and the kinds of their values.
ghost use Rattle.std.specs.Prelude.{◌≡◌, option_map, IfOk};
ghost use Rattle.toml.specs.Data.{table as as_table};
ghost use Rattle.toml.specs.View.{view, table_view, items_view};
ghost use Rattle.task_reader.specs.Tree.{Placed, placed_from};
ghost use Rattle.task_reader.specs.Members.{first_refusal, least_unknown, unknown_at, missing_key, wrong_key, flawed_keys, flawed_key, flawed_at, in_tables};

use crate::keys::{has_kind, is_known, keys_of, needed_keys_of};
use crate::refusals::{Key, KeyText, Place, ReadSet};
use crate::tree::{task_place, tasks_of, value_at};
use std::alloc::{AllocError, Global};
use toml::Value;
use toml::value::Table;

/// The first unknown key. A table's keys come in the order of their bytes.
fn least_unknown(place: Place, table: &Table) -> Option<&str>
    ensures { option_map (λ k. k.now) result ≡ least_unknown place (table_view table.now) }
{
    for (text, _value) in table.iter() {
        if !is_known(place, text.as_str()) {
            return Some(text.as_str());
        }
    }
    None
}

fn unknown_in(alloc: Global, place: Place, table: &Table) -> Result<Option<ReadSet>, AllocError>
    ensures { IfOk result (λ o. o ≡ unknown_at place (as_table (table_view table.now))) }
{
    match least_unknown(place, table) {
        None => Ok(None),
        Some(text) => Ok(Some(ReadSet::UnknownKey {
            place,
            key: KeyText::new(alloc, text)?,
        })),
    }
}

fn unknown_at(alloc: Global, place: Place, value: &Value) -> Result<Option<ReadSet>, AllocError>
    ensures { IfOk result (λ o. o ≡ unknown_at place (view value.now)) }
{
    match value.as_table() {
        Some(table) => unknown_in(alloc, place, table),
        None => Ok(None),
    }
}

fn unknown_in_tasks(alloc: Global, tasks: &[Value]) -> Result<Option<ReadSet>, AllocError>
    ensures { IfOk result (λ o. o ≡ first_refusal (λ (v : Placed). unknown_at v.place v.value) (placed_from 0 (items_view tasks.now))) }
{
    for (i, value) in tasks.iter().enumerate() {
        if let Some(refusal) = unknown_at(alloc, task_place(i), value)? {
            return Ok(Some(refusal));
        }
    }
    Ok(None)
}

/// The first unknown key of a document.
pub(crate) fn unknown(alloc: Global, top: &Table) -> Result<Option<ReadSet>, AllocError>
    ensures { IfOk result (λ o. o ≡ in_tables unknown_at (table_view top.now)) }
{
    match unknown_in(alloc, Place::Top, top)? {
        Some(refusal) => Ok(Some(refusal)),
        None => unknown_in_tasks(alloc, tasks_of(top)),
    }
}

fn missing_key(place: Place, table: &Table, key: Key) -> Option<ReadSet>
    ensures { result ≡ missing_key place (table_view table.now) key }
{
    match value_at(table, key) {
        Some(_) => None,
        None => Some(ReadSet::Missing { place, key }),
    }
}

fn wrong_key(place: Place, table: &Table, key: Key) -> Option<ReadSet>
    ensures { result ≡ wrong_key place (table_view table.now) key }
{
    match value_at(table, key) {
        Some(value) => {
            if has_kind(key, value) {
                None
            } else {
                Some(ReadSet::WrongKind { place, key })
            }
        }
        None => None,
    }
}

/// What may be wrong with a key of the format.
#[derive(Clone, Copy)]
pub(crate) enum KeyFlaw {
    Missing,
    WrongKind,
}

impl KeyFlaw {
    // The keys of a table that may have it, in their order.
    fn keys_of(self, place: Place) -> &'static [Key]
        ensures { result.now ≡ flawed_keys self place }
    {
        match self {
            KeyFlaw::Missing => needed_keys_of(place),
            KeyFlaw::WrongKind => keys_of(place),
        }
    }

    fn refusal_of(self, place: Place, table: &Table, key: Key) -> Option<ReadSet>
        ensures { result ≡ flawed_key self place (table_view table.now) key }
    {
        match self {
            KeyFlaw::Missing => missing_key(place, table, key),
            KeyFlaw::WrongKind => wrong_key(place, table, key),
        }
    }

    fn refusal_in(self, place: Place, table: &Table) -> Option<ReadSet>
        ensures { result ≡ flawed_at self place (as_table (table_view table.now)) }
    {
        for key in self.keys_of(place) {
            if let Some(refusal) = self.refusal_of(place, table, *key) {
                return Some(refusal);
            }
        }
        None
    }

    // What should be a table and isn't lacks no key.
    fn refusal_at(self, place: Place, value: &Value) -> Option<ReadSet>
        ensures { result ≡ flawed_at self place (view value.now) }
    {
        match value.as_table() {
            Some(table) => self.refusal_in(place, table),
            None => match self {
                KeyFlaw::Missing => None,
                KeyFlaw::WrongKind => Some(ReadSet::WrongKind {
                    place,
                    key: Key::Task,
                }),
            },
        }
    }
}

fn flawed_in_tasks(tasks: &[Value], flaw: KeyFlaw) -> Option<ReadSet>
    ensures { result ≡ first_refusal (λ (v : Placed). flawed_at flaw v.place v.value) (placed_from 0 (items_view tasks.now)) }
{
    for (i, value) in tasks.iter().enumerate() {
        if let Some(refusal) = flaw.refusal_at(task_place(i), value) {
            return Some(refusal);
        }
    }
    None
}

/// The first key that has this flaw.
pub(crate) fn first_flawed(top: &Table, flaw: KeyFlaw) -> Option<ReadSet>
    ensures { result ≡ in_tables (flawed_at flaw) (table_view top.now) }
{
    match flaw.refusal_in(Place::Top, top) {
        Some(refusal) => Some(refusal),
        None => flawed_in_tasks(tasks_of(top), flaw),
    }
}
