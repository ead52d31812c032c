//! What the tree of a document has where a set is written.
ghost use Rattle.std.specs.Prelude.{◌≡◌, option_map};
ghost use Rattle.toml.specs.Data.{get_member};
ghost use Rattle.toml.specs.View.{view, table_view, items_view};
ghost use Rattle.task_reader.specs.Keys.{key_text};
ghost use Rattle.task_reader.specs.Tree.{task_place, number_at, text_at, tasks_of};

use crate::keys::text_of;
use crate::refusals::{Key, Place};
use toml::Value;
use toml::value::Table;

/// The place of task i.
pub(crate) fn task_place(i: usize) -> Place
    ensures { result ≡ task_place i }
{
    Place::Task(i.min(u32::MAX as usize) as u32)
}

/// The value at a key.
pub(crate) fn value_at(table: &Table, key: Key) -> Option<&Value>
    ensures { option_map (λ v. view v.now) result ≡ get_member (key_text key) (table_view table.now) }
{
    table.get(text_of(key))
}

/// The whole number at a key, 0 where there is none.
pub(crate) fn number_at(table: &Table, key: Key) -> i64
    ensures { result ≡ number_at key (table_view table.now) }
{
    match value_at(table, key) {
        Some(value) => value.as_integer().unwrap_or(0),
        None => 0,
    }
}

/// The string at a key, empty where there is none.
pub(crate) fn text_at(table: &Table, key: Key) -> &str
    ensures { result.now ≡ text_at key (table_view table.now) }
{
    match value_at(table, key) {
        Some(value) => value.as_str().unwrap_or(""),
        None => "",
    }
}

/// The values of the array `task`, none where there is no such array.
pub(crate) fn tasks_of(top: &Table) -> &[Value]
    ensures { items_view result.now ≡ tasks_of (table_view top.now) }
{
    match value_at(top, Key::Task) {
        Some(value) => match value.as_array() {
            Some(tasks) => tasks.as_slice(),
            None => &[],
        },
        None => &[],
    }
}
