//! How deep arrays and tables nest.
ghost use Rattle.std.specs.Prelude.{◌≤◌, IsTrue};
ghost use Rattle.toml.specs.Data.{depth, items_depth, members_depth};
ghost use Rattle.toml.specs.View.{view, array_view, table_view};

use toml::value::Array;
use toml::{Table, Value};

/// Whether a value nests at most so deep. A value that is no array and no table nests 0 deep.
#[cycle(nesting)]
fn value_nests_within(value: &Value, levels: usize) -> bool
    ensures { IsTrue result → depth (view value.now) ≤ levels }
{
    match value {
        Value::Array(array) => levels > 0 && array_nests_within(array, levels - 1),
        Value::Table(table) => levels > 0 && nests_within(table, levels - 1),
        _ => true,
    }
}

/// Whether the items of an array nest at most so deep.
#[cycle(nesting)]
fn array_nests_within(array: &Array, levels: usize) -> bool
    ensures { IsTrue result → items_depth (array_view array.now) ≤ levels }
{
    'items: for item in array {
        if !value_nests_within(item, levels) {
            return false;
        }
    }
    true
}

/// Whether the values of a table nest at most so deep.
#[cycle(nesting)]
pub(crate) fn nests_within(table: &Table, levels: usize) -> bool
    ensures { IsTrue result → members_depth (table_view table.now) ≤ levels }
{
    'members: for (_key, member) in table.iter() {
        if !value_nests_within(member, levels) {
            return false;
        }
    }
    true
}
