//! A table that is read key by key.
//!
//! The path of a table and its number take 20 octets at most, as `segment.4094.tunnel.2`, so that a key of 11 octets behind
//! them fits the 40 of a fault's key.
ghost use Rattle.std.specs.Prelude.{◌≡◌, ◌≤◌, length, map, nat_eq};
ghost use Rattle.std.specs.List.{list_any};
ghost use Rattle.std.specs.Cmp.Lexicographic.{pointwise};
ghost use Rattle.toml.specs.View.{table_view};
ghost use Rattle.config_text.specs.Table.{all_known};

use crate::column::Column;
use crate::fault::SettingsFault;
use crate::key::Key;
use crate::list_column::{ListColumn, gather};
use toml::{Table, Value};

/// A table, and what stands before its keys in their paths.
#[derive(Drop)]
pub struct Reader<'a> {
    /// None: an absent table, which counts as empty.
    table: Option<&'a Table>,
    prefix: Key,
    // A key of at most 11 octets behind it is a `Key`.
    ghost short: { length prefix ≤ 22 },
}

impl<'a> Reader<'a> {
    ghost use Rattle.std.specs.Prelude.{◌≡◌, ◌≤◌, ◌+◌, decimal, length, map, option_map, IfOk};
    ghost use Rattle.toml.specs.Data.{get_member};
    ghost use Rattle.toml.specs.View.{view, table_view};
    ghost use Rattle.config_text.specs.Fault.{seen};
    ghost use Rattle.config_text.specs.Table.{top, path, fits, absent, required, defaulted, optional, only};
    ghost use Rattle.config_text.specs.Table.{items, limited_items, required_items, listed, row_place, subtable};
    ghost use Rattle.config_text.specs.Reader.{place_of};

    /// At a document's table.
    pub fn top(table: &'a Table) -> Reader<'a>
        ensures { place_of result ≡ top (table_view table.now) }
    {
        Reader {
            table: Some(table),
            prefix: Key::of("", ""),
        }
    }

    /// At a table of a list, whose name and number have 20 octets at most. `BadValue` with the table's own path: the value
    /// is no table.
    pub fn row(name: &str, number: u32, value: &'a Value) -> Result<Reader<'a>, SettingsFault>
        requires { length name.now + length (decimal number) ≤ 20 }
        ensures { seen place_of result ≡ row_place name.now number (view value.now) }
    {
        let name = Key::numbered(name, number);
        match value.as_table() {
            Some(table) => Ok(Reader {
                table: Some(table),
                prefix: Key::of(name.as_str(), "."),
            }),
            None => Err(SettingsFault::BadValue(name)),
        }
    }

    /// At the table under a key, where an absent one counts as empty. `BadValue`: the value is no table.
    pub fn subtable(&self, key: &str) -> Result<Reader<'a>, SettingsFault>
        requires few { length key.now ≤ 11 }
        requires short { length (place_of self.now).prefix + length key.now ≤ 21 }
        ensures { seen place_of result ≡ subtable (place_of self.now) key.now }
    {
        let path = self.path(key);
        let table = match self.get(key) {
            None => None,
            Some(value) => match value.as_table() {
                Some(table) => Some(table),
                None => return Err(SettingsFault::BadValue(path)),
            },
        };
        Ok(Reader {
            table,
            prefix: Key::of(path.as_str(), "."),
        })
    }

    /// The path of a key.
    pub fn path(&self, key: &str) -> Key
        requires { length key.now ≤ 11 }
        ensures { result ≡ path (place_of self.now) key.now }
    {
        Key::of(self.prefix.as_str(), key)
    }

    /// The value of a key.
    fn get(&self, key: &str) -> Option<&'a Value>
        ensures { option_map (λ v. view v.now) result ≡ get_member key.now (place_of self.now).members }
    {
        match self.table {
            Some(table) => table.get(key),
            None => None,
        }
    }

    /// What a key's value means, where it means anything.
    fn fits<T: Drop>(&self, key: &str, meaning: Option<T>) -> Result<T, SettingsFault>
        requires { length key.now ≤ 11 }
        ensures { result ≡ fits (path (place_of self.now) key.now) meaning }
    {
        match meaning {
            Some(x) => Ok(x),
            None => Err(SettingsFault::BadValue(self.path(key))),
        }
    }

    /// No other keys than these. `BadValue` of the path of `*`: there is another one.
    pub fn only(&self, keys: &[&str]) -> Result<(), SettingsFault>
        ensures { result ≡ only (place_of self.now) (map (λ k. k.now) keys.now) }
    {
        match self.table {
            Some(table) if !all_known(table, keys) => Err(SettingsFault::BadValue(self.path("*"))),
            _ => Ok(()),
        }
    }

    /// A key that has to be there. `Missing`, or `BadValue` where its column refuses the value.
    pub fn required<C: Column>(&self, key: &str, column: &C) -> Result<C::Out, SettingsFault>
        requires { length key.now ≤ 11 }
        ensures { result ≡ required (place_of self.now) key.now (C.reads column.now) }
    {
        match self.get(key) {
            Some(value) => self.fits(key, column.read(value)),
            None => Err(SettingsFault::Missing(self.path(key))),
        }
    }

    /// A key that stands for a default where it is absent. `BadValue` where its column refuses the value.
    pub fn defaulted<C: Column>(
        &self,
        key: &str,
        column: &C,
        default: C::Out,
    ) -> Result<C::Out, SettingsFault>
        requires { length key.now ≤ 11 }
        ensures { result ≡ defaulted (place_of self.now) key.now (C.reads column.now) default }
    {
        match self.get(key) {
            Some(value) => self.fits(key, column.read(value)),
            None => Ok(default),
        }
    }

    /// A key that may be absent. `BadValue` where its column refuses the value.
    pub fn optional<C: Column>(
        &self,
        key: &str,
        column: &C,
    ) -> Result<Option<C::Out>, SettingsFault>
        requires { length key.now ≤ 11 }
        ensures { result ≡ optional (place_of self.now) key.now (C.reads column.now) }
    {
        match self.get(key) {
            Some(value) => Ok(Some(self.fits(key, column.read(value))?)),
            None => Ok(None),
        }
    }

    /// A key that may not be there. `BadValue`: it is, whatever its value.
    pub fn absent(&self, key: &str) -> Result<(), SettingsFault>
        requires { length key.now ≤ 11 }
        ensures { result ≡ absent (place_of self.now) key.now }
    {
        match self.get(key) {
            Some(_) => Err(SettingsFault::BadValue(self.path(key))),
            None => Ok(()),
        }
    }

    /// The items of a list, where an absent one is empty. `BadValue`: the value is no list.
    #[tactic(auto, using(crate::proofs::Items::list_of_view))]
    pub fn items(&self, key: &str) -> Result<&'a [Value], SettingsFault>
        requires { length key.now ≤ 11 }
        ensures { seen (λ v. map view v.now) result ≡ items (place_of self.now) key.now }
    {
        let Some(value) = self.get(key) else {
            return Ok(&[]);
        };
        match value.as_array() {
            Some(items) => Ok(items.as_slice()),
            None => Err(SettingsFault::BadValue(self.path(key))),
        }
    }

    /// A list of at most so many items. `OverLimit`: it has more.
    pub fn limited_items(&self, key: &str, limit: usize) -> Result<&'a [Value], SettingsFault>
        requires { length key.now ≤ 11 }
        ensures value { seen (λ v. map view v.now) result ≡ limited_items (place_of self.now) key.now limit }
        ensures few { IfOk result (λ v. length v.now ≤ limit) }
    {
        let items = self.items(key)?;
        if items.len() > limit {
            return Err(SettingsFault::OverLimit(self.path(key)));
        }
        Ok(items)
    }

    /// A list of at most so many tables, and of one at least. `Missing`: it is empty or absent.
    pub fn required_items(&self, key: &str, limit: usize) -> Result<&'a [Value], SettingsFault>
        requires { length key.now ≤ 11 }
        ensures value { seen (λ v. map view v.now) result ≡ required_items (place_of self.now) key.now limit }
        ensures few { IfOk result (λ v. length v.now ≤ limit) }
    {
        let tables = self.limited_items(key, limit)?;
        if tables.is_empty() {
            return Err(SettingsFault::Missing(self.path(key)));
        }
        Ok(tables)
    }

    /// A list of at most so many items, gathered from an empty one. `BadValue` where an item may not stand there.
    pub fn listed<L: ListColumn>(
        &self,
        key: &str,
        limit: usize,
        column: &L,
        empty: L::List,
    ) -> Result<L::List, SettingsFault>
        requires { length key.now ≤ 11 }
        ensures { result ≡ listed (place_of self.now) key.now limit (L.puts column.now) empty }
    {
        let items = self.limited_items(key, limit)?;
        self.fits(key, gather(column, empty, items))
    }
}

/// Whether the key is among these.
fn is_known(key: &str, keys: &[&str]) -> bool
    ensures { result ≡ list_any (λ k. pointwise nat_eq key.now k.now) keys.now }
{
    keys.iter().any(|k| key == *k)
}

/// Whether the table's keys are among these.
fn all_known(table: &Table, keys: &[&str]) -> bool
    ensures { result ≡ all_known (map (λ k. k.now) keys.now) (table_view table.now) }
{
    for (key, _) in table {
        if !is_known(key.as_str(), keys) {
            return false;
        }
    }
    true
}
