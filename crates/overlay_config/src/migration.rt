//! Settings of version 1 as settings of version 2.
ghost use Rattle.std.specs.Prelude.{◌≡◌, ◌≢◌, IfErr, OnOk, IfOk, IsOk, IsUtf8, Err, Ok, Some};
ghost use Rattle.toml.specs.Data.{get_member};
ghost use Rattle.toml.specs.View.{view, table_view};
ghost use Rattle.toml.specs.Parse.{parse_document};
ghost use Rattle.config_text.specs.declared.fault.SettingsFault.TheVariants.{OutOfMemory};
ghost use Rattle.config_text.specs.Fault.{GivesAs, seen};
ghost use Rattle.config_text.specs.Table.{top};
ghost use Rattle.overlay_config.specs.Settings.{settings_in, version_of};
ghost use Rattle.overlay_config.specs.Document.{document};
ghost use Rattle.overlay_config.specs.Migrate.{is_one, migrated, migrated_item, migrated_list, migrated_segment};
ghost use Rattle.overlay_config.specs.Migrate.{migrated_segments, with_option, with_value, without};

use crate::document::read_document;
use crate::nesting::nests_within;
use crate::settings::{read_settings, read_version};
use crate::version::Version;
use config_text::{Reader, SettingsFault};
use std::alloc::Global;
use toml::{Table, Value};

/// How deep a table may nest whose text `toml` reads again.
const DEEPEST: usize = 80;

/// Whether settings are of version 1.
fn is_version_1(settings: &Table) -> bool
    ensures { result ≡ is_one (version_of (top (table_view settings.now))) }
{
    matches!(read_version(&Reader::top(settings)), Ok(Version::One))
}

/// Puts a value at a key.
fn put(alloc: Global, table: &mut Table, key: &str, value: Value) -> Result<(), SettingsFault>
    ensures value { OnOk result (table_view table.new ≡ with_value key.now (view value) (table_view table.old)) }
    ensures memory { IfErr result (λ e. e ≡ OutOfMemory) }
{
    table.insert(String::from_str(alloc, key)?, value)?;
    Ok(())
}

/// Moves what a key holds into another table, where it has this name. An absent key stays absent.
fn move_value(
    alloc: Global,
    from: &mut Table,
    key: &str,
    to: &mut Table,
    name: &str,
) -> Result<(), SettingsFault>
    ensures from { OnOk result (table_view from.new ≡ without key.now (table_view from.old)) }
    ensures to { OnOk result (table_view to.new ≡ with_option name.now (get_member key.now (table_view from.old)) (table_view to.old)) }
    ensures memory { IfErr result (λ e. e ≡ OutOfMemory) }
{
    match from.remove(key) {
        Some(value) => put(alloc, to, name, value),
        None => Ok(()),
    }
}

/// The table of a segment of version 1, with its tunnel as a list of one table.
fn migrate_segment(alloc: Global, segment: Table) -> Result<Table, SettingsFault>
    ensures { GivesAs table_view result (Ok (migrated_segment (table_view segment))) }
{
    let mut segment = segment;
    let mut tunnel = Table::new(alloc);
    move_value(alloc, &mut segment, "vni", &mut tunnel, "vni")?;
    move_value(alloc, &mut segment, "tunnel", &mut tunnel, "kind")?;
    move_value(alloc, &mut segment, "flood", &mut tunnel, "flood")?;
    let mut tunnels = Vec::with_capacity(alloc, 1)?;
    tunnels.push(Value::Table(tunnel))?;
    put(alloc, &mut segment, "tunnel", Value::Array(tunnels))?;
    Ok(segment)
}

/// An item of the list of segments.
fn migrate_item(alloc: Global, item: Value) -> Result<Value, SettingsFault>
    ensures { GivesAs view result (Ok (migrated_item (view item))) }
{
    match item {
        Value::Table(segment) => Ok(Value::Table(migrate_segment(alloc, segment)?)),
        other => Ok(other),
    }
}

/// The list of segments.
fn migrate_list(alloc: Global, list: Value) -> Result<Value, SettingsFault>
    ensures { GivesAs view result (Ok (migrated_list (view list))) }
{
    let items = match list {
        Value::Array(items) => items,
        other => return Ok(other),
    };
    let mut migrated = Vec::with_capacity(alloc, items.len())?;
    for item in items {
        migrated.push(migrate_item(alloc, item)?)?;
    }
    Ok(Value::Array(migrated))
}

/// The segments of settings.
fn migrate_segments(alloc: Global, settings: &mut Table) -> Result<(), SettingsFault>
    ensures value { OnOk result (table_view settings.new ≡ migrated_segments (table_view settings.old)) }
    ensures memory { IfErr result (λ e. e ≡ OutOfMemory) }
{
    match settings.remove("segment") {
        Some(list) => {
            let list = migrate_list(alloc, list)?;
            put(alloc, settings, "segment", list)
        }
        None => Ok(()),
    }
}

/// The table of settings of version 1 as one of version 2.
fn migrate_table(alloc: Global, settings: Table) -> Result<Table, SettingsFault>
    ensures { GivesAs table_view result (Ok (migrated (table_view settings))) }
{
    let mut settings = settings;
    if is_version_1(&settings) {
        migrate_segments(alloc, &mut settings)?;
        put(alloc, &mut settings, "version", Value::Integer(2))?;
    }
    Ok(settings)
}

/// The text of a table, as `toml` writes it.
fn written(alloc: Global, table: &Table) -> Result<Vec<u8>, SettingsFault>
    ensures table { GivesAs (λ t. parse_document t.items) result (Ok (Some (table_view table.now))) }
    ensures utf8 { IfOk result (λ t. IsUtf8 t.items) }
{
    // Settings nest five deep at most, and have no dates.
    if !nests_within(table, DEEPEST) {
        return Err(SettingsFault::OutOfMemory);
    }
    match toml::table_to_string(alloc, table) {
        Ok(text) => Ok(text.into_bytes()),
        Err(_) => Err(SettingsFault::OutOfMemory),
    }
}

/// Settings of version 1 as a text of version 2 that means the same: each key of the old text as it was, but `version`,
/// and in each segment `vni`, `tunnel` and `flood`, in whose place stands `tunnel` as a list of one table with `kind`,
/// `vni` and, where it was given, `flood`. Settings of versions 2 and 3 keep version and keys. The text is as `toml` writes it, its keys
/// in order: comments and the old order are lost.
///
/// The errors are those of [`settings_of`](crate::settings_of), in its order. `OutOfMemory`: memory was refused.
pub fn migrate(alloc: Global, text: &[u8]) -> Result<Vec<u8>, SettingsFault>
    ensures utf8 { IfOk result (λ t. IsUtf8 t.items) }
    ensures table { IfOk result (λ t. document t.items ≡ seen migrated (document text.now)) }
    ensures settings { IfOk result (λ t. (settings_in t.items ≡ settings_in text.now) × IsOk (settings_in text.now)) }
    ensures refused { IfErr result (λ e. e ≢ OutOfMemory → settings_in text.now ≡ Err e) }
{
    let table = read_document(alloc, text)?;
    drop(read_settings(alloc, &table)?);
    let migrated = migrate_table(alloc, table)?;
    written(alloc, &migrated)
}
