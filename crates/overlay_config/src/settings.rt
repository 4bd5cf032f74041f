//! The settings of an endpoint, from their text.
//!
//! The pool, what the limits may sum to, is a key of its own. Its default is the sum of the limits, so a text without it
//! means what it meant before there was the key: a segment can come only when another one goes or gets a smaller limit.
ghost use Rattle.std.specs.Prelude.{◌≡◌, IfOk, Ok, Err, ℕ, ◌+◌, ◌<◌, ◌≤◌, ◌^◌, sum, map, length};
ghost use Rattle.toml.specs.View.{table_view};
ghost use Rattle.overlay_config.specs.Fault.{Gives, GivesAs};
ghost use Rattle.config_text.specs.Reader.{place_of};
ghost use Rattle.overlay.specs.Settings.{sum_of_limits};
ghost use Rattle.overlay_config.specs.Settings.{given_pool_of, is_third, top_keys, pool_for};
ghost use Rattle.overlay_config.specs.Settings.{segments_of, settings_in, settings_of, version_of};

use crate::document::read_document;
use crate::limits::{addresses_in, read_limits};
use crate::port::PortRow;
use crate::segment::SegmentRow;
use crate::underlay_table::read_underlay;
use crate::version::Version;
use config_text::{Key, Reader, SettingsFault, U8Range, U32Range, read_rows};
use overlay::flood::Own;
use overlay::settings::{Parts, SegmentRule, Settings};
use overlay::underlay::Limits;
use std::alloc::Global;
use toml::Table;

const KEYS: [&str; 5] = ["version", "pool", "underlay", "port", "segment"];

/// The keys of version 3.
const KEYS_THREE: [&str; 6] = ["version", "pool", "limits", "underlay", "port", "segment"];

/// The number of version 3.
const THIRD: U8Range = U8Range { low: 3, high: 3 };

/// The sum of the segments' limits.
fn sum_of_limits(segments: &[SegmentRule]) -> u64
    requires { length segments.now ≤ 4094 }
    ensures { result ≡ sum_of_limits segments.now }
{
    let mut total: u64 = 0;
    for segment in segments {
        total += u64::from(segment.limit);
    }
    total
}

/// The segments, beside the limits in force, the endpoint's own addresses and the number of its ports.
#[tactic(auto, unfolding(crate::specs::Settings::segments_of))]
fn read_segments(
    alloc: Global,
    version: Version,
    limits: Limits,
    own: Own,
    ports: u8,
    top: &Reader,
) -> Result<Vec<SegmentRule>, SettingsFault>
    requires { limits.segments ≤ 4094 }
    ensures value { GivesAs (λ v. v.items) result (segments_of version limits own ports (place_of top.now)) }
    ensures few { IfOk result (λ v. length v.items ≤ 4094) }
    ensures sum { IfOk result (λ v. sum_of_limits v.items ≤ limits.addresses) }
{
    let row = SegmentRow {
        alloc,
        version,
        own,
        limits,
        ports,
    };
    let tables = top.required_items("segment", usize::from(limits.segments))?;
    let segments = read_rows(alloc, &row, "segment", tables)?;
    if sum_of_limits(segments.as_slice()) > u64::from(limits.addresses) {
        return Err(SettingsFault::OverLimit(Key::of("", "limit")));
    }
    Ok(segments)
}

/// The pool for these segments: the one that is given, or else the sum of their limits. `OverLimit`: they sum to more than
/// is given.
fn pool_for(given: Option<u32>, segments: &[SegmentRule]) -> Result<u32, SettingsFault>
    requires few { length segments.now ≤ 4094 }
    requires sum { sum_of_limits segments.now < 2 ^ 32 }
    ensures { result ≡ pool_for given segments.now }
{
    let sum = sum_of_limits(segments) as u32;
    match given {
        None => Ok(sum),
        Some(pool) if pool < sum => Err(SettingsFault::OverLimit(Key::of("", "pool"))),
        Some(pool) => Ok(pool),
    }
}

/// Whether the value of `version` is 3, whatever other keys there are.
fn is_third(top: &Reader) -> bool
    ensures { result ≡ is_third (place_of top.now) }
{
    matches!(top.optional("version", &THIRD), Ok(Some(_)))
}

/// The keys at the top, of version 3 or of another one.
fn top_keys(third: bool) -> &'static [&'static str]
    ensures { map (λ k. k.now) result.now ≡ top_keys third }
{
    if third { &KEYS_THREE } else { &KEYS }
}

/// The version, asked behind the names of the keys alone, which say `limits` only where it is the third.
#[tactic(auto, unfolding(crate::specs::Settings::version_of))]
pub(crate) fn read_version(top: &Reader) -> Result<Version, SettingsFault>
    ensures { result ≡ version_of (place_of top.now) }
{
    top.only(top_keys(is_third(top)))?;
    let number = top.required("version", &U8Range { low: 1, high: 3 })?;
    Ok(Version::named(number))
}

/// The pool, where it is given, beside the most that it may be.
fn read_given_pool(top: &Reader, most: u32) -> Result<Option<u32>, SettingsFault>
    ensures { result ≡ given_pool_of most (place_of top.now) }
{
    top.optional("pool", &U32Range { low: 1, high: most })
}

/// The parts of the settings that a document's table means.
#[tactic(auto, unfolding(crate::specs::Settings::settings_of))]
fn read_parts(alloc: Global, table: &Table) -> Result<Parts, SettingsFault>
    ensures { Gives result (settings_of (table_view table.now)) }
{
    let top = Reader::top(table);
    let version = read_version(&top)?;
    let limits = read_limits(version, &top);
    let given = read_given_pool(&top, addresses_in(&limits))?;
    let limits = limits?;
    let underlay = read_underlay(alloc, version, limits, &top.subtable("underlay")?)?;
    let tables = top.required_items("port", usize::from(limits.ports))?;
    let ports = read_rows(alloc, &PortRow, "port", tables)?;
    let own = underlay.own();
    let segments = read_segments(alloc, version, limits, own, ports.len() as u8, &top)?;
    let pool = pool_for(given, segments.as_slice())?;
    Ok(Parts {
        underlay,
        ports,
        segments,
        pool,
    })
}

/// The settings that a document's table means.
pub(crate) fn read_settings(alloc: Global, table: &Table) -> Result<Settings, SettingsFault>
    ensures { Gives result (settings_of (table_view table.now)) }
{
    let parts = read_parts(alloc, table)?;
    Ok(Settings::new(parts))
}

/// The settings that a text means, or its first fault: `NotToml` where the text isn't UTF-8 or no TOML document, then
/// the faults of its keys in the order of `docs/FORMATS.md`, in each table `BadValue` for a key that it doesn't have
/// before those that it has, and last `OverLimit` for the sum of the limits, then for a pool that is given and is less.
/// `OutOfMemory`: memory was refused.
pub fn settings_of(alloc: Global, text: &[u8]) -> Result<Settings, SettingsFault>
    ensures { Gives result (settings_in text.now) }
{
    read_settings(alloc, &read_document(alloc, text)?)
}
