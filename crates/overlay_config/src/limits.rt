//! The table of the limits.
ghost use Rattle.std.specs.Prelude.{◌≡◌, ◌≤◌, length, IfOk};
ghost use Rattle.config_text.specs.Reader.{place_of};
ghost use Rattle.overlay_config.specs.Limits.{addresses_in, limits_in, limits_of};

use crate::version::Version;
use config_text::{Reader, SettingsFault, U8Range, U16Range, U32Range};
use overlay::underlay::Limits;

const KEYS: [&str; 6] = ["ports", "segments", "flood", "hops", "entries", "addresses"];

/// The limits where nothing else is asked for, which versions before the third always have.
const USUAL: Limits = Limits {
    ports: 16,
    segments: 256,
    flood: 16,
    hops: 64,
    entries: 8192,
    addresses: 65536,
};

/// The most ports, whose numbers are octets from 1 on.
const PORTS: U8Range = U8Range { low: 1, high: 255 };

/// The most segments, one for each VID.
const SEGMENTS: U16Range = U16Range { low: 1, high: 4094 };

/// The most remotes of a segment's flood list.
const FLOOD: U16Range = U16Range { low: 1, high: 512 };

/// The most remotes of all segments together, where each has as many as it may.
const ALL_REMOTES: u32 = 1_048_576;

/// The most next hops to single endpoints.
const HOPS: U16Range = U16Range { low: 1, high: 4096 };

/// The most entries of a segment's table.
const ENTRIES: U32Range = U32Range {
    low: 1,
    high: 131_072,
};

/// The most entries of all tables together.
const ADDRESSES: U32Range = U32Range {
    low: 1,
    high: 1_048_576,
};

/// The table of the limits. `OverLimit`: the segments would have too many remotes together.
#[tactic(auto, unfolding(crate::specs::Limits::limits_in))]
fn read_table(at: &Reader) -> Result<Limits, SettingsFault>
    ensures value { result ≡ limits_in (place_of at.now) }
    ensures most { IfOk result (λ l. l.segments ≤ 4094) }
    ensures ports { IfOk result (λ l. l.ports ≤ 255) }
{
    at.only(&KEYS)?;
    let ports = at.defaulted("ports", &PORTS, USUAL.ports)?;
    let segments = at.defaulted("segments", &SEGMENTS, USUAL.segments)?;
    let flood = at.defaulted("flood", &FLOOD, USUAL.flood)?;
    let hops = at.defaulted("hops", &HOPS, USUAL.hops)?;
    let entries = at.defaulted("entries", &ENTRIES, USUAL.entries)?;
    let addresses = at.defaulted("addresses", &ADDRESSES, USUAL.addresses)?;
    if u32::from(segments) * u32::from(flood) > ALL_REMOTES {
        return Err(SettingsFault::OverLimit(at.path("flood")));
    }
    Ok(Limits {
        ports,
        segments,
        flood,
        hops,
        entries,
        addresses,
    })
}

/// The most addresses that the limits say, or the most that limits may say where they mean nothing.
pub(crate) fn addresses_in(limits: &Result<Limits, SettingsFault>) -> u32
    ensures { result ≡ addresses_in limits.now }
{
    match limits {
        Ok(limits) => limits.addresses,
        Err(_) => ADDRESSES.high,
    }
}

/// The limits in force, in settings of a version. Those before the third have no table of them.
pub(crate) fn read_limits(version: Version, top: &Reader) -> Result<Limits, SettingsFault>
    requires { length (place_of top.now).prefix ≤ 15 }
    ensures value { result ≡ limits_of version (place_of top.now) }
    ensures most { IfOk result (λ l. l.segments ≤ 4094) }
    ensures ports { IfOk result (λ l. l.ports ≤ 255) }
{
    match version {
        Version::One | Version::Two => Ok(USUAL),
        Version::Three => read_table(&top.subtable("limits")?),
    }
}
