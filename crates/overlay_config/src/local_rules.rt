//! The keys of a segment that say nothing of its tunnels.
ghost use Rattle.std.specs.Prelude.{◌≡◌, ◌≤◌, length, min};
ghost use Rattle.config_text.specs.Reader.{place_of};
ghost use Rattle.overlay_config.specs.LocalRules.{local_of, members_of};

use crate::common_rules::{CommonRules, USUAL_LIMIT, read_common};
use crate::members::{MemberList, MemberPorts};
use config_text::{Reader, SettingsFault, U32Range, gather};
use overlay::flood::FloodList;
use overlay::ports::PortList;
use overlay::settings::SegmentRule;
use overlay::underlay::Tunnels;
use wire::ether::Vid;

const AGEING: U32Range = U32Range {
    low: 10,
    high: 1000000,
};

/// What a segment goes by at this endpoint, whatever its tunnels are.
#[derive(Drop)]
pub(crate) struct LocalRules {
    common: CommonRules,
    untagged: PortList,
    tagged: PortList,
}

impl LocalRules {
    ghost use Rattle.std.specs.Prelude.{◌≡◌};
    ghost use Rattle.overlay_config.specs.LocalRules.{with_tunnels};

    /// The segment of a VID with these tunnels and this flood list.
    pub(crate) fn segment(self, vid: Vid, tunnels: Tunnels, flood: FloodList) -> SegmentRule
        ensures { result ≡ with_tunnels vid tunnels flood self }
    {
        SegmentRule {
            vid,
            tunnels,
            flood,
            limit: self.common.limit,
            ageing: self.common.ageing,
            learning: self.common.learning,
            peers: self.common.peers,
            tags: self.common.tags,
            untagged: self.untagged,
            tagged: self.tagged,
        }
    }
}

/// The ports on a list of members that stand neither on it twice nor on the other list.
#[tactic(auto, unfolding(crate::specs::LocalRules::members_of))]
fn read_members(at: &Reader, key: &str, ports: u8, other: &[u8]) -> Result<PortList, SettingsFault>
    requires { length key.now ≤ 11 }
    ensures { result ≡ members_of (place_of at.now) key.now ports other.now }
{
    let column = MemberPorts { ports, other };
    match gather(&column, MemberList::new(), at.items(key)?) {
        Some(list) => Ok(list.into_ports()),
        None => Err(SettingsFault::BadValue(at.path(key))),
    }
}

/// The limit where none is given: the usual one, or the most where that is less.
fn usual_limit(entries: u32) -> u32
    ensures { result ≡ min 256 entries }
{
    USUAL_LIMIT.min(entries)
}

/// The keys from `limit` to `tagged`, of version 3 or of another one, for segments of so many entries at most and so many
/// ports.
#[tactic(auto, unfolding(crate::specs::LocalRules::local_of))]
pub(crate) fn read_local(
    at: &Reader,
    third: bool,
    entries: u32,
    ports: u8,
) -> Result<LocalRules, SettingsFault>
    ensures { result ≡ local_of third entries ports (place_of at.now) }
{
    let limits = U32Range {
        low: 1,
        high: entries,
    };
    let common = read_common(at, third, usual_limit(entries), &limits, &AGEING)?;
    let untagged = read_members(at, "untagged", ports, &[])?;
    let tagged = read_members(at, "tagged", ports, untagged.as_slice())?;
    Ok(LocalRules {
        common,
        untagged,
        tagged,
    })
}
