//! The table of a segment.
ghost use Rattle.std.specs.Prelude.{◌≡◌};
ghost use Rattle.overlay_config.specs.Segment.{is_alike, is_taken, segment_of};

use crate::flood::room_for;
use crate::local_rules::{LocalRules, read_local};
use crate::tunnel::{TunnelRules, read_flood, read_tunnel, read_tunnels};
use crate::version::Version;
use config_text::{Key, ListRow, Reader, SettingsFault, VidNumber};
use overlay::flood::{Own, Room};
use overlay::settings::SegmentRule;
use overlay::underlay::Limits;
use std::alloc::Global;
use wire::ether::Vid;

/// Whether a segment has this VID, or a tunnel of the kind and VNI of one of these.
fn is_alike(rule: &SegmentRule, vid: Vid, tunnels: &TunnelRules) -> bool
    ensures { result ≡ is_alike vid tunnels.now.0 rule.now }
{
    rule.vid == vid || tunnels.clash(rule)
}

/// Whether one of these segments has this VID, or a tunnel of the kind and VNI of one of these.
fn is_taken(segments: &[SegmentRule], vid: Vid, tunnels: &TunnelRules) -> bool
    ensures { result ≡ is_taken vid tunnels.now.0 segments.now }
{
    segments
        .iter()
        .any(|segment| is_alike(segment, vid, tunnels))
}

/// The table of a segment, beside the endpoint's own addresses, the limits in force and the number of the ports.
#[derive(Clone, Copy)]
pub(crate) struct SegmentRow {
    /// What the room for a long flood list is asked of.
    pub(crate) alloc: Global,
    pub(crate) version: Version,
    pub(crate) own: Own,
    pub(crate) limits: Limits,
    pub(crate) ports: u8,
}

impl SegmentRow {
    ghost use Rattle.std.specs.Prelude.{◌≡◌, ◌≤◌, [], length, IsTrue};
    ghost use Rattle.config_text.specs.Reader.{place_of};
    ghost use Rattle.overlay_config.specs.Flood.{is_roomy};
    ghost use Rattle.overlay_config.specs.Segment.{rules_of, tables_of};

    /// The keys behind `vid`: the tunnels with the flood list, and the rules that say nothing of them.
    #[tactic(auto, unfolding(crate::specs::Segment::rules_of))]
    fn read_rules(
        &self,
        at: &Reader,
        room: &mut Option<Room>,
    ) -> Result<(TunnelRules, LocalRules), SettingsFault>
        requires short { length (place_of at.now).prefix ≤ 13 }
        requires room { IsTrue (is_roomy self.now.limits.flood [] room.old) }
        ensures { result ≡ rules_of self.now.version self.now.own self.now.limits self.now.ports (place_of at.now) }
    {
        match self.version {
            Version::One => {
                let tunnel = read_tunnel(at)?;
                let local = read_local(at, false, self.limits.entries, self.ports)?;
                let flood = read_flood(at, self.own, self.limits.flood, tunnel.kind, room)?;
                Ok((TunnelRules::one(tunnel, flood), local))
            }
            Version::Two => self.read_tables(false, at, room),
            Version::Three => self.read_tables(true, at, room),
        }
    }

    /// The keys behind `vid` where each tunnel has a table of its own, in version 3 or 2.
    fn read_tables(
        &self,
        third: bool,
        at: &Reader,
        room: &mut Option<Room>,
    ) -> Result<(TunnelRules, LocalRules), SettingsFault>
        requires short { length (place_of at.now).prefix ≤ 13 }
        requires room { IsTrue (is_roomy self.now.limits.flood [] room.old) }
        ensures { result ≡ tables_of third self.now.own self.now.limits self.now.ports (place_of at.now) }
    {
        let tunnels = read_tunnels(at, self.own, self.limits.flood, room)?;
        let local = read_local(at, third, self.limits.entries, self.ports)?;
        Ok((tunnels, local))
    }
}

impl ListRow for SegmentRow {
    type Out = SegmentRule;

    ghost means = { λ r. segment_of r.version r.own r.limits r.ports };

    // `segment.4094.`, so that there is room for the tables of its tunnels.
    ghost longest = { λ _. 13 };

    #[tactic(auto, unfolding(crate::specs::Segment::segment_of))]
    fn read(&self, earlier: &[SegmentRule], at: &Reader) -> Result<SegmentRule, SettingsFault> {
        at.only(self.version.segment_keys())?;
        let vid = at.required("vid", &VidNumber)?;
        let mut room = room_for(self.alloc, self.limits.flood)?;
        let (tunnels, local) = self.read_rules(at, &mut room)?;
        if is_taken(earlier, vid, &tunnels) {
            return Err(SettingsFault::TwoSegments(Key::numbered(
                "segment",
                earlier.len() as u32 + 1,
            )));
        }
        let (tunnels, flood) = tunnels.into_parts();
        Ok(local.segment(vid, tunnels, flood))
    }
}
