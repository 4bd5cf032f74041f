//! Which segment of an endpoint's settings a record is of.
ghost use Rattle.std.specs.Prelude.{◌≡◌, IfOk, map};
ghost use Rattle.capture_compare.specs.Segment.{tunnel_segment};
ghost use Rattle.capture_compare.specs.Tunnelled.{tunnelled_whole};
ghost use Rattle.record_match.specs.Kept.{told};
ghost use Rattle.overlay.specs.Settings.{tunnel_rule};
ghost use Rattle.capture_compare.specs.Segments.{frame_vid, index_of, key_segment, known, packet_segment, port_segment, pvid_at};
ghost use Rattle.capture_compare.specs.Segments.{segment_at, tag_vid, told_segment, tunnels_of, vid_by};

use crate::carried::{Tunnels, tunnelled_whole};
use crate::lonely::{Reading, RecordSegment, segment_of};
use crate::segments::reading::PlaceReading;
use overlay::ports::PortRule;
use overlay::settings::{SegmentRule, Settings};
use overlay::underlay::{Overlay, TunnelRule, Underlay};
use record_match::Seen;
use std::alloc::{AllocError, Global};
use std::marker::Model;
use wire::ether::Vid;
use wire::ip_udp::Tunnel;
use wire::vxlan::Vni;

/// The segments of settings, by the VID of a frame and by the tunnel of a packet; seen by contracts as the overlay and the ports.
/// Only [`SegmentIndex::open`] takes memory.
#[derive(Drop)]
pub struct SegmentIndex {
    under: Overlay,
    /// Port 1 stands first.
    ports: Vec<PortRule>,
    /// Those of the underlay.
    tunnels: Tunnels,
}

impl Model for SegmentIndex {
    ghost use Rattle.std.specs.Prelude.{◌≡◌};
    ghost use Rattle.capture_compare.specs.Segments.{Index, tunnels_of};
    ghost use Rattle.capture_compare.specs.Code.{index_code};

    ghost Value = { Index };

    ghost coded = { index_code };

    ghost view = { λ s. record { overlay = s.under; ports = s.ports.items } };

    ghost invariant = { λ s. s.tunnels ≡ tunnels_of s.under.underlay };
}

impl SegmentIndex {
    /// That of these settings. `AllocError`: there was no memory for it.
    pub fn open(alloc: Global, settings: Settings) -> Result<SegmentIndex, AllocError>
        ensures { IfOk result (λ index. index ≡ index_of settings) }
    {
        let told = settings.into_parts();
        let rules = tunnel_rules(alloc, told.segments)?;
        let tunnels = tunnels_of(&told.underlay)?;
        let under = Overlay::open(alloc, told.underlay, rules)?;
        Ok(SegmentIndex {
            under,
            ports: told.ports,
            tunnels,
        })
    }

    /// The tunnels that packets are looked for. `AllocError`: there was no memory for a copy of them.
    pub fn tunnels(&self) -> Result<Tunnels, AllocError>
        ensures { IfOk result (λ tunnels. tunnels ≡ tunnels_of self.now.overlay.underlay) }
    {
        tunnels_of(self.under.settings())
    }

    /// The VID of the segment that a record is of; nothing where it is of none of the settings.
    pub fn segment_at(&self, reading: PlaceReading, seen: &Seen) -> Option<Vid>
        ensures { result ≡ segment_at self.now reading (told seen.now) }
    {
        match reading {
            PlaceReading::Port(port) => self.port_segment(port, seen.octets),
            PlaceReading::Keys => self.key_segment(seen.octets),
            PlaceReading::Packets => self.packet_segment(seen),
        }
    }

    /// The segment of a frame at a port.
    fn port_segment(&self, port: u8, octets: &[u8]) -> Option<Vid>
        ensures { result ≡ port_segment self.now port octets.now }
    {
        let told = segment_of(Reading::Frame, octets);
        self.known(frame_vid(self.pvid_at(port), told))
    }

    /// The PVID of a port, where it is one of the settings.
    fn pvid_at(&self, port: u8) -> Option<Vid>
        ensures { result ≡ pvid_at self.now.ports port }
    {
        let i = usize::from(port).saturating_sub(1);
        match self.ports.as_slice().get(i) {
            Some(port) => Some(port.pvid),
            None => None,
        }
    }

    /// A VID, where there is a segment of it.
    fn known(&self, vid: Option<Vid>) -> Option<Vid>
        ensures { result ≡ known self.now.overlay vid }
    {
        let vid = vid?;
        if self.under.has(vid) { Some(vid) } else { None }
    }

    /// The segment of a packet of the underlay, by the key of what it carries.
    fn key_segment(&self, key: &[u8]) -> Option<Vid>
        ensures { result ≡ key_segment self.now key.now }
    {
        self.told_segment(segment_of(Reading::Packet, key))
    }

    /// The segment of a packet of the underlay.
    fn packet_segment(&self, seen: &Seen) -> Option<Vid>
        ensures { result ≡ packet_segment self.now (told seen.now) }
    {
        self.told_segment(told_by(&self.tunnels, seen))
    }

    /// The segment that has the tunnel of a packet.
    fn told_segment(&self, told: RecordSegment) -> Option<Vid>
        ensures { result ≡ told_segment self.now.overlay told }
    {
        match told {
            RecordSegment::Tunnel(kind, vni) => self.vid_by(kind, vni),
            RecordSegment::Untagged | RecordSegment::Vlan(_) | RecordSegment::NoTunnel => None,
        }
    }

    /// The segment that has this tunnel.
    fn vid_by(&self, kind: Tunnel, vni: Vni) -> Option<Vid>
        ensures { result ≡ vid_by self.now.overlay kind vni }
    {
        match self.under.segment_by(kind, vni) {
            Some((vid, _)) => Some(vid),
            None => None,
        }
    }
}

/// The VID of a frame that tells this, at a port with this PVID.
fn frame_vid(pvid: Option<Vid>, told: RecordSegment) -> Option<Vid>
    ensures { result ≡ frame_vid pvid told }
{
    match told {
        RecordSegment::Untagged => pvid,
        RecordSegment::Vlan(tag) => tag_vid(pvid, tag),
        RecordSegment::Tunnel(_, _) | RecordSegment::NoTunnel => None,
    }
}

/// The VID of a frame with this one in its tag: 0 gives a priority alone, and 4095 is reserved.
fn tag_vid(pvid: Option<Vid>, tag: u16) -> Option<Vid>
    ensures { result ≡ tag_vid pvid tag }
{
    if tag == 0 { pvid } else { Vid::new(tag) }
}

/// What a packet of the underlay tells.
fn told_by(tunnels: &Tunnels, seen: &Seen) -> RecordSegment
    ensures { result ≡ tunnel_segment (tunnelled_whole tunnels.now seen.now.missing seen.now.octets.now) }
{
    match tunnelled_whole(tunnels, seen.octets, seen.missing) {
        Some(carried) => RecordSegment::Tunnel(carried.kind, carried.vni),
        None => RecordSegment::NoTunnel,
    }
}

/// The tunnels of an underlay.
fn tunnels_of(underlay: &Underlay) -> Result<Tunnels, AllocError>
    ensures { IfOk result (λ tunnels. tunnels ≡ tunnels_of underlay.now) }
{
    Ok(Tunnels {
        vxlan_port: underlay.vxlan_port,
        geneve_port: underlay.geneve_port,
        known: underlay.known.clone()?,
        partial: underlay.partial,
    })
}

/// What the underlay goes by, for the segments in their order.
fn tunnel_rules(alloc: Global, segments: Vec<SegmentRule>) -> Result<Vec<TunnelRule>, AllocError>
    ensures { IfOk result (λ rules. rules.items ≡ map tunnel_rule segments.items) }
{
    let mut rules = Vec::new(alloc);
    for segment in segments {
        rules.push(TunnelRule {
            vid: segment.vid,
            tunnels: segment.tunnels,
            flood: segment.flood,
            peers: segment.peers,
            tags: segment.tags,
        })?;
    }
    Ok(rules)
}
