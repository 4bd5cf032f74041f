//! The underlay and the segments over it.
//!
//! `Overlay::open` takes the settings by value: nothing of them is copied.
ghost use Rattle.std.specs.Prelude.{◌≡◌, ◌<◌, ◌≤◌, ◌++◌, ◌∷◌, [], Some, IfOk, IsTrue, is_ok, not, length, OnOk, OnErr};
ghost use Rattle.std.specs.Option.{option_copied, option_map};
ghost use Rattle.std.specs.FinMap.{len};
ghost use Rattle.overlay.specs.UnderlayFlood.{first, fault_of, add_faults, holds, without};
ghost use Rattle.overlay.specs.Heads.{head4_at, head6_at};
ghost use Rattle.overlay.specs.Index.{Indexes};
ghost use Rattle.overlay.specs.Overlay.{segment_at, has_segment, refuses_tags_at, flood_at, tunnel_at, segment_by, taken};
ghost use Rattle.overlay.specs.Overlay.{are_free, AreApart, told, with_segment, without_segment, with_flood};
ghost use Rattle.overlay.specs.UnderlaySettings.{own, kind_at};

use crate::flood::{FloodFault, FloodList, NotThere, Own};
use crate::underlay::heads::SegmentHeads;
use crate::underlay::places::SegmentPlaces;
use crate::underlay::vni_index::VniIndex;
use crate::underlay::{Segment, SegmentTunnel, TagRule, TunnelRule, Tunnels, Underlay};
use std::alloc::{AllocError, Global};
use std::marker::Model;
use wire::ether::Vid;
use wire::geneve::Known;
use wire::ip_udp::{Addr, Tunnel};
use wire::outer::{Template4, Template6};
use wire::vxlan::Vni;

/// The settings of the underlay, and the tunnels of at most as many segments as its limits say; seen by contracts as the
/// settings and a finite map from VID to segment.
///
/// Only [`Overlay::open`] takes memory. A segment is found by its VID by one index, and by the kind and VNI of a tunnel
/// by a binary search.
#[derive(Drop)]
pub struct Overlay {
    underlay: Underlay,
    segments: SegmentPlaces,
    /// The segments by the VNIs of their VXLAN tunnels.
    vxlan: VniIndex,
    /// The segments by the VNIs of their Geneve tunnels.
    geneve: VniIndex,
}

impl Model for Overlay {
    ghost use Rattle.wire.specs.declared.ip_udp.addr.Tunnel.TheVariants.{Vxlan, Geneve};
    ghost use Rattle.overlay.specs.Overlay.{Overlay};
    ghost use Rattle.overlay.specs.OverlayCode.{overlay_code};
    ghost use Rattle.overlay.specs.Heads.{AreHeads};
    ghost use Rattle.overlay.specs.Index.{Indexes};
    ghost use Rattle.overlay.specs.Room.{HasRoomFor};

    ghost Value = { Overlay };

    ghost coded = { overlay_code };

    ghost view = { λ u. record { underlay = u.underlay; segments = u.segments.segments } };

    ghost invariant = { λ u. Indexes Vxlan u.segments.segments u.vxlan.vids
        × Indexes Geneve u.segments.segments u.geneve.vids
        × AreHeads u.underlay u.segments
        × HasRoomFor u.underlay.limits.segments u.underlay.limits.flood u.segments u.vxlan u.geneve };
}

impl Overlay {
    /// The settings, and the segments of these rules: at most as many as the limits say, no two of which are for one VID
    /// or have tunnels of one kind and VNI. It reserves the places of so many segments, an index of all VIDs, as many places in
    /// each of the two indexes of VNIs, and for each segment a room of 512 remotes, where the limits allow a flood list more
    /// than 16. `AllocError`: there was no room for them.
    pub fn open(
        alloc: Global,
        underlay: Underlay,
        rules: Vec<TunnelRule>,
    ) -> Result<Overlay, AllocError>
        requires few { length rules.items ≤ underlay.limits.segments }
        requires apart { AreApart rules.items }
        ensures { IfOk result (λ under. under ≡ told underlay rules.items) }
    {
        let mut under = Overlay::without_segments(alloc, underlay)?;
        for rule in rules {
            under.add_segment(rule);
        }
        Ok(under)
    }

    /// The settings, and no segment yet.
    fn without_segments(alloc: Global, underlay: Underlay) -> Result<Overlay, AllocError>
        ensures { IfOk result (λ under. under ≡ told underlay []) }
    {
        let most = underlay.limits.segments;
        let flood = underlay.limits.flood;
        Ok(Overlay {
            underlay,
            segments: SegmentPlaces::open(alloc, most, flood)?,
            vxlan: VniIndex::open(alloc, most)?,
            geneve: VniIndex::open(alloc, most)?,
        })
    }

    /// The settings of the underlay.
    pub fn settings(&self) -> &Underlay
        ensures { result.now ≡ self.now.underlay }
    {
        &self.underlay
    }

    /// The endpoint's own addresses.
    pub fn own(&self) -> Own
        ensures { result ≡ own self.now.underlay }
    {
        self.underlay.own()
    }

    /// The kind of the tunnels at a UDP port, where it is a tunnel port.
    pub fn kind_at(&self, port: u16) -> Option<Tunnel>
        ensures { result ≡ kind_at self.now.underlay port }
    {
        self.underlay.kind_at(port)
    }

    /// The critical Geneve options that are accepted.
    pub fn known(&self) -> &Known
        ensures { result.now ≡ self.now.underlay.known }
    {
        &self.underlay.known
    }

    /// Whether a UDP checksum of 0 is accepted over IPv6 (RFC 6935, 5).
    pub fn zero6(&self) -> bool
        ensures { result ≡ self.now.underlay.zero6 }
    {
        self.underlay.zero6
    }

    /// How many segments there are.
    pub fn segment_count(&self) -> usize
        ensures { result ≡ len self.now.segments }
    {
        self.segments.len()
    }

    /// Whether there is a segment of this VID.
    pub fn has(&self, vid: Vid) -> bool
        ensures { result ≡ has_segment self.now vid }
    {
        self.segments.get(vid).is_some()
    }

    /// Whether the segment of this VID takes no frame whose body begins with a tag.
    pub fn refuses_tags(&self, vid: Vid) -> bool
        ensures { result ≡ refuses_tags_at self.now vid }
    {
        match self.segments.get(vid) {
            Some(segment) => segment.tags == TagRule::Never,
            None => false,
        }
    }

    /// A segment that is there.
    pub fn segment(&self, vid: Vid) -> &Segment
        requires there { IsTrue (has_segment self.now vid) }
        ensures { segment_at self.now vid ≡ Some result.now }
    {
        self.segments.get(vid).unwrap()
    }

    /// The VID and the segment whose tunnel of this kind has this VNI.
    pub fn segment_by(&self, kind: Tunnel, vni: Vni) -> Option<(Vid, &Segment)>
        ensures { option_map (λ found. (found.0, found.1.now)) result ≡ segment_by self.now kind vni }
    {
        let vid = self.index(kind).get(vni)?;
        Some((vid, self.segments.get(vid)?))
    }

    /// Whether a segment has a tunnel of this kind and VNI.
    pub fn taken(&self, kind: Tunnel, vni: Vni) -> bool
        ensures { result ≡ taken self.now kind vni }
    {
        self.index(kind).get(vni).is_some()
    }

    /// Whether no segment has a tunnel of this one's kind and VNI.
    fn is_free(&self, tunnel: SegmentTunnel) -> bool
        ensures { result ≡ not (taken self.now tunnel.kind tunnel.vni) }
    {
        !self.taken(tunnel.kind, tunnel.vni)
    }

    /// Whether no segment has a tunnel of the kind and VNI of one of these.
    pub fn are_free(&self, tunnels: &Tunnels) -> bool
        ensures { result ≡ are_free self.now tunnels.now }
    {
        let (first, second) = tunnels.both();
        match second {
            Some(second) => self.is_free(first) && self.is_free(second),
            None => self.is_free(first),
        }
    }

    /// The tunnel of a kind of the segment of this VID.
    pub fn tunnel_of(&self, vid: Vid, kind: Tunnel) -> Option<SegmentTunnel>
        ensures { result ≡ tunnel_at self.now vid kind }
    {
        self.segments.get(vid)?.tunnels.of(kind)
    }

    /// The head of the packets over IPv4 in the tunnel of a kind of the segment of this VID: there is one where there is
    /// such a tunnel and the endpoint has an IPv4 address.
    pub fn head4(&self, vid: Vid, kind: Tunnel) -> Option<&Template4>
        ensures { option_copied result ≡ head4_at self.now vid kind }
    {
        self.segments.heads(vid)?.v4(kind)
    }

    /// The same over IPv6.
    pub fn head6(&self, vid: Vid, kind: Tunnel) -> Option<&Template6>
        ensures { option_copied result ≡ head6_at self.now vid kind }
    {
        self.segments.heads(vid)?.v6(kind)
    }

    /// The flood list of a segment that is there.
    pub fn flood(&self, vid: Vid) -> &FloodList
        requires there { IsTrue (has_segment self.now vid) }
        ensures { result.now ≡ flood_at self.now vid }
    {
        &self.segment(vid).flood
    }

    /// Puts an entry last on the flood list of a segment that is there. A list that refuses stays as it was.
    pub fn add_flood(&mut self, vid: Vid, kind: Tunnel, addr: Addr) -> Result<(), FloodFault>
        requires there { IsTrue (has_segment self.old vid) }
        ensures fault { fault_of result
            ≡ first (add_faults (own self.old.underlay) self.old.underlay.limits.flood (flood_at self.old vid) kind addr) }
        ensures added { OnOk result
            (self.new ≡ with_flood self.old vid (flood_at self.old vid ++ record { tunnel = kind; addr = addr } ∷ [])) }
        ensures refused { OnErr result (self.new ≡ self.old) }
    {
        let own = self.own();
        self.segments.add_flood(vid, kind, addr, &own)
    }

    /// Takes an entry from the flood list of a segment that is there; those behind it move up. `NotThere`: it isn't on
    /// the list, which stays as it was.
    pub fn remove_flood(&mut self, vid: Vid, kind: Tunnel, addr: Addr) -> Result<(), NotThere>
        requires there { IsTrue (has_segment self.old vid) }
        ensures there { is_ok result ≡ holds (flood_at self.old vid) kind addr }
        ensures removed { OnOk result (self.new ≡ with_flood self.old vid (without (flood_at self.old vid) kind addr)) }
        ensures refused { OnErr result (self.new ≡ self.old) }
    {
        self.segments.remove_flood(vid, kind, addr)
    }

    /// Adds a segment, where there are fewer than the limits say. Its VID is new, and so are its tunnels' kinds and VNIs.
    pub fn add_segment(&mut self, rule: TunnelRule)
        requires new { IsTrue (not (has_segment self.old rule.vid)) }
        requires free { IsTrue (are_free self.old rule.tunnels) }
        requires room { len self.old.segments < self.old.underlay.limits.segments }
        ensures { self.new ≡ with_segment self.old rule }
    {
        let TunnelRule {
            vid,
            tunnels,
            flood,
            peers,
            tags,
        } = rule;
        self.vxlan.list(tunnels.of(Tunnel::Vxlan), vid);
        self.geneve.list(tunnels.of(Tunnel::Geneve), vid);
        let heads = SegmentHeads::of(&self.underlay, &tunnels);
        let segment = Segment {
            tunnels,
            flood,
            peers,
            tags,
        };
        self.segments.put(vid, segment, heads);
    }

    /// Removes a segment that is there.
    pub fn remove_segment(&mut self, vid: Vid)
        requires there { IsTrue (has_segment self.old vid) }
        ensures { self.new ≡ without_segment self.old vid }
    {
        if let Some(tunnels) = self.segments.take(vid) {
            self.vxlan.unlist(tunnels.of(Tunnel::Vxlan));
            self.geneve.unlist(tunnels.of(Tunnel::Geneve));
        }
    }

    /// The index of the tunnels of a kind.
    fn index(&self, kind: Tunnel) -> &VniIndex
        ensures { Indexes kind self.now.segments result.now.vids }
    {
        match kind {
            Tunnel::Vxlan => &self.vxlan,
            Tunnel::Geneve => &self.geneve,
        }
    }
}
