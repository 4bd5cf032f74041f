//! The segment that a record tells.
ghost use Rattle.std.specs.Prelude.{◌≡◌, Some};
ghost use Rattle.capture_compare.specs.Segment.{frame_segment, packet_segment, segment_by};
ghost use Rattle.capture_compare.specs.Texts.{segment_text};

use crate::lonely::key_read::tunnelled_by_key;
use crate::lonely::words::{KindWord, VniWord};
use std::fmt;
use wire::ether::{EtherView, Tagging};
use wire::ip_udp::Tunnel;
use wire::vxlan::Vni;

/// What the key of a record is.
#[derive(Clone, Copy, Debug, PartialEq, Eq)]
pub enum Reading {
    /// All its octets, which are those of a frame.
    Frame,
    /// What its packet carries in a tunnel, or behind a mark all its octets.
    Packet,
}

/// The segment that a record tells. It prints as `untagged`, `vlan 20`, `vxlan 5000`, `geneve 5000` or `no tunnel`.
#[derive(Clone, Copy, Debug, PartialEq, Eq)]
pub enum RecordSegment {
    /// A frame without a tag.
    Untagged,
    /// The VID in the tag of a frame, 0 to 4095.
    Vlan(u16),
    /// The kind of a packet's tunnel, and its VNI.
    Tunnel(Tunnel, Vni),
    /// A packet of no tunnel.
    NoTunnel,
}

impl fmt::Display for RecordSegment {
    ghost output = { λ segment. Some (segment_text segment) };

    fn fmt<W: fmt::Write>(&self, f: &mut fmt::Formatter<W>) -> fmt::Result {
        match *self {
            RecordSegment::Untagged => write!(f, "untagged"),
            RecordSegment::Vlan(vid) => write!(f, "vlan {vid}"),
            RecordSegment::Tunnel(kind, vni) => {
                let kind = KindWord(kind);
                let vni = VniWord(vni);
                write!(f, "{kind} {vni}")
            }
            RecordSegment::NoTunnel => write!(f, "no tunnel"),
        }
    }
}

/// The segment that a record tells by its key.
pub fn segment_of(reading: Reading, key: &[u8]) -> RecordSegment
    ensures { result ≡ segment_by reading key.now }
{
    match reading {
        Reading::Frame => frame_segment(key),
        Reading::Packet => packet_segment(key),
    }
}

/// The segment of a frame, by the tag behind its addresses (IEEE 802.1Q, 9.6).
fn frame_segment(octets: &[u8]) -> RecordSegment
    ensures { result ≡ frame_segment octets.now }
{
    let Ok(view) = EtherView::read(octets) else {
        return RecordSegment::Untagged;
    };
    match view.split_tag() {
        Tagging::Tagged(tci, _) => RecordSegment::Vlan(tci.vid()),
        Tagging::Plain(_) | Tagging::Cut => RecordSegment::Untagged,
    }
}

/// The segment of a packet, by its key.
fn packet_segment(key: &[u8]) -> RecordSegment
    ensures { result ≡ packet_segment key.now }
{
    match tunnelled_by_key(key) {
        Some(carried) => RecordSegment::Tunnel(carried.kind, carried.vni),
        None => RecordSegment::NoTunnel,
    }
}
