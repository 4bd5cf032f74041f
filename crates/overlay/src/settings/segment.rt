//! The rule of a segment.

use crate::flood::FloodList;
use crate::ports::PortList;
use crate::underlay::{PeerRule, TagRule, Tunnels};
use wire::ether::Vid;

/// A segment: a VLAN of the local ports, and the networks of its tunnels in the underlay.
#[derive(Debug, Drop)]
pub struct SegmentRule {
    /// Its VLAN identifier.
    pub vid: Vid,
    pub tunnels: Tunnels,
    /// The remotes that a frame is flooded to.
    pub flood: FloodList,
    /// The most entries that its table may have, 1 to what the limits in force say.
    pub limit: u32,
    /// For how many seconds a learned entry is live, 10 to 1,000,000.
    pub ageing: u32,
    /// Whether it learns.
    pub learning: bool,
    pub peers: PeerRule,
    pub tags: TagRule,
    /// The member ports where its frames leave without a tag.
    pub untagged: PortList,
    /// The member ports where they leave with a tag of its VID.
    pub tagged: PortList,
}
