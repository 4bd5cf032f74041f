//! The rules of a segment's tunnels.
ghost use Rattle.std.specs.Prelude.{◌≡◌};

use crate::flood::FloodList;
use crate::underlay::Tunnels;
use wire::ether::Vid;

/// Who may send to a segment.
#[derive(Clone, Copy, Debug, PartialEq, Eq)]
pub enum PeerRule {
    /// Anybody.
    Any,
    /// The remotes on its flood list alone.
    Listed,
}

/// What becomes of a frame whose body begins with a tag: in a tunnel (RFC 7348, 6.1), and at a local port.
#[derive(Clone, Copy, Debug, PartialEq, Eq)]
pub enum TagRule {
    /// In a tunnel it is dropped, on receipt and before it is sent.
    Drop,
    /// It is passed as it is.
    Pass,
    /// It is dropped in a tunnel and where it comes in at a local port, behind the tag that is taken off there.
    Never,
}

/// The tunnels of a segment, and who is behind them.
#[derive(Debug, Drop)]
pub struct Segment {
    pub tunnels: Tunnels,
    /// The remotes that a frame is flooded to.
    pub flood: FloodList,
    pub peers: PeerRule,
    pub tags: TagRule,
}

/// A segment by its VID.
#[derive(Debug, Drop)]
pub struct TunnelRule {
    pub vid: Vid,
    pub tunnels: Tunnels,
    pub flood: FloodList,
    pub peers: PeerRule,
    pub tags: TagRule,
}
