//! Changes of the settings while an endpoint runs.
//!
//! A new segment is a plain value ([`NewSegment`], and `Tunnels` with it, may be copied), so that a change still is one. Its
//! limit and its ageing take 32 bits and are judged when the change is made, as the seconds of `set_ageing` are: what a text
//! of changes means doesn't rest on the settings.
ghost use Rattle.std.specs.Prelude.{◌≡◌};
ghost use Rattle.overlay.specs.Change.{named};

use crate::ports::Egress;
use crate::underlay::{PeerRule, TagRule, Tunnels};
use wire::ether::{Mac, Vid};
use wire::ip_udp::{Addr, Tunnel};

/// Where a fixed entry stands.
#[derive(Clone, Copy, Debug, PartialEq, Eq)]
pub enum Target {
    /// The local port of this number.
    Local(u8),
    /// The endpoint at this address, by the segment's tunnel of this kind; None: by its first tunnel.
    Remote(Addr, Option<Tunnel>),
}

/// A segment that comes while the endpoint runs: it has no member ports, no flood list and no entries yet.
#[derive(Clone, Copy, Debug, PartialEq, Eq)]
pub struct NewSegment {
    /// Its VLAN identifier.
    pub vid: Vid,
    pub tunnels: Tunnels,
    /// The most entries that its table may have. Whether the limits in force allow it shows when the change is made.
    pub limit: u32,
    /// For how many seconds a learned entry is live. Whether that is 10 to 1,000,000 shows when the change is made.
    pub ageing: u32,
    /// Whether it learns.
    pub learning: bool,
    pub peers: PeerRule,
    pub tags: TagRule,
}

/// A change. Whether its segment, port or tunnel is there shows when it is made.
#[derive(Clone, Copy, Debug, PartialEq, Eq)]
pub enum Change {
    /// Puts an address last on a segment's flood list. Without a kind of tunnel the segment's first one is meant.
    AddFlood {
        vid: Vid,
        addr: Addr,
        tunnel: Option<Tunnel>,
    },
    /// Takes an address from a segment's flood list.
    RemoveFlood {
        vid: Vid,
        addr: Addr,
        tunnel: Option<Tunnel>,
    },
    /// Fixes an address of a segment at a place.
    Fix {
        vid: Vid,
        mac: Mac,
        target: Target,
    },
    /// Takes a fixed address away.
    Unfix {
        vid: Vid,
        mac: Mac,
    },
    /// Sets for how many seconds a segment's learned entries are live.
    SetAgeing {
        vid: Vid,
        seconds: u32,
    },
    /// Sets whether a segment learns.
    SetLearning {
        vid: Vid,
        on: bool,
    },
    /// Sets how a segment's frames leave at a port; None: the port is no member.
    SetMember {
        vid: Vid,
        port: u8,
        egress: Option<Egress>,
    },
    /// Takes a port up.
    PortUp {
        port: u8,
    },
    /// Takes a port down.
    PortDown {
        port: u8,
    },
    /// Takes all learned entries from a segment.
    Flush {
        vid: Vid,
    },
    /// Adds a segment.
    AddSegment(NewSegment),
    /// Removes a segment, with its member ports, its flood list and all its entries.
    RemoveSegment {
        vid: Vid,
    },
    /// Sets the most entries that a segment's table may have.
    SetLimit {
        vid: Vid,
        limit: u32,
    },
}

impl Change {
    /// The VID of the segment that it names; a change of a port names none.
    pub fn vid(self) -> Option<Vid>
        ensures { result ≡ named self }
    {
        match self {
            Change::AddFlood { vid, .. }
            | Change::RemoveFlood { vid, .. }
            | Change::Fix { vid, .. }
            | Change::Unfix { vid, .. }
            | Change::SetAgeing { vid, .. }
            | Change::SetLearning { vid, .. }
            | Change::SetMember { vid, .. }
            | Change::Flush { vid }
            | Change::RemoveSegment { vid }
            | Change::SetLimit { vid, .. } => Some(vid),
            Change::AddSegment(rule) => Some(rule.vid),
            Change::PortUp { .. } | Change::PortDown { .. } => None,
        }
    }
}

/// A change at its moment.
#[derive(Clone, Copy, Debug, PartialEq, Eq)]
pub struct TimedChange {
    /// In nanoseconds, at most 4,294,967,295,999,999,999.
    pub at: u64,
    pub change: Change,
}
