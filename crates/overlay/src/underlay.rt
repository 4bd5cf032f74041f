//! What an endpoint knows of the underlay: its own addresses, the next hops, the tunnel ports and checksum rules, and the
//! tunnels of each segment with its flood list.
//!
//! Use first: [`Overlay`] has it all, with each segment found by its VID by one index, and by tunnel kind and VNI by a binary
//! search. [`Underlay`] has the settings that no change touches, and [`TunnelRule`] those of one segment.
//!
//! Specs to read: `specs/Settings` and `specs/Tunnels`, then `specs/Overlay`; `specs/Exceptions` for next hops, `specs/Heads`
//! for what packets tell in their heads.
//!
//! Proved: an endpoint opened with segments holds exactly the segments told. The segment of a VID, and that of a tunnel kind
//! and VNI, are exactly those that a search through all segments finds. Adding or removing changes one segment, and a change
//! of a flood list that list or nothing. The MAC address to send to is the group's, the exception's or the next hop's.
//!
//! Proved besides:
//! - An endpoint opened with segments, as many as its limits say at most, holds exactly the segments told, and nothing
//!   else: `Overlay::open`. It has room for so many and no more, and one comes without memory where there are fewer:
//!   `add_segment`.
//! - The segment of a VID, and that of a tunnel kind and VNI, are exactly those that a search through all segments
//!   finds, though the one is an index and the other a binary search: `segment`, `segment_by`, `taken`, `are_free`,
//!   `tunnel_of`. How many there are is told: `segment_count`.
//! - Adding or removing changes one segment: `add_segment`, `remove_segment`. A change of a flood list changes that
//!   list or nothing: `add_flood`, `remove_flood`. A list is full where it has as many remotes as the limits say,
//!   whatever the others have, and no change of one is refused for want of memory: `add_flood`. What a list takes and
//!   gives back is the room of its own place.
//!
//! Why it is so: the segments stand in as many rows as the limits in force say, behind an index of VIDs, each with the heads
//! of its packets ready-made, and one ordered index of VNIs for each kind of tunnel beside them. A head is a copy in which
//! next hop, destination, source port, lengths and checksums are filled; that each segment's heads are those of its tunnels
//! is an invariant of [`Overlay`].
//! The module stands below `encapsulate`, so that what is known of segments is proved apart from packets.

mod heads;
mod hops;
mod limits;
mod overlay;
mod places;
mod rooms;
mod segment;
mod settings;
mod tunnels;
mod vni_index;

pub use hops::Hops;
pub use limits::Limits;
pub use overlay::Overlay;
pub use segment::{PeerRule, Segment, TagRule, TunnelRule};
pub use settings::Underlay;
pub use tunnels::{SegmentTunnel, Tunnels};
