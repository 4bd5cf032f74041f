//! Frames to the underlay and to local ports: every octet that leaves an endpoint (RFC 7348, 5; RFC 8926, 3.3).
//!
//! Use first: [`wrap`] puts a frame of a segment into the outer packet to a remote endpoint, or says why it isn't sent;
//! [`local`] is the frame at a local port. Both answer an [`Emission`], of which only the outer headers and the tag are
//! written: the rest is slices of the frame. The outer headers are copied from the heads that [`Overlay`] has ready;
//! [`FrameSums`] has what all packets with one frame share. Only [`Emission::append_to`] and [`Overlay::open`] take memory.
//!
//! Specs to read: `specs/Emission` and `specs/Packet`, then `specs/Remote`; `specs/Flow` for source ports, `specs/Fitting`
//! for sizes.
//!
//! Proved: a frame leaves at a local port plain or with its tag, and for a remote endpoint in exactly the stated packet over
//! IPv4 or IPv6, in VXLAN or Geneve, with TooBig and InnerTagOut exactly where they are said to come. Each of an emission's
//! four parts is the stated one, appending it adds these or, where memory is refused, nothing, and no memory is refused where
//! there is room. How many octets leave is told without making a head.
//!
//! Proved besides:
//! - A frame leaves at a local port plain or with its tag: `local`. The tag alone, which stands between the frame's
//!   addresses and its body: `local_tag`.
//! - For a remote endpoint it leaves in exactly the stated packet over IPv4 or IPv6, in VXLAN or Geneve; TooBig and
//!   InnerTagOut come exactly where they are said to: `wrap`. The head alone, which stands before the frame's addresses
//!   and its body: `put_head`.
//! - Each of the four parts is the stated one: the head, the frame's addresses, the tag that is put in or none, and the
//!   frame's body behind the tag that it came with: `local`, `wrap`.
//! - A frame is too big exactly where its IP packet would be longer than the MTU: `laws::fitting`.
//!
//! Why it is so: what is sent and what arrives are two crates, this one and `decapsulate`. Each has its definitions, and the
//! law on peers (`mesh_delivery::peers`) ties them. TooBig is a test on the frame's size; a law ties it to the length of the
//! whole outer packet (`laws::fitting`).
#![tactic(auto)]

mod emission;
mod flow;
pub mod laws;
mod remote;
mod sums;

pub use emission::{Emission, local, local_size, local_tag};
pub use overlay::underlay::{
    Hops, Overlay, PeerRule, Segment, SegmentTunnel, TagRule, TunnelRule, Tunnels, Underlay,
};
pub use remote::{begins_tag, headers, packet_size, put_head, unsent, wrap};
pub use sums::FrameSums;
pub use wire::outer::Head;
