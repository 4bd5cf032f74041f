//! Local ports of a bridge and their segments: which frame may enter which segment at which port (IEEE 802.1Q, 6.9 and
//! 8.6.2), and where a segment's frames leave (8.8).
//!
//! Use first: [`PortSet`] holds the ports and the members of each segment, and [`classify`] puts a frame into its segment or
//! says why it enters none. A segment is a VLAN, named by its VID. Nothing here learns or forwards.
//!
//! Specs to read: `specs/Ports`, then `specs/Ingress`; `specs/Row` for where frames leave, `specs/Setters` for changes.
//!
//! Proved: a local frame enters one segment as one frame, or is refused for the first reason that holds of Runt to NotMember,
//! with the segment from NotMember on (`laws::one_answer`). A [`Row`] tells whether frames of a segment may leave by a port
//! as the ports and members do, and its [`Walk`] tells the members alone, rising. Each setter changes its own part of these
//! alone (`laws::setters`).
//!
//! Why it is so: of two member rules for one VID the first holds, and a port on both lists of a rule is untagged. A frame of
//! type 88A8 counts as untagged. What stands for a port that isn't there is down. The members are bits of words, whose number
//! goes by the ports: 64 KiB up to 63 ports, and 256 KiB at 255.

mod ingress;
pub mod laws;
mod member;
mod port;
mod port_set;
mod row;
mod walk;
mod words;

pub use ingress::classify;
pub use member::{Egress, MemberRule, PortList};
pub use port::{Accept, PortRule};
pub use port_set::PortSet;
pub use row::Row;
pub use walk::Walk;
