//! What a tunnel endpoint holds, and what a change does to it: its ports and the members of its segments (IEEE 802.1Q), its
//! underlay with each segment's tunnels and flood list (RFC 7348, RFC 8926), the segments' tables, and which of them learn.
//!
//! Use first: [`EndpointState`] is opened with settings, a [`Change`] is made to it or refused with a [`ChangeFault`]
//! ([`CHANGE_FAULTS`] lists them), and it steps the bridge of a segment for a frame. It knows no header of a packet.
//!
//! Specs to read: `specs/Settings` and `specs/State`, then `specs/Change` and `specs/Effect`; `specs/Step` for the bridge's
//! step, and `specs/Work` for what a change costs of the tables at most.
//!
//! Proved: a change is refused for the first cause in the documented order, or made exactly as documented, in the settings
//! and in each segment's table; a refused one changes nothing (`laws::changes`). A step learns and answers as the bridge of
//! its segment, and no other segment changes. What is dead at an earlier moment stays dead (`laws::ageing`). Whatever stands in
//! the tables, a step is at most two calls of them, and a change as many as its kind says.
//!
//! Proved besides:
//! - A change is refused for the first cause in the documented order, or made exactly as documented, in the settings
//!   and in each segment's table: `EndpointState::change`. A segment more than the limits in force say is refused as
//!   SegmentsFull, and a limit of more entries than they say as OutOfRange.
//! - A segment that comes is empty, whatever one of its VID had, and one that goes leaves nothing but PVIDs; a refused
//!   change changes nothing: `laws::changes`.
//! - Whatever stands in the tables, a step makes at most two calls of them, which compare an address at most 122 times.
//!   A change makes at most as many as its kind says: one where it names a segment and may change its table, 4,094
//!   where a port goes down, and else none; only `fix` and `unfix` compare an address, at most 61 times: `step`,
//!   `change`, `specs/Work`.
//! - Its live entries are listed exactly: `entries`.
//! - What a table has of an address, how many entries it has, and what it would have of a frame's destination are told
//!   of it as it stands (`entry`, `entry_count`, `destination`), and where a step would send a frame is told without
//!   making it (`foresee`), all four without memory.
//!
//! Why it is so: it stands below the endpoint's steps, so that changes are proved apart from packets, and is written over
//! the trait of tables, with one pool of slots behind it. Settings in force are one readable record, put together in the
//! definitions alone: limit and ageing stand with the tables, tunnels and flood list with the underlay, members with the
//! ports, so that no fact stands twice. What a change does is data (`specs/Effect`): an effect on the settings, and one on a
//! table. The settings and tables after a change and the laws above them go by effects; only why a change is refused, and
//! that what is refused does nothing, goes by kinds.

mod checks;
mod fault;
mod faults;
mod flood_changes;
pub mod laws;
mod layers;
mod learning;
mod parts;
mod port_changes;
mod segment_changes;
mod state;
mod step;
mod table_changes;

pub use checks::kind_of;
pub use fault::ChangeFault;
pub use faults::CHANGE_FAULTS;
pub use overlay::settings::{Change, NewSegment, Target};
pub use segment_changes::is_limit;
pub use state::EndpointState;
pub use table_changes::is_ageing;
