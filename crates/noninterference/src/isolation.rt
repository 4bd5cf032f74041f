//! Isolation of the segments of an endpoint: what happens in one changes nothing in another.
//!
//! Use first: [`laws::alone`], whose contract is the law, of the same definitions that the steps of [`endpoint_core::Endpoint`]
//! ensure.
//!
//! Specs to read: `specs/Alone`: which events concern a segment (`concerns`, `only`), what it is told, and when two states
//! agree for it.
//!
//! Proved: leave out, of any events with moments that never fall, the changes that name another segment, but for those by which
//! segments come, go or get another limit, and the frames and packets whose decision carries another segment or none. Then a
//! segment's decisions and emissions come at the same moments and are the same, octet for octet, and before each event both
//! runs agree in its table and settings, the ports and their states, the pool, and the segments with their tunnels and limits.
//!
//! Proved besides:
//! - What happens in one segment changes nothing in another. Leave out, of any events with moments that never fall, the
//!   changes that name another segment, but for those by which segments come, go or get another limit, and the frames
//!   and packets whose decision carries another segment or none. Then a segment's decisions and emissions come at the
//!   same moments and are the same, octet for octet, and before each event both runs agree in its table and settings,
//!   the ports and their states, the pool, and the segments with their tunnels and limits: `laws::alone`.
//!
//! Why it is so: the law stands above the endpoint's steps, so that a change of these proves it again and not the other way
//! round. The events that are left out are told by what the decision carries. Frames that carry the segment stay, refused ones
//! too, and so do a port's going up or down and a change that names the segment, whether it stands or not. That another segment
//! comes, goes or gets another limit stays too, since it leaves more or less room for all, and does nothing to this segment's
//! bridge. Of the settings a segment sees the underlay, the ports, of each segment its tunnels and its limit, and its own: the
//! segment of a VNI is looked for among all, so their tunnels belong to it. The runs are compared from the moment of the event
//! on: one may have forgotten a dead entry that the other still has at its earlier moment.

pub mod laws;
