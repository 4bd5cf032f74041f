//! The bridge of one segment as one value: its own settings, its own table, which ports are up, and the largest frames. What an
//! endpoint decides of a frame is what this value does with it, and no other segment's table is there to be asked.
//!
//! Use first: [`laws::decisions`], of the same `decision` that the contract of a whole run goes by; [`laws::steps`] says it of
//! the steps of [`endpoint_core::Endpoint`], in whatever state.
//!
//! Specs to read, in order: `specs/Bridge` (the value, and its `step` in the words of IEEE 802.1Q), `specs/Segment` (the bridge
//! of a segment in settings, in a state and behind events).
//!
//! Proved: of a frame or packet that comes to a segment the decision is `step` of the bridge of that segment, each outlet with
//! its octets; the bridge behind it is the one that `step` leaves; and an event that isn't a segment's own leaves its bridge as
//! it is, settings and table.
//!
//! Proved besides:
//! - What is decided of a frame or packet that comes to a segment, behind whatever events, is what the bridge of that
//!   segment does with it: a value that has the segment's own settings and its own table and nothing of any other; each
//!   outlet has the octets that the underlay and the segment's own settings tell. The segment's bridge is then the one
//!   that this leaves, and an event that isn't a segment's own leaves its bridge as it is, settings and table:
//!   `laws::decisions`.
//! - The same of an endpoint in whatever state, which keeps of each table what is live: `laws::steps`.
//!
//! Why it is so: the endpoint's definitions are of the state of all segments, since a change is one of all settings. That they
//! ask no more of it than this value has is proved here, so that no reader has to see it in them: a verdict that asks another
//! segment's table meets no law of this module, and can't be written as a `step`.

pub mod laws;
