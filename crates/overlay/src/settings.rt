//! The settings of a tunnel endpoint, and the changes made to them while it runs, however they are written.
//!
//! Use first: [`Settings`] keep to every rule there is for them, so that what stands on them checks nothing again; each
//! segment is one [`SegmentRule`]. A [`Change`] is what an operator asks for, a [`TimedChange`] one at its moment.
//!
//! Specs to read: `specs/Settings`, then `specs/Rules`; `specs/Change` for the segments that a change is about.
//!
//! Proved: settings can only be made of parts that keep to every rule (`Settings::new`), the limits' sum within the pool
//! among them. The accessors hand out exactly these, and `Change::vid` is the segment that a change names.
//!
//! Why it is so: settings and changes stand below their text, so that the endpoint and the laws rest on the rules and not on
//! TOML. A segment is one rule with all that belongs to its VID; `endpoint_core::state` makes from it what ports, underlay and
//! tables are opened with. The rules say how long addresses are. That what a text means keeps to the rules is a law beside
//! the reader (`overlay_config::laws::meanings`), so the laws of meshes and peers rest on rules alone.

mod change;
mod segment;
mod settings;

pub use change::{Change, NewSegment, Target, TimedChange};
pub use segment::SegmentRule;
pub use settings::{Parts, Settings};
