//! Which segments a part of a run asks for.
//!
//! Use first: a [`SegmentSet`] is all segments with what comes to none, or some of them by their VIDs and maybe what comes to
//! none. It is read from a list such as `10,20-29,none`, and why a list is refused is a [`ListFault`].
//!
//! Specs to read: `specs/Segments`, then `specs/Lists`.
//!
//! Proved: a list means exactly the stated set, or its first fault of Empty, BadVid, BadRange and Doubled
//! (`SegmentSet::parse`). Whether a set has a segment, or what comes to none, is exactly told (`SegmentSet::has`).
#![tactic(auto)]

mod fault;
mod item;
mod set;

pub use fault::ListFault;
pub use set::SegmentSet;
