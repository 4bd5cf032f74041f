//! A run in parts: each part is asked for some segments, and put together the parts are the whole run.
//!
//! Use first: [`laws::texts`], of a run by the texts of its settings and changes. [`laws::runs`] says the same over captures,
//! [`laws::merging`] of pieces in order of the events' numbers, and [`laws::written`] what one part writes. [`laws::states`]
//! says what an endpoint knows and has counted behind a part.
//!
//! Specs to read: `specs/Pieces`; then `part_merge`'s `specs/Merged`.
//!
//! Proved: a part writes exactly the texts of those events of the whole run that are told of its segments, under the whole
//! run's numbers. Parts of which exactly one has each segment and one what comes to none: their events in order of numbers are
//! those of the whole run, and the texts of these are its outputs, octet for octet. Behind a part the settings are the whole
//! run's, and so are the tables of its segments, their lines and their counts; the counts of all parts add up.
//!
//! Proved besides:
//! - The same holds of a run over captures without a fault, with changes that name VIDs of 1 to 4094: `laws::runs`.
//!   Those of every text of changes do, so of a run by texts nothing more is asked than that its parts have each
//!   segment once: `laws::texts`.
//!
//! Why it is so: a change of a text names a segment by a VID of 1 to 4094, or none, so of parts of a run by texts nothing more
//! is asked than that they have each segment once.
#![tactic(auto)]

pub mod laws;
