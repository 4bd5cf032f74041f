//! The events of a whole run, in order: timed changes, and the records of all captures. What the octets mean and what a change
//! does isn't looked at here.
//!
//! Use first: [`Timeline::read`] opens the captures of the local ports and of the underlay, reads their records
//! (pcap-savefile(5)) and puts them, with the changes, in order of moment. Each [`Event`] says what happens when, and where it
//! stands in its [`Source`]; the octets of a record stay a slice of its capture. [`RunOutputs`] is where a run writes what comes of
//! them, or a merge of its parts.
//!
//! Specs to read, in order: `specs/Inputs`, `specs/Faults`, `specs/Events`, `specs/Order`, `specs/Timeline`, `specs/Drains`.
//!
//! Proved: changes and records are put in order of moment, of one moment the changes, the ports rising and the underlay; or the
//! first fault is answered, of the openings, then of the records; unless memory was refused. There is one such order, a
//! capture's events stay in theirs, and each is of its record ([`laws`]).
//!
//! Proved besides:
//! - There is one such order: `laws::one_order`. A capture's events stay in theirs: `captures_in_order`. Each is of its
//!   record, with its number and at the greatest moment up to it: `each_record`.
//! - The words `c`, `p1`, `u`: `Tap`, `Source`.
//!
//! Why it is so: the order of events is defined twice and shown to be one, as a relation (moments never fall, and the events of
//! each moment are the same in the same order) and as a function. Moments of captures are raised to the greatest so far; those
//! of changes are taken as they are, since a text whose moments fall is refused. A fault and a cut rest name a [`Tap`] (a local
//! port or the underlay), and an event a [`Source`] (the changes or a tap), so that a fault of the changes can't be written
//! down as one of a capture. All captures are opened, ports rising and then the underlay, before the records of each are read
//! in the same order: so a capture that can't be opened is named before a faulty record of an earlier one.
#![tactic(auto)]

mod capture;
mod event;
mod fault;
pub mod laws;
mod order;
mod outputs;
mod source;
mod timeline;

pub use event::{Captured, Event, Happening};
pub use fault::TimelineFault;
pub use outputs::RunOutputs;
pub use source::{Source, Tap};
pub use timeline::{Cut, Timeline};
