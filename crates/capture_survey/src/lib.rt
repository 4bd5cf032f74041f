//! What is in one capture, before it is run: what it is, how many records it has, from when to when, and what about them may be
//! unmeant.
//!
//! Use first: [`survey_capture`] reads the records of a capture one after another (classic pcap, by `pcap::stream`) in the
//! memory of one record, and answers a [`Survey`], or the [`SurveyFault`] that a run would stop at. A [`Report`] prints what
//! was found. [`Echoes`] prints what is found of several captures together, and [`LeftOut`] one line of a report by itself.
//!
//! Specs to read, in order: `specs/Tally`, `specs/Survey`, `specs/Report`.
//!
//! Proved, for every input that tells its octets: the kind of the capture, how many records it has, its first and greatest
//! moment, how many fall, are cut, are longer than a run takes, or, of the underlay, have a checksum left to the card, and
//! whether it ends cut, are those of the octets; or the fault is the one that a run stops at. Read comes only where a read
//! failed or one more was needed than the source has. What is printed is exactly the stated lines.
#![tactic(auto)]

mod echoes;
mod fault;
mod left_out;
mod read;
mod report;
mod survey;
mod tally;

pub use echoes::Echoes;
pub use fault::SurveyFault;
pub use left_out::LeftOut;
pub use report::{Moment, Report};
pub use survey::{Survey, survey_capture};
pub use tally::{Span, Tally};
