//! Tests of the texts that say what parts of a run were made from. There is nothing here but tests, and nothing stands on this
//! crate.
//!
//! Read first: `record_tests`, texts of parts' records read and written again, and 19 that are refused, each with its fault.
//! `lent_tests` does so of texts of digests, 12 of which are refused, and of captures with other octets than digests tell.
//! `parting_tests` has pairs of runs and what differs in them, parts that are a whole run, and parts that aren't.
//! `digest_tests` takes digests and counts octets on the way.
//!
//! What is expected comes from docs/FORMATS.md, written by hand, and digests from FIPS 180-4's examples and from `sha256sum`,
//! never from a run.
mod digest_tests;
mod lent_tests;
mod parting_tests;
mod record_tests;
mod texts;
