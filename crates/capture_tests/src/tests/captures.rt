//! Tests of the crates that know captures: in memory, as streams, the events of a run in order, and what is looked at before
//! a run. There is nothing here but tests, and nothing stands on this crate.
//!
//! Read first: `reading_tests`, captures that are read, from octets written by hand and by tcpdump. `source_tests` and
//! `sink_tests` go over devices that take few octets at a time or fail, `block_tests` over blocks of five sizes over an output
//! whose n-th call fails, `device_tests` over std's readers and writers, and `timeline_tests` over what runs tell. `survey_tests`
//! tells what is in captures, `kind_tests` what files are by their first octets, and `peek_tests` looks at those of inputs.
//!
//! What is expected comes from pcap-savefile(5), RFC 1952, RFC 8878 and RFC 1761, from tcpdump, counts by hand and worked
//! examples, never from a run.
mod block_tests;
mod device_tests;
mod kind_tests;
mod longest_tests;
mod peek_tests;
mod reading_tests;
mod sink_tests;
mod source_tests;
mod survey_tests;
mod timeline_tests;
mod writing_tests;
