//! Tests of the crates that run: decision lines, the program's words, and what it does with texts. A module for each crate,
//! over its public names. There is nothing here but tests, and nothing stands on this crate.
//!
//! Read first: `decision_lines_tests`, worked lines of the documents and a line of all outlets that there may be.
//! `command_line_tests` has command lines of every kind, and `text_calls_tests` texts in and texts out.
//!
//! What is expected was worked out by hand from RFC 7348, RFC 8926, IEEE 802.1Q, docs/FORMATS.md and docs/OPERATING.md, never
//! taken from a run; `endpoint_tests` says where the fields of each header begin. Whole runs are those of `tests/run/rows.sh`.
mod command_line_tests;
mod decision_lines_tests;
mod text_calls_tests;
