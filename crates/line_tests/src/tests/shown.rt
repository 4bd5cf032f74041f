//! Tests of lines told as JSON objects, over the public names of `json_lines`. There is nothing here but tests, and nothing
//! stands on this crate.
//!
//! Read first: `object_tests`, lines and the object that each is told as.
//!
//! The forms are those of decision lines, as docs/FORMATS.md has them, and a few more. What is told of each line was written by
//! hand, never taken from a run.
mod forms;
mod object_tests;
