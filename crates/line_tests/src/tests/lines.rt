//! Tests of decision lines that are read back, over the public names of `part_lines`. There is nothing here but tests, and
//! nothing stands on this crate.
//!
//! Read first: `reading_tests`, lines and what is read from each: the number of an event and the places where it was sent, a
//! capture that ends cut, or a fault.
//!
//! The lines are those of the examples and of docs/FORMATS.md, and others that are wrong in one place. What is told of them is
//! written by hand, never taken from a run.
mod reading_tests;
