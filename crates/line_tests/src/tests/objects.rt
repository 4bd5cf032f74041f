//! Tests of decisions as JSON objects, over the public names of `decision_objects`. There is nothing here but tests, and nothing
//! stands on this crate.
//!
//! Read first: `objects`, an object of each kind, and what an output that fails is left with.
//!
//! What is expected was written by hand, never taken from a run.
mod object_tests;
