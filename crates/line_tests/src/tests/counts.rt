//! Tests of what is counted of decision lines, over the public names of `report_counts`. There is nothing here but tests, and
//! nothing stands on this crate.
//!
//! Read first: `line_tests`, lines and what is read from each; then `count_tests`, lines and what is counted of them.
//!
//! The lines are written by hand after docs/FORMATS.md, and so is what is told of them, never taken from a run.
mod count_tests;
mod line_tests;
