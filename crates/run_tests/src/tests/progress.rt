//! Tests of the progress of a run, over the public names of `run_progress`. There is nothing here but tests, and nothing stands
//! on this crate.
//!
//! Read first: `line_tests`, the line's text and its numbers. `screen_tests` has a terminal and a clock in memory, and whoever
//! looks on beside.
//!
//! What is expected was worked out by hand, never taken from a run. That a terminal shows it is for `tests/outputs/progress.sh`.
mod line_tests;
mod screen_tests;
