//! Tests of the crates that tell what a switch itself sent from what came in. There is nothing here but tests, and nothing stands
//! on this crate.
//!
//! Read first: `sieve_tests`, records of ports and of the underlay in a row. `window_tests` goes to the bounds of what is kept,
//! `line_tests` has what is told of them, `list_tests` who is told of what is left out.
//!
//! What is expected was worked out by hand from the frames, their places and their moments, and packets were put together from
//! RFC 791, RFC 768, RFC 7348 and RFC 8926, never from a run.
mod line_tests;
mod list_tests;
mod sieve_tests;
mod window_tests;
