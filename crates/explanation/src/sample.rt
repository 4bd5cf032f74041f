//! The built-in sample: what the program runs where it gets no words.
//!
//! Use first: [`sample`] runs the endpoint on the settings, frames and captures that stand here, and gives its decision lines.
//!
//! Specs to read, in order: `specs/Sample`, `specs/Given`.
//!
//! Proved: the sample answers the decision lines that the definition of a run gives of the stated settings and captures, which
//! are accepted: its one fault is OutOfMemory.

mod built_in;

pub use built_in::sample;
