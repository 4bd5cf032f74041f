//! A look at what a run is to read, before it does: at texts and captures in files.
//!
//! Use first: [`check`] prints what is in them, and answers the first fault that a run would meet.
//!
//! Specs to read: those that [`foreseen`] names. What is said of texts and of captures `text_advice` and `capture_survey` say.
//!
//! Proved: each function is safe and ends. Which changes the settings alone will refuse, [`foreseen`] says.
//!
//! Why it is so: each capture is looked at whatever was found in those before it, so that one call tells of all. Captures that may
//! have both directions are read once more, by a run that writes nothing: such a run alone knows what it would leave out.
#![tactic(auto)]

mod checks;
mod echoes;
pub mod foreseen;
mod swapped;

pub use checks::check;
