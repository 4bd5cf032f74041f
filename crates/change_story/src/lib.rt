//! Why an endpoint makes a change of its settings or refuses it, told check by check in the state of a run.
//!
//! Use first: [`story_of_change`] has a line for what the change asks for, one for each check and the value that it saw, in the
//! order of the checks up to the one that refuses, one for what the change finds of what it changes where none refuses it, and
//! last the decision line.
//!
//! Specs to read, in order: `specs/Story`, `specs/Change`, `specs/Checks`, `specs/Segment`, `specs/Seen`.
//!
//! Proved: the text is exactly the stated function of the endpoint's state, the event and the change. The last check that it
//! tells is why the endpoint refuses the change, where one does, and the last line is the decision line that the run writes.
//! That the words say what an operator would ask isn't proved.
#![tactic(auto)]

mod asked;
mod check;
mod checks;
mod found;
mod line;
mod seen;
mod segment;
mod story;
pub mod words;

pub use story::story_of_change;
