//! Decision lines, one for each event of a run, written into one buffer that is used again.
//!
//! Use first: a [`Line`] is begun with the front of an event and ended behind its result. Outcomes are put one by one, so that
//! a run can hand each emission on as it comes. A [`Scratch`] is what a run lends to each step, and a [`Counter`] the number of
//! its event.
//!
//! Specs to read, in order: `specs/Lines`, `specs/Outcomes`.
//!
//! Proved: each call appends or writes exactly the stated text, the front, an outcome, a drop, a reply, a cut, and whole lines.
//! Any line fits the buffer, so no call asks for memory or fails. A counter's digits are its number's.
//!
//! Why it is so: the buffer has 65,536 octets and is cleared for each event. The longest line has 59,134, so every room is proved
//! from its parts and writing a line can't fail. The number of the run's event is kept in its digits: one more mostly changes
//! one octet; and so are the first digits of a moment. What a step needs (places, head, line) is made once for a run and lent.
#![tactic(auto)]

mod counter;
mod front;
mod line;
mod most;
mod outcome;
mod place;
mod scratch;
mod whole;

pub use counter::Counter;
pub use line::Line;
pub use most::most_of_a_line;
pub use scratch::Scratch;
