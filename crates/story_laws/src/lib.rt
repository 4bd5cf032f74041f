//! What stories of events tell: laws over the definitions of `change_story` and `event_story`.
//!
//! Use first: [`laws::changes`] says that the text of a change tells the change, and [`laws::floods`] that of a flood the places
//! that are told as left out and its outlets are all places of the segment. [`laws::tests`] says which tests a story tells, and
//! [`laws::refusals`] that what is told of the last one is a refusal just where the frame or packet is refused.
//!
//! Specs to read: `specs/Told`, `specs/Refusing`.
//!
//! Proved: two changes with one text are one change. A flood leaves by just those places of which its story doesn't tell why
//! they are left out, and it tells that of each other place, both in the order of the places; of a segment of up to 16 ports each
//! place has a fact of its own, and of more the ports that follow each other and are left out for the same cause have one. Of the
//! tests of a frame or a packet those are told that come up to the one that refuses it, which is the last, or all where none
//! does. Of the facts that are told of the tests the last one's value refuses, and no other, where the frame or packet is
//! refused; none where it isn't.
//!
//! Proved besides:
//! - Of the facts that are told of the tests, the last one refuses by its own value where the frame or packet is
//!   refused, and none before it does; where it comes to a segment, none does: `laws::refusals`. Which value of a fact
//!   refuses, as a length above the most or a port that is down, stands in `specs/Refusing`. Two facts of a packet
//!   aren't judged by their words alone: a checksum left to the sender's card refuses where the settings don't take it,
//!   and a tag cut short in a tunnel's frame never.
#![tactic(auto)]

pub mod laws;
pub mod objects;
