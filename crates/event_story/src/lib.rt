//! Why an endpoint decides of one frame or packet what it decides, told test by test in the state of a run.
//!
//! Use first: [`story_of_event`] has a line for each test and the value that it saw, in the order of the tests up to the one
//! that refuses: how a frame at a local port (IEEE 802.1Q) or a packet of the underlay (RFC 7348, RFC 8926) comes to a segment,
//! what the bridge of the segment knows of both addresses, and each outlet; and last the decision line. [`story_in_run`] does
//! so of each event of a run, also of a change.
//!
//! Specs to read, in order: `specs/Story`, `specs/Tests`, `specs/Ether`, `specs/Local`, `specs/Packet`,
//! `specs/Neighbours`, `specs/Bridge`, `specs/Outlets`, `specs/Line`.
//!
//! Proved: the text is exactly the stated function of the endpoint's state and the event: the facts of the tests in their order
//! up to the one that refuses, of both addresses at the bridge, of the places that a flood leaves out, of each outlet, and last
//! the decision line that the run writes. Of more than 16 ports those that follow each other and are left out for the same cause
//! are one fact. The endpoint stays as it is.
//!
//! Proved besides:
//! - An event can come to an endpoint where it isn't before the last one and is at a port that is there: `can_come`.
//!
//! Why it is so: a story is told from the state before the event, without a step. Where the bridge would send the frame is
//! asked by the place of its destination (`EndpointState::foresee`), and what leaves there is measured and not made
//! (`Endpoint::size_at`). So a story needs no hook behind the step and no room for 32 emissions, and its last line is proved to
//! be the decision's.
#![tactic(auto)]

mod bridge;
mod ether;
mod fact;
mod flood;
mod known;
mod line;
mod local;
mod neighbours;
mod outcomes;
mod outlets;
mod packet;
mod phrase;
mod reading;
mod refusal;
mod story;

pub use story::{can_come, story_in_run, story_of_event};
