//! The steps of a tunnel endpoint for VXLAN (RFC 7348) and Geneve (RFC 8926): one event in, one decision out.
//!
//! Use first: an [`Endpoint`] is opened with settings. A local frame, an outer packet or a [`Change`] comes in at a moment
//! that is handed in, and a frame or packet gets a [`Decision`]: why it goes nowhere, or an [`Outcome`] for each outlet, with
//! the octets that leave there. A decision borrows the octets that came in, and not the endpoint. No step takes memory.
//! A decision has room for 32 outcomes; with settings of more outlets, as [`Endpoint::has_few_outlets`] tells them apart,
//! [`Endpoint::take_frame`] and [`Endpoint::take_packet`] answer a [`Forwarding`] and put the places into a list that is lent.
//! [`Endpoint::forwarding_of_frame`] and [`Endpoint::forwarding_of_packet`] tell a forwarding without a step. [`result_text`]
//! prints a decision, and [`Endpoint::entries`] lists the live entries of a segment.
//!
//! Specs to read: `specs/Event`, `specs/Decision` and `specs/Step`, then `specs/Run`; `specs/Counts`, `specs/Text` for texts,
//! `specs/Outlets` for what a decision asks of the settings, and `specs/Work` for what an event costs of the tables at most.
//!
//! Proved: each step answers, octet for octet in each emission, what the definition answers of the endpoint's state and the
//! event, and leaves the state that it says. From `open` on, over every list of events with moments that never fall, the
//! answers are those of one learning bridge (IEEE 802.1Q) for each segment, asked by that segment's events alone, from its
//! coming to its going (`laws::runs`); the counts are how often each thing was so decided. Whatever stands in the tables, a
//! frame or a packet is at most two calls of them.
//!
//! Proved of an `Endpoint`:
//! - So do `take_frame` and `take_packet` with the places in a list that is lent, and for each place `tag_at` at a
//!   local port, whose tag stands between the frame's addresses and its body in what leaves there, and `put_head` for a
//!   remote endpoint, whose head stands before them. `size_at` tells how many octets that are.
//! - `forwarding_of_frame` and `forwarding_of_packet` tell the same without a step. Where a decision is one value, it
//!   has 32 outcomes at most: `frame` and `packet` ask that the local ports and the flood list of any segment are 32
//!   together at most, and `has_few_outlets` tells exactly whether they are.
//! - A local frame whose body begins with a tag comes to no segment whose `tags` is `never`: `frame_from`,
//!   `bring_frame`.
//! - What leaves is the frame that came, from where it came, and each emission has the stated parts: head, addresses,
//!   tag and body.
//! - `frame_from` and `frame_in` tell the frame that would come to a segment, or why none would; `bring_frame` and
//!   `bring_packet` set a forwarding that is lent to the same.
//! - From `open` on, over every list of events with moments that never fall, the answers are those of one abstract
//!   bridge for each segment, asked by that segment's events alone, from its coming to its going. The counts are how
//!   often each thing was so decided, the moment is the last, and each table is what is live of its own bridge's:
//!   `laws::runs`.
//! - The text of a decision is the stated one: `result_text`.
//! - Whatever stands in the tables, of whichever segments, a frame or a packet makes at most two calls of them, which
//!   compare an address at most 122 times, and none where it comes to no segment: `take`, `take_frame`, `take_packet`,
//!   `frame`, `packet`, `specs/Work`. A change makes at most as many as [`state`] says: `change`.
//!
//! Why it is so: a step is cut in two. What comes is brought to its segment (`bring_frame`, `bring_packet`) and taken
//! (`take`: tables, and a list of places that is lent), all in `src/endpoint/coming.rt`. Then what leaves is asked for
//! place by place, so that a whole run hands each on as it comes: at a local port for the tag alone (`tag_at`), for a
//! remote endpoint for the head (`put_head`), in room that is lent; both stand beside the frame's addresses and body
//! (`src/endpoint/leaving.rt`). `frame` and `packet` are both halves in one call, for callers that want a value
//! (`src/endpoint/decisions.rt`). The lent list is empty after every drop, and a clause says so. A segment that comes
//! begins without entries, by definition (`specs/Run`), whatever one of its VID had; its counts go on, since they are the
//! endpoint's, one for each VID.
#![tactic(auto)]

mod arrival;
mod counts;
mod decide;
mod decision;
mod emit;
mod endpoint;
mod forwarding;
pub mod laws;
pub mod state;
mod text;

pub use crate::state::{Change, ChangeFault, Target};
pub use arrival::{Arrival, segment_of};
pub use decision::{Decision, Outcome};
pub use encapsulate::Head;
pub use endpoint::Endpoint;
pub use forwarding::{Forwarding, nothing_came};
pub use text::{put_addr, put_hex, put_place, result_text};
pub use tunnel_learning::Outlets;
