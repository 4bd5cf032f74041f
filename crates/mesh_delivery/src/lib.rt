//! The law of a full mesh of endpoints, over the same definitions that [`endpoint_core::Endpoint`] ensures.
//!
//! Use first: [`laws::mesh`]. It follows from two facts of one step: what comes by a tunnel goes to local ports alone
//! ([`laws::deliveries_stay_local`]), and a local frame goes at most once to each other endpoint
//! ([`laws::once_to_each_endpoint`]).
//!
//! Specs to read, in order: `specs/Mesh`, `specs/Full`, `specs/Offspring`.
//!
//! Proved: the offspring of a frame that comes in at a local port leave at most once at each local port of all endpoints, never
//! where it came in, in their own segment or one with the tunnel kind and VNI that they were sent with, and with destination,
//! source and body unchanged.
//!
//! Proved besides:
//! - What comes by a tunnel goes to local ports alone: `laws::deliveries_stay_local`.
//!
//! Why it is so: the packets on their way are a list, and a delivery takes one out: that each is delivered at most once is no
//! premise. Two endpoints may own one address. A mesh's endpoints have the settings of texts, so that a reader has no rules or
//! lengths of settings to check. A mesh whose flood lists hold groups isn't covered: a run delivers a packet to the owner of
//! its destination alone. It stands above the endpoint's steps, so that a change of these proves it again and not the other way
//! round.
#![tactic(auto)]

pub mod laws;
pub mod one_bridge;
pub mod peers;
