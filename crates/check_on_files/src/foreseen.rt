//! The changes that an endpoint will refuse whatever its frames: what the settings alone refuse at each change's turn.
//!
//! Use first: [`foresee`] takes settings and the changes made to them, and answers a [`Foreseen`] for each change that is
//! refused by the settings as the changes before it left them. What only a table can refuse depends on the frames, and isn't
//! looked at: whether there is room for a fixed entry, and whether there is one to take away.
//!
//! Specs to read: `specs/Foreseen`.
//!
//! Proved: what is foreseen is exactly the changes that the settings refuse, each as the changes before it left them, with
//! number, moment and fault. Each refusal is told once and no other (`laws::each_refusal`), and whatever an endpoint's tables
//! hold, it refuses these so and any other only for its tables (`laws::whatever_the_tables`).
//!
//! Why it is so: whether a segment can come, or get another limit, is decided by the limits that are promised, and never by
//! what tables hold (`endpoint_core::state`). So such a change has the same answer whatever was learned, and can be foreseen.

mod answer;
mod foreseen;
pub mod laws;

pub use foreseen::{Foreseen, foresee};
