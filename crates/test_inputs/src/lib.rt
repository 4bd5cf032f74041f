//! What tests are made on: settings, captures, octets and devices over memory, each standing once.
//!
//! Use first: [`settings`] has the settings of an endpoint, of its peer and of a learning bridge alone, and [`capture_texts`]
//! captures octet for octet. [`Captures`] puts captures together from lines, with [`octets_of`] for the words in them.
//! [`broadcast`] is a frame, and [`three_cells`] reads a row of a table. [`Pieces`] gives a text a few octets at a time,
//! [`GoingOn`] goes on behind an input, and [`Room`] takes a few octets at a time. [`memory`] asks for memory.
//!
//! It has no specs of its own, and of it nothing is promised.
//!
//! Why it is so: several crates of tests use the same inputs. Tests alone, and programs that are tests, stand on this crate.
#![tactic(auto)]

pub mod capture_texts;
mod captures;
mod endless;
pub mod memory;
mod octets;
mod pieces;
mod room;
mod rows;
pub mod settings;

pub use captures::Captures;
pub use endless::{GoingOn, going_on};
pub use octets::{broadcast, meaning_of, octets_of};
pub use pieces::{Pieces, in_pieces};
pub use room::Room;
pub use rows::three_cells;
