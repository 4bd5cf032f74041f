//! What passes by the tunnels of an endpoint, counted as a run goes, as text for whom asks: for each remote endpoint the
//! packets that were taken in from it and sent to it, and for each network that no segment has, and each sender, the packets
//! that were dropped.
//!
//! Use first: [`TunnelTraffic`] looks on while `stream_run` runs, and makes the text behind it;
//! [`Beside`](stream_run::Beside) puts it beside whoever else looks on.
//!
//! Specs to read, in order: `specs/Header`, `specs/Run`, `specs/Tunnels`, `specs/Lines`.
//!
//! Proved: behind a run of any events, or of a part of it, the tables show what those events and the answers of their segments'
//! bridges come to (`laws::runs`), and the text is exactly the lines of these, which are read back. Whoever else looks on sees
//! what it would alone.
//!
//! Proved besides:
//! - Behind a run of any events, or of a part of it, the tables show what those events and the answers of their
//!   segments' bridges come to: of each network that no segment has and each outer source the packets that were
//!   dropped, of each remote endpoint the packets that brought a frame to a segment and those that were sent there,
//!   with their octets; and what all others come to where there are more than 4,096: `laws::runs`.
//!
//! Why it is so: the tables are made before the run, so no event asks for memory.
#![tactic(auto)]

mod header;
pub mod laws;
pub mod rows;
mod tables;
pub mod told;
mod tunnels;

pub use header::key_in;
pub use tunnels::TunnelTraffic;
