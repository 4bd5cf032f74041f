//! What passed by tunnels, in two tables of a bounded number of rows, and as the lines of a summary.
//!
//! Use first: [`put_tunnels`] writes the lines of packets of networks that no segment has and of remote endpoints.
//! [`TunnelTables::read`] reads them back, and [`TunnelTables::add`] puts those of two parts of a run together. [`parted`] finds
//! them in a summary. Why a text tells no traffic is a [`TrafficFault`].
//!
//! Specs to read, in order: `specs/Tables`, `specs/Lines`, `specs/Rows`, `specs/Address`, `specs/Parts`.
//!
//! Proved: the lines are exactly the stated ones of the tables. A text is read only where it is the lines of the tables that are
//! read, and always where it is the lines of tables that a run can have, unless memory was refused; these are then the tables
//! that are read, row for row. The tables of two parts come together as both tables' rows counted in one, and what the others
//! come to, and are again such as a run can have ([`laws::stays_told`]). Which line a fault names isn't proved.
//!
//! Proved besides:
//! - The lines of what passed by tunnels are exactly the stated ones of the tables: `put_tunnels`, `to_text`.
//! - A summary is parted where the first of these lines begins: `parted`.
//!
//! Why it is so: a line is read by its words alone, and an address by its digits. Whether they are written as they have to be is
//! seen where the tables are written again. The lines stand behind all others of a summary, so that those are read as before.

mod address;
mod fault;
pub mod laws;
mod lines;
mod parting;
mod row;
mod tables;

pub use fault::TrafficFault;
pub use lines::put_tunnels;
pub use parting::parted;
pub use tables::TunnelTables;
