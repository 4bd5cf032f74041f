//! Who reaches whom by the settings of many endpoints, on files.
//!
//! Use first: [`check_fabric`] reads the settings, and prints what is told of each network.
//!
//! It has no specs of its own: who reaches whom `fabric_ways` says, and what is told of it `fabric_grid`.
//!
//! Proved: each function is safe and ends. That it is told of all networks is tested.
//!
//! Why it is so: of each text what counts is kept and the rest let go before the next is read, and one network's cells are held
//! at a time, so that many endpoints with many segments have room. Networks of which the same is told share a line.
#![tactic(auto)]

mod checking;
mod reading;
mod telling;
mod titles;

pub use checking::check_fabric;
