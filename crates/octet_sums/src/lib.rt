//! Sums of octets that come in pieces: a digest, and a number with two sums.
//!
//! Use first: [`sha256`] where octets could be changed on purpose, [`fletcher`] against accidents.
//!
//! Specs to read: those that each module names.
//!
//! Proved: for every text, in whatever pieces it is taken in, the sums are those of the definitions over whole texts.
#![tactic(auto)]

pub mod fletcher;
pub mod sha256;
