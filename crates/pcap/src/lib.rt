//! Capture files in the classic form of libpcap, read and written, and of what kind a file is by its first octets.
//!
//! Use first: [`text`] for captures that lie in memory whole; [`mod@stream`] for those that are read and written in blocks;
//! [`kind`] for what a file is.
//!
//! Specs to read: those that each module names.
//!
//! Proved: what each module says; what is read in blocks of whatever length is what is read of the whole text.
#![tactic(auto)]

pub mod kind;
pub mod stream;
pub mod text;
