//! What a file is, by its first octets, and the command that makes a capture of one that is none.
//!
//! Use first: [`peek`] takes the first octets of an input, a [`Head`], and hands them out again, so that one look at a pipe is
//! enough. [`FileKind::of`] tells classic pcap, pcapng, gzip (RFC 1952), Zstandard (RFC 8878), snoop (RFC 1761), texts and
//! empty files apart, and prints as a sentence without its full stop.
//!
//! Specs to read, in order: `specs/Kind`, `specs/Head`.
//!
//! Proved: the kind of a file is exactly that of its first 24 octets, or of all where it has fewer; the head is these octets,
//! and the input that was looked at tells the same octets as before, first to last; `Err` comes exactly where a read failed.
//! That `editcap` converts so isn't.

mod front;
mod head;
mod kind;
mod peeked;

pub use front::peek;
pub use head::{HEAD_LENGTH, Head};
pub use kind::FileKind;
pub use peeked::Peeked;
