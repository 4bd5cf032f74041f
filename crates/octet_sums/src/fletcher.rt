//! The number and two sums of octets, by which other octets are noticed where an accident brought them.
//!
//! Use first: an [`OctetSum`] takes octets in any pieces. The sums are no digest: whoever means to makes other octets with the
//! same sums.
//!
//! Specs to read: `specs/Sums`, over whole texts; `specs/Laws`.
//!
//! Proved: for every text of fewer than 2^64 octets, in whatever pieces it is taken in, the number and the two sums are those
//! of the definition, and whether two are the same is exactly told. A changed octet changes the first sum ([`laws`]).
//!
//! What isn't noticed: changes of three words or more that cancel each other in both sums, as two blocks exchanged of which
//! each word has the same sum in both, or two pairs of words turned about in the same way; and a word of the 59 greatest
//! numbers in place of one that is less by the prime.
//!
//! Why it is so: a part of a run sums its outputs by Fletcher's two sums over words of 64 bits and not by a second digest: they
//! are against accidents, a part writes more than it reads where frames are flooded, and SHA-256 would be 35 instructions an
//! octet where they are fewer than two. Of sums of that price a CRC needs tables or the processor's own instruction, for which
//! the language has no word, and a plain sum doesn't notice blocks in another order. The modulus is a prime: modulo 2^64 the
//! highest bit of two words, or blocks exchanged over a power of two, go unnoticed, and modulo 2^64 - 1 words of zeros in place
//! of ones do. The second sum counts the words from the front; with the number n of words it is (n + 1) A - B of Fletcher's A
//! and B. So an octet's share depends on its place alone, each piece is added as it comes, wherever it ends, and the definition
//! is one sum over a whole text.

pub mod laws;
mod sum;

pub use sum::OctetSum;
