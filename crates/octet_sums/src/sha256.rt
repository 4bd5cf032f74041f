//! SHA-256 (FIPS 180-4) for long messages: the words of a block's schedule are made four at a time in a vector, and blocks are
//! read where they lie.
//!
//! Use first: [`Sha256`]. Its contract is the trait `sha2::Digest`, so whatever takes any hasher of that trait takes this one.
//! The form follows the definitions that `sha2` gives with that contract: a round makes of eight working variables the next
//! eight, as one array (`round`); a hasher is the hash value behind the whole blocks, the octets that follow them, and a count
//! (`IsAbsorbed`); and the number of zeros in the padding is that of the formula there (`padding`).
//!
//! Specs to read: `specs/Hashers`; `specs/Lanes` for four words of a schedule side by side.
//!
//! Proved: for every message, in whatever pieces it is taken in, the digest is that of the definition in `sha2` (FIPS 180-4),
//! as of the hasher there.
//!
//! Why it is so: a block takes 35.1 instructions an octet, with `sha2` 47.7, and 2.9 ns an octet, with `sha2` 4.2, measured on
//! proved programs. Some 27 of the instructions are the rounds, one for each octet; no form found makes them fewer, and the
//! language has no word for a processor's own instructions for SHA-256. So the schedule is what gives (`src/schedule.rt`).

mod block;
mod hasher;
mod rounds;
mod schedule;
#[cfg(test)]
mod tests;

pub use hasher::Sha256;
