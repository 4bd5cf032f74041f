//! The tables of all segments, all entries in one array of slots, with counts of the work that each call does.
//!
//! Use first: [`SharedTables`] answers each call of [`filter_db::Tables`] as a list for each segment would, and those of
//! [`filter_db::PoolTables`]: segments come, go and get other limits. Trees over the bits of VID and address find an address
//! (`src/trees.rt`), for each segment an age queue finds what is dead (IEEE 802.1Q, 8.8.3), and a free list finds a slot.
//! None of these calls takes memory, for the slots are reserved when the tables are opened, 1,048,576 at most;
//! [`SharedTables::entries`], which lists the live entries of a segment, takes memory. It, [`SharedTables::entry`] and
//! [`SharedTables::entry_count`] are no calls of a bridge.
//!
//! Specs to read: `specs/Shared`, then `specs/Work`; behind these `specs/Segments`, `specs/Pool`, `specs/Bucket` and
//! `specs/Tree` for how the slots stand for tables. The other files serve proofs and invariants.
//!
//! Proved: each call of `Tables` answers and leaves word for word what the trait says, whatever other segments hold; segments
//! come, go and get other limits as `PoolTables` says. An address is compared, or sent on by a fork, at most as often as
//! entries are kept in its bucket, and at most 61 times: a key has 60 bits, each sends it on at most once, and then one slot
//! is compared. A call asks for the age of at most one entry more than go for being dead, and what was asked, with the
//! entries that are kept, is at most two for each call (`laws::pays_for_all_work`).
//!
//! Proved of the tables of all segments, in one pool of slots:
//! - Segments come, go and get other limits as `PoolTables` says: an added one is empty, whatever one of its VID kept
//!   before; the room is the pool less the limits of the segments that stand: `impl PoolTables`.
//! - Each slot is free or holds one entry: a leaf of one of the sixty-four trees of its address's bucket, and on one
//!   line of its segment, which stands. It's the type's invariant.
//! - Look-ups, learning and fixing compare an address, or send it on by a fork, at most as often as entries are kept in
//!   its bucket, and at most 61 times, whatever stands in the pool: a key has 60 bits, 12 of the VID and 48 of the
//!   address, each sends it on at most once, and then one slot is compared. No other call compares one: `impl Tables`.
//!   These are the counts of which `Tables` speaks, so what stands above says by them what it costs at most.
//! - A call asks for the age of at most one entry more than go for being dead; `add` and `remove` ask for none: `impl
//!   Tables`, `impl PoolTables`.
//! - What was asked, with the entries that are kept, is at most two for each call, those of the pool too:
//!   `laws::pays_for_all_work`. No count ever falls.
//! - The live entries of a segment are listed each once, addresses rising: `entries`. The live entry of an address, and
//!   how many a segment has, are what that list holds, and are told without memory: `entry`, `entry_count`.
//! - A listing, `entry` and `entry_count` look at entries of their segment, change nothing, and are no calls of a
//!   bridge.
//!
//! Why it is so: the limits of the segments that stand never sum to more than the pool has slots. So a segment below its
//! limit always finds a free slot, and no call can be refused for room of the pool but the one that adds a segment or raises
//! a limit.
#![tactic(auto)]

mod admission;
mod bucket;
mod calls;
mod columns;
mod entries;
pub mod laws;
mod learning;
mod links;
mod look_up;
mod opening;
mod pool_calls;
mod share;
mod shared_tables;
mod slots;
mod standing;
mod threads;
mod trees;

pub use shared_tables::SharedTables;
