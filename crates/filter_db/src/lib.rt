//! The filtering database of a learning bridge (IEEE 802.1Q, 8.8), one table for each of many segments.
//!
//! Use first: [`Tables`] is all that a bridge needs of the tables, however they are kept: it learns, looks up, ages, fixes
//! and flushes. A table has for each MAC address an [`Entry`]: the [`Place`] where its station stands, a local port or a
//! remote endpoint of a tunnel, and the moment when it was last seen there. [`PoolTables`] are tables whose segments share a
//! pool, and come and go while the tables are used. [`ListTables`] keeps a list for each segment. Moments are handed in, in
//! nanoseconds.
//!
//! Specs to read: `specs/Table`, then `specs/Segment`; `specs/Standing` for segments that come and go, `specs/Place` for
//! places, `specs/Work` for how often a call compares an address at most.
//!
//! Proved: each call of [`Tables`] answers, and leaves, what plain map operations on the tables aged to its moment say; other
//! segments are as aged to it, and no call changes the size of the pool. [`PoolTables`] says the same of segments that come,
//! go and get other limits. What a call costs at most, in counts that tables may keep, is said whatever stands in them.
//! [`ListTables`] meets [`Tables`].
//!
//! Proved besides:
//! - Each call of the trait `Tables` answers, and leaves, what plain map operations on the tables aged to its moment
//!   say. Other segments are as aged to it; `look` changes nothing; no call changes the size of the pool.
//! - `PoolTables` says the same of segments that come, go and get other limits: what an added one begins with, what
//!   goes with a removed one, and what a lower limit forgets (`specs/Standing`).
//! - Calls may be counted, and how often they compare an address: each is one call, and `look`, `learn`, `fix` and
//!   `unfix` compare an address at most 61 times (`specs/Work`), whatever stands in the tables; no other call compares
//!   one, and no count falls.
//!
//! Why it is so: a table is a finite map with only what is live at the table's own moment. Every event first ages the table
//! to its moment; learning, limits, look-ups and flushes are then plain map operations with no word of liveness. `look`
//! leaves the tables' moment as it is, so a step without learning does too; every other call moves it on. The shared pool
//! stands in `shared_tables`, above this crate, which keeps the trait, its definitions and the plain lists: what an endpoint
//! needs of tables is stated once, and two crates meet it.
#![tactic(auto)]

mod entry;
mod list_tables;
mod place;
mod pool_tables;
mod rows;
mod table;
mod tables;

pub use entry::Entry;
pub use list_tables::ListTables;
pub use place::Place;
pub use pool_tables::PoolTables;
pub use tables::{Learned, NotThere, TableFull, TableRule, Tables};
