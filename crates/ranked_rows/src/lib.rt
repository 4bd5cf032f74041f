//! What is counted of keys, in tables of a bounded number of rows.
//!
//! Use first: a [`RankedRows`] has a row for each key, up to 4,096 of them, and counts what comes of all others together. Which
//! keys have rows is told by the keys alone, and not by their order: those with the least ranks. What a rank is each key says
//! ([`Ranked`]), and what counts come to together each kind of them ([`Counts`]). It takes all that another one shows
//! ([`RankedRows::add_all`]).
//!
//! A [`FrequentRows`] has rows for the keys that come most often (`Frequency`), and each tells how often its key may have come
//! before it had a row (`Since`).
//!
//! Specs to read: `specs/Rows`, `specs/Frequent`.
//!
//! Proved: a table shows the rows with the least ranks of all that was counted, whatever came first, and what all others come
//! to (`laws::shows_the_first`). The tables of two parts come together as one table of all that both counted
//! (`laws::comes_together`). A table of frequent keys keeps of all that came what `specs/Frequent` says: no key without a row
//! came more often than a 4,000th of it, each row counts all that came of its key but for as much as it tells, and nothing is
//! left out while no more than 4,096 keys come (`FrequentRows::add`).
//!
//! Proved besides:
//! - `add` always counts, since the rooms of all rows are there from `open` on.
//!
//! Why it is so: who sends frames chooses addresses, so rows are bounded. The least by their keys have one, and not the first
//! that came: so a row is told or not whatever the order of the events is, its counts are those of all its events or it has
//! none, and what two parts of a run counted adds up to what the whole run counts. All memory is taken when a table is made,
//! before the first event. A row stays where it came, and the numbers of rows stand in the order of their ranks: so a new key
//! moves numbers of two octets, 8 KiB at most, and no rows; and a row keeps its number, so that a table remembers by a key's
//! mix (`Ranked::mix`) which row it had and mostly looks at that one alone.
#![tactic(auto)]

mod counts;
mod frequency;
mod frequent;
mod giving_way;
mod key;
mod key_count;
pub mod laws;
mod least;
mod lookup;
mod numbers;
mod rows;
mod since;

pub use counts::Counts;
pub use frequency::Frequency;
pub use frequent::FrequentRows;
pub use key::Ranked;
pub use key_count::KeyCount;
pub use rows::RankedRows;
pub use since::Since;
