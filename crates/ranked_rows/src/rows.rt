//! Tables.
ghost use Rattle.std.specs.Prelude.{◌≡◌, IfOk};
ghost use Rattle.ranked_rows.specs.Rows.{IsNumbering, counted, counted_all, counted_or, no_rows, rows_by, together, with_others};

use crate::counts::Counts;
use crate::key::Ranked;
use crate::key_count::KeyCount;
use crate::numbers::{put, rows_in_order};
use std::alloc::{AllocError, Global};
use std::marker::Model;

/// The most rows of a table.
pub(crate) const MOST: usize = 4096;

/// So many numbers are remembered: one for each mix.
pub(crate) const REMEMBERED: usize = 65_536;

/// What is counted of keys: rows in the order of their ranks, at most 4,096, and what all other keys come to; seen by contracts
/// as these two. Only [`RankedRows::open`] and [`RankedRows::rows`] take memory; a table takes that of 4,096 rows and 136 KiB.
#[derive(Drop)]
pub struct RankedRows<K: Ranked + Copy, C: Counts + Copy> {
    /// Each stays where it came, until another takes its memory.
    rows: Vec<KeyCount<K, C>>,
    /// The numbers of all rows, in the order of their ranks.
    order: Vec<u16>,
    others: C,
    /// By a key's mix, the number of a row that such a key had when it was counted last: a row to look at first.
    stood: Vec<u16>,
}

impl<K: Ranked + Copy, C: Counts + Copy> Model for RankedRows<K, C> {
    ghost use Rattle.std.specs.Prelude.{◌≡◌, ◌≤◌, length, vec_capacity};
    ghost use Rattle.ranked_rows.specs.Rows.{AreRising, IsNumbering, Rows, rows_by};

    ghost Value = { Rows K C };

    ghost view = { λ r. record { rows = rows_by r.rows.items r.order.items; others = r.others } };

    ghost invariant = { λ r. AreRising K.rank (rows_by r.rows.items r.order.items) × IsNumbering r.rows.items r.order.items
        × (length r.rows.items ≤ 4096) × (4096 ≤ vec_capacity r.rows) × (4096 ≤ vec_capacity r.order)
        × (C.joined r.others C.none ≡ r.others) };
}

impl<K: Ranked + Copy, C: Counts + Copy> RankedRows<K, C> {
    /// A table of nothing. It takes the memory of all rows.
    pub fn open(alloc: Global) -> Result<RankedRows<K, C>, AllocError>
        ensures { IfOk result (λ rows. rows ≡ no_rows C.none) }
    {
        let rows = Vec::with_capacity(alloc, MOST)?;
        let order = Vec::with_capacity(alloc, MOST)?;
        let stood = vec![in alloc; 0; REMEMBERED]?;
        let others = C::none();
        Ok(RankedRows {
            rows,
            order,
            others,
            stood,
        })
    }

    /// The rows, in the order of their ranks. `AllocError`: memory was refused.
    pub fn rows(&self, alloc: Global) -> Result<Vec<KeyCount<K, C>>, AllocError>
        ensures { IfOk result (λ rows. rows.items ≡ self.now.rows) }
    {
        rows_in_order(alloc, self.rows.as_slice(), self.order.as_slice())
    }

    /// What all keys come to that have no row.
    pub fn others(&self) -> C
        ensures { result ≡ self.now.others }
    {
        self.others
    }

    /// Counts more of a key. Where the table is full, the key with the greatest rank is one of the others from now on.
    pub fn add(&mut self, key: K, counts: C)
        ensures { self.new ≡ counted K.rank C.joined C.none self.old key counts }
    {
        let rest = put(
            &mut self.rows,
            &mut self.order,
            self.stood.as_mut_slice(),
            key,
            counts,
        );
        join(&mut self.others, rest);
    }

    /// Counts what comes of keys that have no row.
    pub fn add_others(&mut self, counts: C)
        ensures { self.new ≡ with_others C.joined self.old counts }
    {
        self.others = self.others.with(counts);
    }

    /// Counts all that another table shows.
    pub fn add_all(&mut self, other: &RankedRows<K, C>)
        ensures { self.new ≡ together K.rank C.joined C.none self.old other.now }
    {
        self.add_rows(other.rows.as_slice(), other.order.as_slice());
        self.add_others(other.others());
    }

    /// Counts what the rows of these numbers tell, one after another.
    fn add_rows(&mut self, rows: &[KeyCount<K, C>], order: &[u16])
        requires { IsNumbering rows.now order.now }
        ensures { self.new ≡ counted_all K.rank C.joined C.none self.old (rows_by rows.now order.now) }
    {
        for number in order {
            let row = &rows[usize::from(*number)];
            self.add(row.key, row.counts);
        }
    }
}

/// Counts to others what has no place, where there is any.
fn join<C: Counts + Copy>(others: &mut C, rest: Option<C>)
    requires { C.joined others.old C.none ≡ others.old }
    ensures { others.new ≡ C.joined others.old (counted_or C.none rest) }
{
    if let Some(rest) = rest {
        *others = others.with(rest);
    }
}
