//! Tables that keep what comes most often.
ghost use Rattle.std.specs.Prelude.{◌≡◌, ◌++◌, ◌∷◌, IfOk, List, []};
ghost use Rattle.ranked_rows.specs.Frequent.{Keeps, nothing_yet, with_gone};
ghost use Rattle.ranked_rows.specs.Rows.{row_of};
ghost use Rattle.ranked_rows.specs.declared.key_count.KeyCount.{KeyCount as Counted};

use crate::frequency::Frequency;
use crate::giving_way::put;
use crate::key::Ranked;
use crate::key_count::KeyCount;
use crate::least::Least;
use crate::numbers::rows_in_order;
use crate::rows::{MOST, REMEMBERED};
use crate::since::Since;
use std::alloc::{AllocError, Global};
use std::marker::Model;

/// What is counted of the keys that come most often: rows in the order of their ranks, at most 4,096, and what comes of all others.
/// While no more keys come each has its row, and nothing is left out. Only [`FrequentRows::open`] and [`FrequentRows::rows`] take
/// memory; a table takes that of 4,096 rows and 136 KiB.
#[derive(Drop)]
pub struct FrequentRows<K: Ranked + Copy, C: Frequency + Copy> {
    /// Each stays where it came, until another takes its memory.
    rows: Vec<KeyCount<K, Since<C>>>,
    /// The numbers of all rows, in the order of their ranks.
    order: Vec<u16>,
    others: C,
    /// By a key's mix, the number of a row that such a key had when it was counted last: a row to look at first.
    stood: Vec<u16>,
    least: Least,
}

impl<K: Ranked + Copy, C: Frequency + Copy> Model for FrequentRows<K, C> {
    ghost use Rattle.std.specs.Prelude.{◌≤◌, length, vec_capacity};
    ghost use Rattle.ranked_rows.specs.Frequent.{Frequent};
    ghost use Rattle.ranked_rows.specs.Rows.{AreRising, IsNumbering, rows_by};

    ghost Value = { Frequent K C };

    ghost view = { λ r. record { rows = rows_by r.rows.items r.order.items; others = r.others; floor = r.least.floor } };

    ghost invariant = { λ r. AreRising K.rank (rows_by r.rows.items r.order.items) × IsNumbering r.rows.items r.order.items
        × (length r.rows.items ≤ 4096) × (4096 ≤ vec_capacity r.rows) × (4096 ≤ vec_capacity r.order) };
}

impl<K: Ranked + Copy, C: Frequency + Copy> FrequentRows<K, C> {
    /// A table of nothing. It takes the memory of all rows.
    pub fn open(alloc: Global) -> Result<FrequentRows<K, C>, AllocError>
        ensures { IfOk result (λ rows. rows ≡ nothing_yet C.none) }
    {
        let rows = Vec::with_capacity(alloc, MOST)?;
        let order = Vec::with_capacity(alloc, MOST)?;
        let stood = vec![in alloc; 0; REMEMBERED]?;
        Ok(FrequentRows {
            rows,
            order,
            others: C::none(),
            stood,
            least: Least { floor: 0, next: 0 },
        })
    }

    /// The rows, in the order of their ranks. `AllocError`: memory was refused.
    pub fn rows(&self, alloc: Global) -> Result<Vec<KeyCount<K, Since<C>>>, AllocError>
        ensures { IfOk result (λ rows. rows.items ≡ self.now.rows) }
    {
        rows_in_order(alloc, self.rows.as_slice(), self.order.as_slice())
    }

    /// What comes of all that no row counts.
    pub fn others(&self) -> C
        ensures { result ≡ self.now.others }
    {
        self.others
    }

    /// Counts more of a key. Where the table is full, one of the least rows gives way to a new one.
    pub fn add(&mut self, key: K, counts: C)
        ensures { (came : List (Counted K C)) → Keeps K.rank C.joined C.none C.times came self.old
            → Keeps K.rank C.joined C.none C.times (came ++ row_of key counts ∷ []) self.new }
    {
        let gone = put(
            &mut self.rows,
            &mut self.order,
            self.stood.as_mut_slice(),
            &mut self.least,
            KeyCount { key, counts },
        );
        join(&mut self.others, gone);
    }
}

/// Counts to others what no row counts any more, where there is any.
fn join<C: Frequency + Copy>(others: &mut C, gone: Option<C>)
    ensures { others.new ≡ with_gone C.joined others.old gone }
{
    if let Some(gone) = gone {
        *others = others.with(gone);
    }
}
