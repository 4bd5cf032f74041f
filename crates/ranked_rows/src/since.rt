//! Rows that other keys had before.
ghost use Rattle.std.specs.Prelude.{◌≡◌};
ghost use Rattle.ranked_rows.specs.Frequent.{most_of};

use crate::frequency::Frequency;
use crate::key_count::KeyCount;

/// What is counted of a key since it has its row.
#[derive(Clone, Copy, Debug)]
pub struct Since<C> {
    pub counts: C,
    /// It came so often before, at most.
    pub before: u64,
}

/// How often the key of a row came, at most.
#[inline(always)]
pub(crate) fn most_of<K, C: Frequency>(row: &KeyCount<K, Since<C>>) -> u64
    ensures { result ≡ most_of C.times row.now }
{
    row.counts.counts.times().saturating_add(row.counts.before)
}
