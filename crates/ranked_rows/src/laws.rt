//! Laws over the definitions.
ghost use Rattle.std.specs.Prelude.{◌≡◌, ◌++◌, ℕ, List, []};
ghost use Rattle.ranked_rows.specs.Rows.{all_counts, counted_all, counted_in, no_rows, shown, together, with_counts};
ghost use Rattle.ranked_rows.specs.declared.key_count.KeyCount.{KeyCount as Counted};

use crate::counts::Counts;
use crate::key::Ranked;

/// A table shows the first rows of all that was counted, whatever came first, and what all others come to.
pub fn shows_the_first<K: Ranked, C: Counts>()
    ensures one { (most : ℕ) (rows : List (Counted K C)) (key : K) (counts : C)
        → counted_in K.rank C.joined C.none most (shown C.joined C.none most rows) key counts
        ≡ shown C.joined C.none most (with_counts K.rank C.joined key counts rows) }
    ensures all { (rows : List (Counted K C)) → counted_all K.rank C.joined C.none (no_rows C.none) rows
        ≡ shown C.joined C.none 4096 (all_counts K.rank C.joined [] rows) }
{}

/// The tables of two parts come together as one table of all that both counted.
pub fn comes_together<K: Ranked, C: Counts>()
    ensures { (rows others : List (Counted K C)) → together K.rank C.joined C.none
        (shown C.joined C.none 4096 (all_counts K.rank C.joined [] rows))
        (shown C.joined C.none 4096 (all_counts K.rank C.joined [] others))
        ≡ shown C.joined C.none 4096 (all_counts K.rank C.joined [] (rows ++ others)) }
{}
