//! The largest first.
ghost use Rattle.std.specs.Prelude.{◌≡◌, IfOk};
ghost use Rattle.talkers.specs.Order.{largest_first, place_in_order};

use crate::rows::passed::Passed;
use crate::rows::talk::Talk;
use ranked_rows::{KeyCount, Since};
use std::alloc::AllocError;

/// A talk, and what passed of it since it has a row.
pub type TalkRow = KeyCount<Talk, Since<Passed>>;

/// So far two segments are apart: 2^64.
const SIZES: u128 = 18_446_744_073_709_551_616;

/// The rows in the order in which they are told: segments rise, and in each the row with the most octets stands first; those of
/// one size stay in their order. `AllocError`: memory was refused.
pub fn largest_first(mut rows: Vec<TalkRow>) -> Result<Vec<TalkRow>, AllocError>
    ensures { IfOk result (λ sorted. sorted.items ≡ largest_first rows.items) }
{
    rows.sort_by_key(place_in_order)?;
    Ok(rows)
}

/// The place of a row among others, as a number.
fn place_in_order(row: &TalkRow) -> u128
    ensures { result ≡ place_in_order row.now }
{
    u128::from(row.key.vid.get()) * SIZES
        + u128::from(u64::MAX.saturating_sub(row.counts.counts.octets))
}
