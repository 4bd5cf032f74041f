//! Which row gives way to a new key.
ghost use Rattle.std.specs.Prelude.{◌≡◌, ◌<◌, ◌≤◌, ◌∷◌, IfSome, None, [], length, slice_index_or};
ghost use Rattle.ranked_rows.specs.Frequent.{IsRaised, most_of, up_to};
ghost use Rattle.ranked_rows.specs.Rows.{IsNumbering, rows_by};
ghost use Rattle.ranked_rows.specs.declared.key_count.KeyCount.{KeyCount as Counted};
ghost use Rattle.ranked_rows.specs.declared.since.Since.{Since as Later};

use crate::frequency::Frequency;
use crate::key_count::KeyCount;
use crate::since::{Since, most_of};

/// So many rows are among the least at once: all others count as many at least.
const LEAST: usize = 96;

/// Which rows are among the least.
#[derive(Drop)]
pub(crate) struct Least {
    /// No key without a row came more often.
    pub(crate) floor: u64,
    /// From this place on rows are looked at.
    pub(crate) next: usize,
}

impl Least {
    /// The place of a row that is among the least of a full table.
    pub(crate) fn place<K, C: Frequency>(
        &mut self,
        rows: &[KeyCount<K, Since<C>>],
        order: &[u16],
    ) -> usize
        requires numbers { IsNumbering rows.now order.now }
        requires full { length rows.now ≡ 4096 }
        ensures inside { result < length order.now }
        ensures low { (d : Counted K (Later C))
            → most_of C.times (slice_index_or (rows_by rows.now order.now) result d) ≤ self.new.floor }
        ensures raised { IsRaised C.times (rows_by rows.now order.now) self.old.floor self.new.floor }
    {
        if let Some(place) = first_up_to(rows, order, self.next, self.floor) {
            self.next = place;
            return place;
        }
        self.floor = raised(rows, order, self.floor);
        match first_up_to(rows, order, 0, self.floor) {
            Some(place) => {
                self.next = place;
                place
            }
            // 96 rows count no more than the floor.
            None => 0,
        }
    }
}

/// The first place from this one on whose row counts no more than so many.
fn first_up_to<K, C: Frequency>(
    rows: &[KeyCount<K, Since<C>>],
    order: &[u16],
    from: usize,
    limit: u64,
) -> Option<usize>
    requires { IsNumbering rows.now order.now }
    ensures found { IfSome result (λ place. (place < length order.now)
        × ((d : Counted K (Later C)) → most_of C.times (slice_index_or (rows_by rows.now order.now) place d) ≤ limit)) }
    ensures none { result ≡ None → from ≡ 0 → up_to C.times limit (rows_by rows.now order.now) ≡ 0 }
{
    for place in from..order.len() {
        if most_of(&rows[usize::from(order[place])]) <= limit {
            return Some(place);
        }
    }
    None
}

/// How many rows count no more than so many.
fn count_up_to<K, C: Frequency>(rows: &[KeyCount<K, Since<C>>], order: &[u16], limit: u64) -> usize
    requires { IsNumbering rows.now order.now }
    ensures { result ≡ up_to C.times limit (rows_by rows.now order.now) }
{
    let mut count = 0;
    for number in order {
        let row = &rows[usize::from(*number)];
        count += one_up_to(row, limit);
    }
    count
}

/// 1 where a row counts no more than so many, and else 0.
fn one_up_to<K, C: Frequency>(row: &KeyCount<K, Since<C>>, limit: u64) -> usize
    ensures is { result ≡ up_to C.times limit (row.now ∷ []) }
    ensures few { result ≤ 1 }
{
    if most_of(row) <= limit { 1 } else { 0 }
}

/// The least number from a floor on that 96 rows count at most.
fn raised<K, C: Frequency>(rows: &[KeyCount<K, Since<C>>], order: &[u16], floor: u64) -> u64
    requires numbers { IsNumbering rows.now order.now }
    requires full { length rows.now ≡ 4096 }
    ensures some { 96 ≤ up_to C.times result (rows_by rows.now order.now) }
    ensures raised { IsRaised C.times (rows_by rows.now order.now) floor result }
{
    if count_up_to(rows, order, floor) >= LEAST {
        return floor;
    }
    raised_between(rows, order, floor, floor, u64::MAX)
}

/// The same between two numbers: fewer rows count at most the low one, and as many the high one. Steps from the floor double until
/// one is too far, and then they are halved.
fn raised_between<K, C: Frequency>(
    rows: &[KeyCount<K, Since<C>>],
    order: &[u16],
    floor: u64,
    low: u64,
    high: u64,
) -> u64
    requires numbers { IsNumbering rows.now order.now }
    requires above { floor ≤ low }
    requires order { low < high }
    requires few { up_to C.times low (rows_by rows.now order.now) < 96 }
    requires some { 96 ≤ up_to C.times high (rows_by rows.now order.now) }
    ensures some { 96 ≤ up_to C.times result (rows_by rows.now order.now) }
    ensures raised { IsRaised C.times (rows_by rows.now order.now) floor result }
{
    if high - low == 1 {
        return high;
    }
    let middle = low + ((high - low) / 2).min(low - floor + 1);
    if count_up_to(rows, order, middle) < LEAST {
        raised_between(rows, order, floor, middle, high)
    } else {
        raised_between(rows, order, floor, low, middle)
    }
}
