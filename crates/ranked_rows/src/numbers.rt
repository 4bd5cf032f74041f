//! Rows that stay where they came, and their numbers in the order of their ranks.
ghost use Rattle.std.specs.Prelude.{◌≡◌, ◌<◌, ◌≤◌, IfOk, drop, length, slice_index_or, slice_set, take, vec_capacity};
ghost use Rattle.std.specs.List.{insert};
ghost use Rattle.ranked_rows.specs.Rows.{AreRising, IsNumbering, counted_or, row_of, rows_by, total, with_counts};
ghost use Rattle.ranked_rows.specs.declared.key_count.KeyCount.{KeyCount as Counted};

use crate::counts::Counts;
use crate::key::Ranked;
use crate::key_count::KeyCount;
use crate::lookup::{place_by, remember};
use crate::rows::MOST;
use std::alloc::{AllocError, Global};

/// The rows of these numbers, one after another.
pub(crate) fn rows_in_order<K: Copy, C: Copy>(
    alloc: Global,
    rows: &[KeyCount<K, C>],
    order: &[u16],
) -> Result<Vec<KeyCount<K, C>>, AllocError>
    requires { IsNumbering rows.now order.now }
    ensures { IfOk result (λ sorted. sorted.items ≡ rows_by rows.now order.now) }
{
    let mut sorted = Vec::with_capacity(alloc, order.len())?;
    for number in order {
        sorted.push(rows[usize::from(*number)])?;
    }
    Ok(sorted)
}

/// Counts more of a key in rows, and answers what then has no place. None: all has its place.
pub(crate) fn put<K: Ranked + Copy, C: Counts + Copy>(
    rows: &mut Vec<KeyCount<K, C>>,
    order: &mut Vec<u16>,
    stood: &mut [u16],
    key: K,
    counts: C,
) -> Option<C>
    requires rising { AreRising K.rank (rows_by rows.old.items order.old.items) }
    requires numbers { IsNumbering rows.old.items order.old.items }
    requires few { length rows.old.items ≤ 4096 }
    requires room { 4096 ≤ vec_capacity rows.old }
    requires space { 4096 ≤ vec_capacity order.old }
    ensures rows { rows_by rows.new.items order.new.items
        ≡ take 4096 (with_counts K.rank C.joined key counts (rows_by rows.old.items order.old.items)) }
    ensures rest { counted_or C.none result
        ≡ total C.joined C.none (drop 4096 (with_counts K.rank C.joined key counts (rows_by rows.old.items order.old.items))) }
    ensures numbers { IsNumbering rows.new.items order.new.items }
    ensures few { length rows.new.items ≤ 4096 }
    ensures room { 4096 ≤ vec_capacity rows.new }
    ensures space { 4096 ≤ vec_capacity order.new }
{
    match place_by(rows.as_slice(), order.as_slice(), stood, &key) {
        Ok(number) => {
            more_of(rows, number, counts);
            None
        }
        Err(at) => Some(enter(rows, order, stood, at, KeyCount { key, counts })),
    }
}

/// Counts more of the key of a row.
fn more_of<K: Copy, C: Counts + Copy>(rows: &mut Vec<KeyCount<K, C>>, number: usize, counts: C)
    requires { number < length rows.old.items }
    ensures rows { (d : Counted K C) → rows.new.items ≡ slice_set rows.old.items number
        (row_of (slice_index_or rows.old.items number d).key (C.joined (slice_index_or rows.old.items number d).counts counts)) }
    ensures room { vec_capacity rows.new ≡ vec_capacity rows.old }
{
    rows[number].counts = rows[number].counts.with(counts);
}

/// Enters a row at its place, and answers what then has no place.
fn enter<K: Ranked + Copy, C: Counts + Copy>(
    rows: &mut Vec<KeyCount<K, C>>,
    order: &mut Vec<u16>,
    stood: &mut [u16],
    at: usize,
    row: KeyCount<K, C>,
) -> C
    requires rising { AreRising K.rank (rows_by rows.old.items order.old.items) }
    requires numbers { IsNumbering rows.old.items order.old.items }
    requires inside { at ≤ length order.old.items }
    requires few { length rows.old.items ≤ 4096 }
    requires room { 4096 ≤ vec_capacity rows.old }
    requires space { 4096 ≤ vec_capacity order.old }
    ensures rows { rows_by rows.new.items order.new.items ≡ take 4096 (insert (rows_by rows.old.items order.old.items) at row) }
    ensures rest { result ≡ total C.joined C.none (drop 4096 (insert (rows_by rows.old.items order.old.items) at row)) }
    ensures numbers { IsNumbering rows.new.items order.new.items }
    ensures few { length rows.new.items ≤ 4096 }
    ensures room { 4096 ≤ vec_capacity rows.new }
    ensures space { 4096 ≤ vec_capacity order.new }
{
    if at == MOST {
        return total_of_one(row);
    }
    if rows.len() == MOST {
        return take_last(rows, order, stood, at, row);
    }
    append(rows, order, stood, at, row);
    C::none()
}

/// Puts a row behind all that came, and its number at its place.
pub(crate) fn append<K: Ranked + Copy, C: Copy>(
    rows: &mut Vec<KeyCount<K, C>>,
    order: &mut Vec<u16>,
    stood: &mut [u16],
    at: usize,
    row: KeyCount<K, C>,
)
    requires numbers { IsNumbering rows.old.items order.old.items }
    requires inside { at ≤ length order.old.items }
    requires few { length rows.old.items < 4096 }
    requires room { 4096 ≤ vec_capacity rows.old }
    requires space { 4096 ≤ vec_capacity order.old }
    ensures rows { rows_by rows.new.items order.new.items ≡ insert (rows_by rows.old.items order.old.items) at row }
    ensures numbers { IsNumbering rows.new.items order.new.items }
    ensures few { length rows.new.items ≤ 4096 }
    ensures room { 4096 ≤ vec_capacity rows.new }
    ensures space { 4096 ≤ vec_capacity order.new }
{
    let number = rows.len() as u16;
    remember(stood, &row.key, number);
    // There is room: nothing is taken.
    let _ = rows.push(row);
    let _ = order.insert(at, number);
}

/// Puts a row in the memory of the last in the order, and its number at its place; answers what has no place then.
fn take_last<K: Ranked + Copy, C: Counts + Copy>(
    rows: &mut Vec<KeyCount<K, C>>,
    order: &mut Vec<u16>,
    stood: &mut [u16],
    at: usize,
    row: KeyCount<K, C>,
) -> C
    requires rising { AreRising K.rank (rows_by rows.old.items order.old.items) }
    requires numbers { IsNumbering rows.old.items order.old.items }
    requires inside { at < length order.old.items }
    requires full { length rows.old.items ≡ 4096 }
    requires space { 4096 ≤ vec_capacity order.old }
    ensures rows { rows_by rows.new.items order.new.items ≡ take 4096 (insert (rows_by rows.old.items order.old.items) at row) }
    ensures rest { result ≡ total C.joined C.none (drop 4096 (insert (rows_by rows.old.items order.old.items) at row)) }
    ensures numbers { IsNumbering rows.new.items order.new.items }
    ensures few { length rows.new.items ≡ 4096 }
    ensures room { vec_capacity rows.new ≡ vec_capacity rows.old }
    ensures space { vec_capacity order.new ≡ vec_capacity order.old }
{
    let Some(last) = order.pop() else {
        return C::none();
    };
    remember(stood, &row.key, last);
    let number = usize::from(last);
    let rest = total_of_one(rows[number]);
    rows[number] = row;
    // There is room: nothing is taken.
    let _ = order.insert(at, last);
    rest
}

/// What a row alone comes to.
fn total_of_one<K: Copy, C: Counts + Copy>(row: KeyCount<K, C>) -> C
    ensures { result ≡ C.joined row.counts C.none }
{
    row.counts.with(C::none())
}
