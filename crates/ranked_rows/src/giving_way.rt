//! Rows that give way to others.
ghost use Rattle.std.specs.Prelude.{◌≡◌, ◌<◌, ◌≤◌, length, slice_index_or, slice_set, vec_capacity};
ghost use Rattle.std.specs.List.{insert, remove};
ghost use Rattle.ranked_rows.specs.Frequent.{Puts, place_then, since};
ghost use Rattle.ranked_rows.specs.Rows.{AreRising, IsNumbering, IsPlaceOf, row_of, rows_by};
ghost use Rattle.ranked_rows.specs.declared.key_count.KeyCount.{KeyCount as Counted};
ghost use Rattle.ranked_rows.specs.declared.since.Since.{Since as Later};

use crate::frequency::Frequency;
use crate::key::Ranked;
use crate::key_count::KeyCount;
use crate::least::Least;
use crate::lookup::{place_by, remember};
use crate::numbers::append;
use crate::rows::MOST;
use crate::since::Since;

/// Counts more of a key in rows, and answers what no row counts from now on. None: all is counted in its row.
pub(crate) fn put<K: Ranked + Copy, C: Frequency + Copy>(
    rows: &mut Vec<KeyCount<K, Since<C>>>,
    order: &mut Vec<u16>,
    stood: &mut [u16],
    least: &mut Least,
    more: KeyCount<K, C>,
) -> Option<C>
    requires rising { AreRising K.rank (rows_by rows.old.items order.old.items) }
    requires numbers { IsNumbering rows.old.items order.old.items }
    requires few { length rows.old.items ≤ 4096 }
    requires room { 4096 ≤ vec_capacity rows.old }
    requires space { 4096 ≤ vec_capacity order.old }
    ensures puts { Puts K.rank C.joined C.times (rows_by rows.old.items order.old.items) least.old.floor more
        (rows_by rows.new.items order.new.items) least.new.floor result }
    ensures numbers { IsNumbering rows.new.items order.new.items }
    ensures few { length rows.new.items ≤ 4096 }
    ensures room { 4096 ≤ vec_capacity rows.new }
    ensures space { 4096 ≤ vec_capacity order.new }
{
    match place_by(rows.as_slice(), order.as_slice(), stood, &more.key) {
        Ok(number) => {
            more_of(rows, number, more.counts);
            None
        }
        Err(at) => enter(rows, order, stood, least, at, more),
    }
}

/// Counts more of the key of a row.
fn more_of<K: Copy, C: Frequency + Copy>(
    rows: &mut Vec<KeyCount<K, Since<C>>>,
    number: usize,
    counts: C,
)
    requires { number < length rows.old.items }
    ensures rows { (d : Counted K (Later C)) → rows.new.items ≡ slice_set rows.old.items number
        (row_of (slice_index_or rows.old.items number d).key
        (since (C.joined (slice_index_or rows.old.items number d).counts.counts counts) (slice_index_or rows.old.items number d).counts.before)) }
    ensures room { vec_capacity rows.new ≡ vec_capacity rows.old }
{
    rows[number].counts.counts = rows[number].counts.counts.with(counts);
}

/// Makes a row at its place, and answers what no row counts from now on.
fn enter<K: Ranked + Copy, C: Frequency + Copy>(
    rows: &mut Vec<KeyCount<K, Since<C>>>,
    order: &mut Vec<u16>,
    stood: &mut [u16],
    least: &mut Least,
    at: usize,
    more: KeyCount<K, C>,
) -> Option<C>
    requires rising { AreRising K.rank (rows_by rows.old.items order.old.items) }
    requires numbers { IsNumbering rows.old.items order.old.items }
    requires inside { at ≤ length order.old.items }
    requires place { IsPlaceOf K.rank (K.rank more.key) (rows_by rows.old.items order.old.items) at }
    requires behind { (d : Counted K (Later C)) → at < length (rows_by rows.old.items order.old.items)
        → K.rank more.key < K.rank (slice_index_or (rows_by rows.old.items order.old.items) at d).key }
    requires few { length rows.old.items ≤ 4096 }
    requires room { 4096 ≤ vec_capacity rows.old }
    requires space { 4096 ≤ vec_capacity order.old }
    ensures puts { Puts K.rank C.joined C.times (rows_by rows.old.items order.old.items) least.old.floor more
        (rows_by rows.new.items order.new.items) least.new.floor result }
    ensures numbers { IsNumbering rows.new.items order.new.items }
    ensures few { length rows.new.items ≤ 4096 }
    ensures room { 4096 ≤ vec_capacity rows.new }
    ensures space { 4096 ≤ vec_capacity order.new }
{
    if rows.len() < MOST {
        append(rows, order, stood, at, first_since(more, least.floor));
        return None;
    }
    let place = least.place(rows.as_slice(), order.as_slice());
    let row = first_since(more, least.floor);
    Some(replace(rows, order, stood, place, at, row))
}

/// A row that begins where its key may have come so often before.
fn first_since<K: Copy, C: Copy>(more: KeyCount<K, C>, before: u64) -> KeyCount<K, Since<C>>
    ensures { result ≡ row_of more.key (since more.counts before) }
{
    KeyCount {
        key: more.key,
        counts: Since {
            counts: more.counts,
            before,
        },
    }
}

/// Puts a row in the memory of the one at a place in the order, and its number where it stands; answers what that one counted.
fn replace<K: Ranked + Copy, C: Frequency + Copy>(
    rows: &mut Vec<KeyCount<K, Since<C>>>,
    order: &mut Vec<u16>,
    stood: &mut [u16],
    place: usize,
    at: usize,
    row: KeyCount<K, Since<C>>,
) -> C
    requires rising { AreRising K.rank (rows_by rows.old.items order.old.items) }
    requires numbers { IsNumbering rows.old.items order.old.items }
    requires there { place < length order.old.items }
    requires inside { at ≤ length order.old.items }
    requires full { length rows.old.items ≡ 4096 }
    requires space { 4096 ≤ vec_capacity order.old }
    ensures rows { rows_by rows.new.items order.new.items
        ≡ insert (remove (rows_by rows.old.items order.old.items) place) (place_then place at) row }
    ensures gone { (d : Counted K (Later C))
        → result ≡ (slice_index_or (rows_by rows.old.items order.old.items) place d).counts.counts }
    ensures numbers { IsNumbering rows.new.items order.new.items }
    ensures few { length rows.new.items ≡ length rows.old.items }
    ensures room { vec_capacity rows.new ≡ vec_capacity rows.old }
    ensures space { vec_capacity order.new ≡ vec_capacity order.old }
{
    let number = order.remove(place);
    remember(stood, &row.key, number);
    let memory = usize::from(number);
    let gone = rows[memory].counts.counts;
    rows[memory] = row;
    // There is room: nothing is taken.
    let _ = order.insert(place_then(place, at), number);
    gone
}

/// The place in an order of which the one at another place is taken out.
fn place_then(gone: usize, at: usize) -> usize
    ensures { result ≡ place_then gone at }
{
    if gone < at { at - 1 } else { at }
}
