//! Where keys have their rows.
ghost use Rattle.std.specs.Prelude.{◌≡◌, ◌<◌, ◌≤◌, IfErr, IfOk, length, nat_lt, slice_index_or, true};
ghost use Rattle.ranked_rows.specs.Rows.{AreRising, IsNumbering, IsPlaceOf, row_at, rows_by, stands_before};
ghost use Rattle.ranked_rows.specs.declared.key_count.KeyCount.{KeyCount as Counted};

use crate::key::Ranked;
use crate::key_count::KeyCount;
use crate::rows::MOST;

/// The number of a key's row, and it is remembered. `Err`: it has none, and its place among all numbers. Where the table is full
/// most keys without a row stand behind all that have one, so that is asked first, and the last row alone is looked at.
pub(crate) fn place_by<K: Ranked, C>(
    rows: &[KeyCount<K, C>],
    order: &[u16],
    stood: &mut [u16],
    key: &K,
) -> Result<usize, usize>
    requires rising { AreRising K.rank (rows_by rows.now order.now) }
    requires numbers { IsNumbering rows.now order.now }
    ensures inside { IfOk result (λ number. number < length rows.now) }
    ensures row { IfOk result (λ number. (d : Counted K C) → K.rank (slice_index_or rows.now number d).key ≡ K.rank key.now) }
    ensures place { IfErr result (IsPlaceOf K.rank (K.rank key.now) (rows_by rows.now order.now)) }
    ensures behind { IfErr result (λ at. (d : Counted K C) → at < length (rows_by rows.now order.now)
        → K.rank key.now < K.rank (slice_index_or (rows_by rows.now order.now) at d).key) }
{
    if order.len() == MOST && is_behind_all(rows, order, key) {
        return Err(order.len());
    }
    let number = remembered(stood, key);
    if is_at(rows, number, key) {
        return Ok(number);
    }
    let at = place_among(rows, order, key);
    if at == order.len() {
        return Err(at);
    }
    let number = order[at];
    if is_behind(rows, number, key) {
        return Err(at);
    }
    remember(stood, key, number);
    Ok(usize::from(number))
}

/// The number of a row that a key of this mix had; it may be another's.
fn remembered<K: Ranked>(stood: &[u16], key: &K) -> usize {
    stood
        .get(usize::from(key.mix()))
        .map_or(0, |number| usize::from(*number))
}

/// Remembers the number of a key's row.
pub(crate) fn remember<K: Ranked>(stood: &mut [u16], key: &K, number: u16) {
    if let Some(last) = stood.get_mut(usize::from(key.mix())) {
        *last = number;
    }
}

/// Whether the row of this number is a key's, as far as that is seen at once.
fn is_at<K: Ranked, C>(rows: &[KeyCount<K, C>], number: usize, key: &K) -> bool
    ensures inside { result ≡ true → number < length rows.now }
    ensures row { result ≡ true → (d : Counted K C) → K.rank (slice_index_or rows.now number d).key ≡ K.rank key.now }
{
    number < rows.len() && key.is_same(&rows[number].key)
}

/// Whether the row of this number stands behind that of a key.
fn is_behind<K: Ranked, C>(rows: &[KeyCount<K, C>], number: u16, key: &K) -> bool
    requires { number < length rows.now }
    ensures { (d : Counted K C) → result ≡ nat_lt (K.rank key.now) (K.rank (slice_index_or rows.now number d).key) }
{
    let row = &rows[usize::from(number)];
    !key.is_same(&row.key) && key.is_below(&row.key)
}

/// Whether a key stands behind the last row, and so behind all.
fn is_behind_all<K: Ranked, C>(rows: &[KeyCount<K, C>], order: &[u16], key: &K) -> bool
    requires rising { AreRising K.rank (rows_by rows.now order.now) }
    requires numbers { IsNumbering rows.now order.now }
    ensures { result ≡ true → IsPlaceOf K.rank (K.rank key.now) (rows_by rows.now order.now) (length order.now) }
{
    let count = order.len();
    count > 0 && is_before(rows, usize::from(order[count - 1]), key)
}

/// The place of the first number whose row doesn't stand before that of a key, by halves.
fn place_among<K: Ranked, C>(rows: &[KeyCount<K, C>], order: &[u16], key: &K) -> usize
    requires rising { AreRising K.rank (rows_by rows.now order.now) }
    requires numbers { IsNumbering rows.now order.now }
    ensures place { IsPlaceOf K.rank (K.rank key.now) (rows_by rows.now order.now) result }
    ensures inside { result ≤ length order.now }
{
    order.partition_point(
        |number|
            ensures { result ≡ stands_before K.rank (K.rank key.entry.now) (row_at rows.entry.now number.now) }
        { is_before(rows, usize::from(*number), key) },
    )
}

/// Whether there is a row of this number, and it stands before that of a key.
fn is_before<K: Ranked, C>(rows: &[KeyCount<K, C>], number: usize, key: &K) -> bool
    ensures { result ≡ stands_before K.rank (K.rank key.now) (row_at rows.now number) }
{
    number < rows.len() && rows[number].key.is_below(key)
}
