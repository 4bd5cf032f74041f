//! Numbers in order, the largest first.
ghost use Rattle.std.specs.Prelude.{◌≡◌, ◌≤◌, length, nat_lt, position, take};
ghost use Rattle.std.specs.List.{position_or_len};
ghost use Rattle.report_page.specs.Order.{in_order, largest, placed};

use crate::series::Numbers;
use arrayvec::ArrayVec;

/// So many are kept.
const MOST: usize = 40;

/// The places of so many numbers from 0 on: the largest first, and of two as large the lower first; forty at most, and only those
/// of which there is something.
#[tactic(auto, using(crate::proofs::Ordered::largest_none, crate::proofs::Ordered::largest_put, crate::proofs::Ordered::largest_same))]
pub(crate) fn largest<N: Numbers>(numbers: &N, count: u16) -> ArrayVec<u16, 41>
    ensures places { result.items ≡ largest (N.number numbers.now) count }
    ensures few { length result.items ≤ 40 }
{
    let mut order = ArrayVec::new();
    for place in 0..count {
        if numbers.number(place) > 0 {
            put(&mut order, numbers, place);
        }
    }
    order
}

/// Puts a place among others in their order, of which the first forty are kept.
fn put<N: Numbers>(order: &mut ArrayVec<u16, 41>, numbers: &N, place: u16)
    requires { length order.old.items ≤ 40 }
    ensures places { order.new.items ≡ take 40 (placed (N.number numbers.now) place order.old.items) }
    ensures few { length order.new.items ≤ 40 }
{
    let at = place_among(order.as_slice(), numbers, place);
    order.insert(at, place);
    order.truncate(MOST);
}

/// Where a place stands among others in their order: in front of the first of which there is less.
#[tactic(auto, using(crate::proofs::Ordered::place_is, crate::proofs::Ordered::place_inside))]
fn place_among<N: Numbers>(order: &[u16], numbers: &N, place: u16) -> usize
    ensures value { result ≡ position_or_len (λ other. nat_lt (N.number numbers.now other) (N.number numbers.now place)) order.now }
    ensures inside { result ≤ length order.now }
{
    first_less(order, numbers, numbers.number(place)).unwrap_or(order.len())
}

/// The first of places of which there is less than so much.
fn first_less<N: Numbers>(places: &[u16], numbers: &N, size: u64) -> Option<usize>
    ensures { result ≡ position (λ place. nat_lt (N.number numbers.now place) size) places.now }
{
    places
        .iter()
        .position(|place| is_less(numbers, *place, size))
}

/// Whether there is less at a place than so much.
fn is_less<N: Numbers>(numbers: &N, place: u16, size: u64) -> bool
    ensures { result ≡ nat_lt (N.number numbers.now place) size }
{
    numbers.number(place) < size
}
