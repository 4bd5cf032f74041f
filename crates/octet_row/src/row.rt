//! Octets in a row.
ghost use Rattle.std.specs.Prelude.{◌≡◌, ◌≤◌, ◌<◌, ◌+◌, ◌-◌, [], ◌++◌, IfOk, drop, length, take, vec_capacity};

use std::alloc::{AllocError, Global};
use std::marker::Model;

/// At most `MOST` octets, of which the first can be forgotten; seen by contracts as the list of those that it holds. Only
/// [`Row::new`] takes memory.
#[derive(Drop)]
pub struct Row<const MOST: usize> {
    octets: Vec<u8>,
    /// How many of them are forgotten.
    forgotten: usize,
    /// How many are forgotten at least before those that are held move to the front.
    least_moved: usize,
}

impl<const MOST: usize> Model for Row<MOST> {
    ghost use Rattle.std.specs.Prelude.{ℕ, ◌≤◌, List, drop, length, vec_capacity};

    ghost Value = { List ℕ };

    ghost view = { λ r. drop r.forgotten r.octets.items };

    ghost invariant = { λ r. (r.forgotten ≤ length r.octets.items) × (MOST ≤ vec_capacity r.octets) };
}

impl<const MOST: usize> Row<MOST> {
    /// A row of none, which reserves all its room. What it holds moves to the front where as much is forgotten, and so many octets
    /// at least, or where there is no room: so only as much memory is touched as it holds and that.
    pub fn new(alloc: Global, room: usize, least_moved: usize) -> Result<Row<MOST>, AllocError>
        requires { MOST ≤ room }
        ensures { IfOk result (λ row. row ≡ []) }
    {
        Ok(Row {
            octets: Vec::with_capacity(alloc, room)?,
            forgotten: 0,
            least_moved,
        })
    }

    /// The octets that it holds.
    #[inline(always)]
    pub fn held(&self) -> &[u8]
        ensures { result.now ≡ self.now }
    {
        &self.octets[self.forgotten..]
    }

    /// How many octets it holds.
    #[inline(always)]
    pub fn count(&self) -> usize
        ensures { result ≡ length self.now }
    {
        self.octets.len() - self.forgotten
    }

    /// So many of its octets behind the first `at`.
    #[inline(always)]
    pub fn part(&self, at: usize, count: usize) -> &[u8]
        requires { at + count ≤ length self.now }
        ensures octets { result.now ≡ take count (drop at self.now) }
        ensures bound { at + count < 18446744073709551616 }
    {
        let begin = self.forgotten + at;
        &self.octets[begin..begin + count]
    }

    /// Forgets the first octets.
    #[inline(always)]
    pub fn forget(&mut self, count: usize)
        requires { count ≤ length self.old }
        ensures { self.new ≡ drop count self.old }
    {
        self.forgotten += count;
    }

    /// Puts two texts behind what it holds.
    #[inline(always)]
    pub fn put(&mut self, first: &[u8], second: &[u8])
        requires { length self.old + length first.now + length second.now ≤ MOST }
        ensures { self.new ≡ self.old ++ (first.now ++ second.now) }
    {
        let more = first.len() + second.len();
        if more > self.octets.capacity() - self.octets.len() || self.is_half_forgotten() {
            close_up(&mut self.octets, self.forgotten);
            self.forgotten = 0;
        }
        append(&mut self.octets, first);
        append(&mut self.octets, second);
    }

    /// Whether at least as much is forgotten as is held, and as is worth it.
    #[inline]
    fn is_half_forgotten(&self) -> bool {
        self.forgotten >= self.least_moved && self.forgotten >= self.octets.len() - self.forgotten
    }
}

/// Moves all but the first octets to the front.
fn close_up(octets: &mut Vec<u8>, count: usize)
    requires { count ≤ length octets.old.items }
    ensures items { octets.new.items ≡ drop count octets.old.items }
    ensures capacity { vec_capacity octets.new ≡ vec_capacity octets.old }
{
    let held = octets.len();
    shift(octets.as_mut_slice(), count, held);
    octets.truncate(held - count);
}

/// Moves the octets from `count` to `held` to the front. Where they aren't more than those in front of them, they are copied at
/// once: the library moves what overlaps by 16 octets a turn of a loop.
fn shift(octets: &mut [u8], count: usize, held: usize)
    requires order { count ≤ held }
    requires whole { held ≡ length octets.old }
    ensures front { take (held - count) octets.new ≡ drop count octets.old }
    ensures size { length octets.new ≡ length octets.old }
{
    if held - count > count {
        return octets.copy_within(count..held, 0);
    }
    let (front, rest) = octets.split_at_mut(count);
    front[..held - count].copy_from_slice(rest);
}

/// Puts octets behind others where there is room for them.
#[inline(always)]
fn append(octets: &mut Vec<u8>, text: &[u8])
    requires { length octets.old.items + length text.now ≤ vec_capacity octets.old }
    ensures items { octets.new.items ≡ octets.old.items ++ text.now }
    ensures capacity { vec_capacity octets.old ≤ vec_capacity octets.new }
{
    if text.is_empty() {
        return;
    }
    // There is room: nothing is taken.
    let _ = octets.extend_from_slice(text);
}
