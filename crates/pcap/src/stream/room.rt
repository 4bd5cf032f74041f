//! Room for octets that are held back.
ghost use Rattle.std.specs.Prelude.{◌≡◌, ◌≤◌, ◌+◌, ◌-◌, [], ◌++◌, IfOk, drop, length, take, nat_le, vec_capacity};

use crate::stream::write::{put_behind, put_four};
use std::alloc::{AllocError, Global};
use std::marker::Model;

/// How long a room is at least, where it may be so long, once something was put there.
const LEAST: usize = 4_096;

/// Room for so many octets, which is reserved at once and grows within that as it is used.
///
/// Contracts see the octets that it holds, how many it may hold, and how many more find room before it grows.
#[derive(Drop)]
pub struct Room {
    octets: Vec<u8>,
    /// How many octets it may hold.
    size: usize,
    /// How many it holds.
    held: usize,
}

impl Model for Room {
    ghost use Rattle.std.specs.Prelude.{◌-◌, length, take, vec_capacity};
    ghost use Rattle.pcap.specs.Room.{Grows, Room};

    ghost Value = { Room };

    ghost view = { λ r. record {
      held = take r.held r.octets.items;
      free = length r.octets.items - r.held;
      size = r.size;
    } };

    ghost invariant = { λ r. Grows r.octets.items r.held r.size (vec_capacity r.octets) };
}

impl Room {
    /// Reserves room for so many octets.
    pub fn new(alloc: Global, size: usize) -> Result<Room, AllocError>
        ensures { IfOk result (λ made. made ≡ record {
          held = [];
          free = 0;
          size = size;
        }) }
    {
        let octets = Vec::with_capacity(alloc, size)?;
        Ok(Room {
            octets,
            size,
            held: 0,
        })
    }

    /// The octets that it holds.
    pub fn held(&self) -> &[u8]
        ensures { result.now ≡ self.now.held }
    {
        &self.octets[..self.held]
    }

    /// How many more octets find room before it grows.
    #[inline(always)]
    pub fn free(&self) -> usize
        ensures value { result ≡ self.now.free }
        ensures within { length self.now.held + self.now.free ≤ self.now.size }
    {
        self.octets.len() - self.held
    }

    /// Tells whether it may hold so many more.
    pub fn may_hold(&self, more: usize) -> bool
        ensures { result ≡ nat_le (length self.now.held + more) self.now.size }
    {
        more <= self.size - self.held
    }

    /// Grows where so many more find no room.
    pub fn widen(&mut self, more: usize)
        requires { length self.old.held + more ≤ self.old.size }
        ensures free { more ≤ self.new.free }
        ensures held { self.new.held ≡ self.old.held }
        ensures size { self.new.size ≡ self.old.size }
    {
        if self.free() < more {
            let twice = self.octets.len().saturating_mul(2);
            let end = (self.held + more).max(twice).max(LEAST).min(self.size);
            let Ok(()) = self.octets.resize(end, 0) else {
                unreachable!()
            };
        }
    }

    /// Takes out the first octets.
    pub fn forget(&mut self, count: usize)
        requires { count ≤ length self.old.held }
        ensures { self.new ≡ record self.old {
          held = drop count self.old.held;
          free = self.old.free + count;
        } }
    {
        shift(self.octets.as_mut_slice(), count, self.held);
        self.held -= count;
    }

    /// Puts octets behind those that it holds.
    #[inline]
    pub fn put(&mut self, octets: &[u8])
        requires { length octets.now ≤ self.old.free }
        ensures { self.new ≡ record self.old {
          held = self.old.held ++ octets.now;
          free = self.old.free - length octets.now;
        } }
    {
        self.held = put_behind(self.octets.as_mut_slice(), self.held, octets);
    }

    /// Puts five texts behind those that it holds.
    #[inline(always)]
    pub fn put_gathered(
        &mut self,
        before: &[u8],
        head: &[u8],
        addresses: &[u8],
        tag: &[u8],
        body: &[u8],
    )
        requires { length before.now + length head.now + length addresses.now + length tag.now + length body.now ≤ self.old.free }
        ensures { self.new ≡ record self.old {
          held = self.old.held ++ (before.now ++ (head.now ++ (addresses.now ++ (tag.now ++ body.now))));
          free = self.old.free - (length before.now + length head.now + length addresses.now + length tag.now + length body.now);
        } }
    {
        let room = self.octets.as_mut_slice();
        let front_end = put_four(room, self.held, before, head, addresses, tag);
        self.held = put_behind(room, front_end, body);
    }
}

/// Moves the octets from `count` to `held` to the front.
fn shift(octets: &mut [u8], count: usize, held: usize)
    requires order { count ≤ held }
    requires fits { held ≤ length octets.old }
    ensures front { take (held - count) octets.new ≡ drop count (take held octets.old) }
    ensures size { length octets.new ≡ length octets.old }
{
    octets.copy_within(count..held, 0);
}
