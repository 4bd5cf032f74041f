//! Records that were received alone, and which of them is near one that was sent alone.
ghost use Rattle.std.specs.Prelude.{◌≡◌, ◌<◌, ◌-◌, ◌++◌, ◌∷◌, [], OnErr, OnOk, drop, length, take, true};
ghost use Rattle.std.specs.List.{remove};
ghost use Rattle.record_match.specs.Kept.{told};
ghost use Rattle.capture_compare.specs.Looking.{FindsNear, alone_at};
ghost use Rattle.capture_compare.specs.Near.{has_room, held_with, is_first_before, left_at, near_at, near_by, since};

use crate::lonely::difference::{Difference, difference_by};
use crate::lonely::segment::Reading;
use record_match::Seen;
use std::alloc::{AllocError, Global};
use std::collections::VecDeque;
use std::marker::Model;

/// How many records are held at most, and how many octets: as many as a window holds of what was sent.
const MOST_RECORDS: usize = 1_048_576;

const MOST_OCTETS: usize = 268_435_456;

/// How many of them are looked at for one that was sent alone.
const MOST_LOOKED_AT: usize = 256;

/// A record that was received alone and is near one that was sent alone.
#[derive(Clone, Copy, Debug)]
pub struct Named {
    /// Its number in its capture, from 1.
    pub number: u64,
    /// The one thing in which it differs.
    pub difference: Difference,
}

/// A record that was received alone.
#[derive(Drop)]
struct Held {
    number: u64,
    /// Nanoseconds.
    moment: u64,
    octets: Vec<u8>,
    missing: u32,
}

impl Model for Held {
    ghost use Rattle.capture_compare.specs.Near.{Alone};

    ghost Value = { Alone };

    ghost view = { λ h. record {
      number = h.number;
      seen = record { moment = h.moment; octets = h.octets.items; missing = h.missing };
    } };
}

/// The records that were received alone, may be near one that is told to be sent alone from now on, and weren't named yet; seen by
/// contracts as their list. Where there is no room for one more it isn't held.
#[derive(Drop)]
pub struct LonelySeen {
    alloc: Global,
    /// The earliest first.
    held: VecDeque<Held>,
    /// How many octets they have together.
    octets: usize,
}

impl Model for LonelySeen {
    ghost use Rattle.std.specs.Prelude.{◌≡◌, ◌≤◌, List, length};
    ghost use Rattle.capture_compare.specs.Near.{Alone, octets_in};

    ghost Value = { List Alone };

    ghost view = { λ l. l.held.items };

    ghost invariant = { λ l. (l.octets ≡ octets_in l.held.items) × (l.octets ≤ 268435456) };
}

impl LonelySeen {
    /// One that holds none.
    pub fn new(alloc: Global) -> LonelySeen
        ensures { result ≡ [] }
    {
        LonelySeen {
            alloc,
            held: VecDeque::new(alloc),
            octets: 0,
        }
    }

    /// Holds one more that was received alone, with its number, where there is room. Those go that were received more than so many
    /// nanoseconds before it.
    ///
    /// `AllocError`: there is no memory for its octets; it isn't held.
    pub fn hold(&mut self, within: u64, number: u64, received: &Seen) -> Result<(), AllocError>
        ensures held { OnOk result (self.new ≡ held_with within (record { number = number; seen = told received.now }) self.old) }
        ensures refused { OnErr result (self.new ≡ since (received.now.moment - within) self.old) }
    {
        self.pass(received.moment.saturating_sub(within));
        if !self.has_room(received.octets.len()) {
            return Ok(());
        }
        self.put(number, received)
    }

    /// The first one that is near a record that was sent alone, of those that were received no earlier, where one of the first 256 is:
    /// it may be received at most so many nanoseconds later. That one is no longer held, and neither are earlier ones.
    pub fn name(&mut self, reading: Reading, within: u64, sent: &Seen) -> Option<Named>
        ensures near { result ≡ near_at reading within (told sent.now) self.old }
        ensures left { self.new ≡ left_at reading within (told sent.now) self.old }
    {
        self.pass(sent.moment);
        match self.find(reading, within, sent) {
            Some((i, difference)) => Some(Named {
                number: self.let_go(i, sent),
                difference,
            }),
            None => None,
        }
    }

    /// Lets those in front go that are earlier than a moment.
    fn pass(&mut self, moment: u64)
        ensures { self.new ≡ since moment self.old }
    {
        while self.is_first_before(moment) {
            self.forget_first();
        }
    }

    /// Whether the first one is earlier than a moment.
    fn is_first_before(&self, moment: u64) -> bool
        ensures { result ≡ is_first_before moment self.now }
    {
        match self.held.front() {
            Some(held) => held.moment < moment,
            None => false,
        }
    }

    /// Lets the first one go.
    fn forget_first(&mut self)
        requires { 0 < length self.old }
        ensures { self.new ≡ drop 1 self.old }
    {
        let Some(held) = self.held.pop_front() else {
            return;
        };
        self.octets -= held.octets.len();
    }

    /// Whether there is room for a record of so many octets.
    fn has_room(&self, more: usize) -> bool
        ensures { result ≡ has_room more self.now }
    {
        self.held.len() < MOST_RECORDS && more <= MOST_OCTETS - self.octets
    }

    /// Holds a record for which there is room.
    fn put(&mut self, number: u64, received: &Seen) -> Result<(), AllocError>
        requires { has_room (length received.now.octets.now) self.old ≡ true }
        ensures held { OnOk result (self.new ≡ self.old ++ record { number = number; seen = told received.now } ∷ []) }
        ensures refused { OnErr result (self.new ≡ self.old) }
    {
        let octets = Vec::from_slice(self.alloc, received.octets)?;
        self.held.push_back(Held {
            number,
            moment: received.moment,
            octets,
            missing: received.missing,
        })?;
        self.octets += received.octets.len();
        Ok(())
    }

    /// Where the first one stands that is near a record that was sent alone, of the first 256, and what of it differs.
    fn find(&self, reading: Reading, within: u64, sent: &Seen) -> Option<(usize, Difference)>
        ensures { FindsNear reading within (told sent.now) (take 256 self.now) result }
    {
        let count = self.held.len().min(MOST_LOOKED_AT);
        for i in 0..count {
            if let Some(difference) = near_by(reading, within, sent, &self.held[i]) {
                return Some((i, difference));
            }
        }
        None
    }

    /// Lets one go, and answers its number.
    fn let_go(&mut self, i: usize, sent: &Seen) -> u64
        requires { i < length self.old }
        ensures left { self.new ≡ remove self.old i }
        ensures number { result ≡ (alone_at (told sent.now) self.old i).number }
    {
        let Some(held) = self.held.remove(i) else {
            return 0;
        };
        self.octets -= held.octets.len();
        held.number
    }
}

/// What of a record that was received differs from one that was sent, where it may be that one by its moment, and as many octets
/// of both are missing.
fn near_by(reading: Reading, within: u64, sent: &Seen, received: &Held) -> Option<Difference>
    ensures { result ≡ near_by reading within (told sent.now) received.now.seen }
{
    if sent.moment > received.moment || received.moment - sent.moment > within {
        return None;
    }
    if sent.missing != received.missing {
        return None;
    }
    difference_by(
        reading,
        sent.missing,
        sent.octets,
        received.octets.as_slice(),
    )
}
