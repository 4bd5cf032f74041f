//! The records that were sent and may still be received.
ghost use Rattle.std.specs.Prelude.{◌≡◌, ◌≤◌, ◌<◌, ◌+◌, ◌&&◌, [], ◌∷◌, ◌++◌, ◌==◌, IfOk, drop, is_some};
ghost use Rattle.std.specs.Prelude.{length, if◌then◌else◌, slice_index_or, replicate, true};
ghost use Rattle.std.specs.VecDeque.{deque_capacity};
ghost use Rattle.record_match.specs.Kept.{behind, linked, told};
ghost use Rattle.record_match.specs.Match.{as_sent, is_known, is_met_by};
ghost use Rattle.std.specs.List.{FoldsTo};
ghost use Rattle.record_match.specs.Settled.{first_alone, gone_alone, held_alone, sent_moment};
ghost use Rattle.record_match.specs.Window.{FindsFirst, at_moment, has_room, has_space, is_counted};
ghost use Rattle.record_match.specs.Window.{is_first_over, sent_to, taken_at, with_received, with_sent};

use crate::bucket::{BUCKETS, bucket_of};
use crate::kept::{Ends, Kept, behind};
use crate::onlooker::Onlooker;
use crate::seen::Seen;
use octet_row::Row;
use std::alloc::{AllocError, Global};
use std::collections::VecDeque;
use std::marker::Model;

/// How many records a window holds at most.
const MOST_RECORDS: usize = 1_048_576;

/// How many octets it holds at most.
const MOST_OCTETS: usize = 268_435_456;

/// For how many there is room: as many may be forgotten before those that are held move to the front.
const ROOM: usize = 2 * MOST_OCTETS;

/// How many octets are forgotten at least before that.
const LEAST_MOVED: usize = 1_048_576;

/// How many records, and how many octets, may be sent in all: so their numbers fit.
const MOST_IN_ALL: u64 = 4_611_686_018_427_387_904;

/// The latest records that were sent, at most 1,048,576 of them and 268,435,456 octets, and which of them were received. Only
/// [`Window::new`] takes memory.
#[derive(Drop)]
pub struct Window {
    /// How many nanoseconds later a record may be received.
    within: u64,
    /// How many records went before those that are kept, and how many octets.
    gone: u64,
    passed: u64,
    /// The earliest first.
    kept: VecDeque<Kept>,
    /// Their octets, in the same order.
    row: Row<MOST_OCTETS>,
    /// The first and the last record of each bucket.
    ends: Vec<Ends>,
}

impl Model for Window {
    ghost use Rattle.std.specs.Prelude.{◌+◌, length};
    ghost use Rattle.std.specs.VecDeque.{deque_capacity};
    ghost use Rattle.record_match.specs.Kept.{IsSound, laid};
    ghost use Rattle.record_match.specs.Window.{Window};

    ghost Value = { Window };

    ghost view = { λ w. record {
      within = w.within;
      records = w.gone + length w.kept.items;
      octets = w.passed + length w.row;
      held = laid w.kept.items w.row;
    } };

    ghost invariant = { λ w. IsSound w.gone w.passed w.kept.items w.row w.ends.items (deque_capacity w.kept) };
}

impl Window {
    /// A window that holds no record yet, for records that are received at most so many nanoseconds later. It takes the memory for
    /// all that it may hold, and `AllocError` says that there was none.
    pub fn new(alloc: Global, within: u64) -> Result<Window, AllocError>
        ensures { IfOk result (λ window. window ≡ record { within = within; records = 0; octets = 0; held = [] }) }
    {
        Ok(Window {
            within,
            gone: 0,
            passed: 0,
            kept: VecDeque::with_capacity(alloc, MOST_RECORDS)?,
            row: Row::new(alloc, ROOM, LEAST_MOVED)?,
            ends: no_ends(alloc, bucket_count())?,
        })
    }

    /// Takes the next record that was sent; those that are over at its moment go before. Says whether there was room for it:
    /// where there is none, it isn't held.
    pub fn send<W: Onlooker>(&mut self, sent: &Seen, onlooker: &mut W) -> bool
        ensures answer { result ≡ has_room (at_moment sent.now.moment self.old) (length sent.now.octets.now) }
        ensures window { self.new ≡ sent_to (told sent.now) (at_moment sent.now.moment self.old) }
        ensures seen { FoldsTo W.sees onlooker.old (gone_alone sent.now.moment self.old) onlooker.new }
    {
        self.pass(sent.moment, onlooker);
        if !self.has_room(sent.octets.len()) {
            return false;
        }
        self.put(sent);
        true
    }

    /// Takes the next record that was received; those that are over at its moment go before. Says whether it is one that was
    /// sent, and when that was sent.
    pub fn receive<W: Onlooker>(&mut self, received: &Seen, onlooker: &mut W) -> Option<u64>
        ensures answer { is_some result ≡ is_known self.old.within (told received.now)
            (at_moment received.now.moment self.old).held }
        ensures moment { result ≡ sent_moment self.old.within (told received.now) (at_moment received.now.moment self.old).held }
        ensures window { self.new ≡ with_received (told received.now) (at_moment received.now.moment self.old) }
        ensures seen { FoldsTo W.sees onlooker.old (gone_alone received.now.moment self.old) onlooker.new }
    {
        self.pass(received.moment, onlooker);
        match self.search(received) {
            Some(i) => Some(self.take(i, received)),
            None => None,
        }
    }

    /// Lets all records go, and tells those that weren't received.
    pub fn finish<W: Onlooker>(&mut self, onlooker: &mut W)
        ensures window { self.new ≡ record self.old { held = [] } }
        ensures seen { FoldsTo W.sees onlooker.old (held_alone self.old.records self.old.held) onlooker.new }
    {
        while !self.is_empty() {
            self.settle_first(onlooker);
        }
    }

    /// Lets those go that are over at a moment, up to the first that isn't, and tells those that weren't received.
    fn pass<W: Onlooker>(&mut self, now: u64, onlooker: &mut W)
        ensures window { self.new ≡ at_moment now self.old }
        ensures seen { FoldsTo W.sees onlooker.old (gone_alone now self.old) onlooker.new }
    {
        while self.is_first_over(now) {
            self.settle_first(onlooker);
        }
    }

    /// Lets the first record go, and tells it where it wasn't received.
    fn settle_first<W: Onlooker>(&mut self, onlooker: &mut W)
        requires { 0 < length self.old.held }
        ensures window { self.new ≡ record self.old { held = drop 1 self.old.held } }
        ensures seen { FoldsTo W.sees onlooker.old (first_alone self.old.records self.old.held) onlooker.new }
    {
        self.tell_first(onlooker);
        self.forget_first();
    }

    /// Tells the first record where it wasn't received.
    fn tell_first<W: Onlooker>(&self, onlooker: &mut W)
        requires { 0 < length self.now.held }
        ensures { FoldsTo W.sees onlooker.old (first_alone self.now.records self.now.held) onlooker.new }
    {
        let kept = &self.kept[0];
        if kept.is_taken {
            return;
        }
        let seen = Seen {
            moment: kept.moment,
            octets: &self.row.held()[..kept.length as usize],
            missing: kept.missing,
        };
        onlooker.see_sent(self.gone + 1, &seen);
    }

    /// Whether it holds none.
    fn is_empty(&self) -> bool
        ensures { result ≡ (length self.now.held == 0) }
    {
        self.kept.is_empty()
    }

    /// Whether the first record is over.
    fn is_first_over(&self, now: u64) -> bool
        ensures { result ≡ is_first_over self.now.within now self.now.held }
    {
        match self.kept.front() {
            Some(kept) => kept.is_over(self.within, now),
            None => false,
        }
    }

    /// Lets the first record go.
    fn forget_first(&mut self)
        requires { 0 < length self.old.held }
        ensures { self.new ≡ record self.old { held = drop 1 self.old.held } }
    {
        let Some(kept) = self.kept.pop_front() else {
            return;
        };
        let ends = &mut self.ends[kept.bucket as usize];
        *ends = ends.without(self.gone, self.gone + 1, kept.next);
        self.row.forget(kept.length as usize);
        self.gone += 1;
        self.passed += kept.length as u64;
    }

    /// Whether there is room for a record of so many octets.
    fn has_room(&self, more: usize) -> bool
        ensures { result ≡ has_room self.now more }
    {
        let records = self.kept.len();
        let octets = self.row.count();
        if has_space(records, octets, more) {
            return is_counted(
                self.gone + records as u64,
                self.passed + octets as u64,
                more,
            );
        }
        false
    }

    /// Holds a record for which there is room.
    fn put(&mut self, sent: &Seen)
        requires { has_room self.old (length sent.now.octets.now) ≡ true }
        ensures { self.new ≡ with_sent (told sent.now) self.old }
    {
        let bucket = bucket_of(sent.octets, sent.missing);
        let number = self.gone + self.kept.len() as u64 + 1;
        let ends = self.ends[bucket as usize];
        link(&mut self.kept, self.gone, ends.last, bucket, number);
        self.ends[bucket as usize] = ends.with(self.gone, number);
        let kept = Kept {
            moment: sent.moment,
            at: self.passed + self.row.count() as u64,
            next: 0,
            length: sent.octets.len() as u32,
            missing: sent.missing,
            bucket,
            is_taken: false,
        };
        self.row.put(&[], sent.octets);
        // There is room: nothing is taken.
        let _ = self.kept.push_back(kept);
    }

    /// Which of the records that are held is one that is received.
    fn search(&self, received: &Seen) -> Option<usize>
        ensures { FindsFirst self.now.within (told received.now) self.now.held result }
    {
        let bucket = bucket_of(received.octets, received.missing);
        let ends = self.ends[bucket as usize];
        let last = ends.last.min(self.gone + self.kept.len() as u64);
        let mut number = ends.first.max(self.gone + 1);
        while number <= last {
            let i = (number - self.gone - 1) as usize;
            if self.is_met(i, received) {
                return Some(i);
            }
            number = behind_in(&self.kept[i], number, bucket);
        }
        None
    }

    /// Whether a record that is held is one that is received.
    fn is_met(&self, i: usize, received: &Seen) -> bool
        requires { i < length self.now.held }
        ensures { result ≡ is_met_by self.now.within (told received.now) (slice_index_or self.now.held i (as_sent (told received.now))) }
    {
        let kept = &self.kept[i];
        let begin = (kept.at - self.passed) as usize;
        let octets = self.row.part(begin, kept.length as usize);
        kept.is_met_by(octets, self.within, received)
    }

    /// Notes that a record was received, and says when it was sent.
    fn take(&mut self, i: usize, received: &Seen) -> u64
        requires { i < length self.old.held }
        ensures window { self.new ≡ record self.old { held = taken_at (told received.now) self.old.held i } }
        ensures moment { result ≡ (slice_index_or self.old.held i (as_sent (told received.now))).moment }
    {
        let kept = &mut self.kept[i];
        kept.is_taken = true;
        let number = self.gone + i as u64 + 1;
        let (next, bucket, moment) = (kept.next, kept.bucket, kept.moment);
        let ends = &mut self.ends[bucket as usize];
        *ends = ends.without(self.gone, number, next);
        moment
    }
}

/// The number behind that of a record, of those in a bucket.
fn behind_in(kept: &Kept, number: u64, bucket: u32) -> u64
    requires { number ≤ 4611686018427387904 }
    ensures { result ≡ behind number (if kept.now.bucket == bucket then kept.now.next else 0) }
{
    if kept.bucket == bucket {
        behind(number, kept.next)
    } else {
        behind(number, 0)
    }
}

/// Notes at the last record of a bucket, where it is kept, that the one with this number comes next.
fn link(kept: &mut VecDeque<Kept>, gone: u64, last: u64, bucket: u32, number: u64)
    requires few { length kept.old.items ≤ 1048576 }
    ensures items { kept.new.items ≡ linked gone last bucket number kept.old.items }
    ensures capacity { deque_capacity kept.new ≡ deque_capacity kept.old }
{
    if last <= gone || last - gone > kept.len() as u64 {
        return;
    }
    let i = (last - gone - 1) as usize;
    if kept[i].bucket == bucket {
        kept[i].next = number;
    }
}

/// How many buckets there are.
fn bucket_count() -> usize
    ensures { result ≡ 262144 }
{
    BUCKETS
}

/// The ends of so many buckets, of no records.
fn no_ends(alloc: Global, count: usize) -> Result<Vec<Ends>, AllocError>
    ensures { IfOk result (λ ends. ends.items ≡ replicate count (record { first = 0; last = 0 })) }
{
    vec![in alloc; Ends { first: 0, last: 0 }; count]
}

/// Whether so many records of so many octets may be held, and one more.
fn has_space(records: usize, octets: usize, more: usize) -> bool
    requires { octets ≤ 268435456 }
    ensures { result ≡ has_space records octets more }
{
    records < MOST_RECORDS && more <= MOST_OCTETS - octets
}

/// Whether so many records of so many octets may be sent in all, and one more.
fn is_counted(records: u64, octets: u64, more: usize) -> bool
    requires { octets ≤ 4611686018427387904 }
    ensures { result ≡ is_counted records octets more }
{
    records < MOST_IN_ALL && more as u64 <= MOST_IN_ALL - octets
}
