//! Records that were received again.
ghost use Rattle.std.specs.Prelude.{◌≡◌, ◌-◌, IfOk, OnOk, drop, length};
ghost use Rattle.record_match.specs.Kept.{told};
ghost use Rattle.compare_reports.specs.Doubled.{is_any_same, is_same_record, no_recent, with_alone, with_both};

use octet_row::is_same;
use record_match::Seen;
use std::alloc::{AllocError, Global};
use std::collections::VecDeque;
use std::marker::Model;

/// How many records are held.
const MOST: usize = 256;

/// A record that is both.
#[derive(Drop)]
struct Held {
    /// Nanoseconds.
    moment: u64,
    octets: Vec<u8>,
    missing: u32,
}

impl Model for Held {
    ghost use Rattle.record_match.specs.Match.{Record};

    ghost Value = { Record };

    ghost view = { λ h. record { moment = h.moment; octets = h.octets.items; missing = h.missing } };
}

/// The latest 256 records that are both, as they were received, and how many of those that were received alone are the same as one of
/// them was then: as where a network doubles what it carries. A number that can't grow stays.
#[derive(Drop)]
pub(crate) struct Recent {
    alloc: Global,
    /// The earliest first.
    latest: VecDeque<Held>,
    doubled: u64,
}

impl Model for Recent {
    ghost use Rattle.std.specs.Prelude.{◌≤◌, length};
    ghost use Rattle.compare_reports.specs.Doubled.{Recent};

    ghost Value = { Recent };

    ghost view = { λ r. record { latest = r.latest.items; doubled = r.doubled } };

    ghost invariant = { λ r. length r.latest.items ≤ 256 };
}

impl Recent {
    /// Of no records.
    pub(crate) fn new(alloc: Global) -> Recent
        ensures { result ≡ no_recent }
    {
        Recent {
            alloc,
            latest: VecDeque::new(alloc),
            doubled: 0,
        }
    }

    /// Takes a record that is both. `AllocError`: there was no memory for it.
    pub(crate) fn hold(&mut self, received: &Seen) -> Result<(), AllocError>
        ensures { OnOk result (self.new ≡ with_both (told received.now) self.old) }
    {
        let spare = self.spare();
        let octets = copied(spare, received.octets)?;
        self.latest.push_back(Held {
            moment: received.moment,
            octets,
            missing: received.missing,
        })?;
        Ok(())
    }

    /// Takes one that was received alone.
    pub(crate) fn see_alone(&mut self, received: &Seen)
        ensures { self.new ≡ with_alone (told received.now) self.old }
    {
        if self.has(received) {
            self.doubled = self.doubled.saturating_add(1);
        }
    }

    /// How many of those that were received alone came again.
    pub(crate) fn doubled(&self) -> u64
        ensures { result ≡ self.now.doubled }
    {
        self.doubled
    }

    /// Memory for one more: that of the earliest one, which goes, where 256 are held.
    fn spare(&mut self) -> Vec<u8>
        ensures { self.new ≡ record self.old { latest = drop (length self.old.latest - 255) self.old.latest } }
    {
        if self.latest.len() < MOST {
            return Vec::new(self.alloc);
        }
        match self.latest.pop_front() {
            Some(held) => held.octets,
            None => Vec::new(self.alloc),
        }
    }

    /// Whether a record is the same as one that is held.
    fn has(&self, received: &Seen) -> bool
        ensures { result ≡ is_any_same (told received.now) self.now.latest }
    {
        for i in 0..self.latest.len() {
            if is_same_record(received, &self.latest[i]) {
                return true;
            }
        }
        false
    }
}

/// Whether a record is the same as one that is held, whenever both came.
fn is_same_record(received: &Seen, held: &Held) -> bool
    ensures { result ≡ is_same_record (told received.now) held.now }
{
    received.missing == held.missing && is_same(received.octets, held.octets.as_slice())
}

/// These octets, in this memory.
fn copied(memory: Vec<u8>, octets: &[u8]) -> Result<Vec<u8>, AllocError>
    ensures { IfOk result (λ copy. copy.items ≡ octets.now) }
{
    let mut copy = memory;
    copy.clear();
    copy.extend_from_slice(octets)?;
    Ok(copy)
}
