//! The octets of a record, copied.
ghost use Rattle.std.specs.Prelude.{◌≡◌, ◌≤◌, ◌+◌, ◌++◌, [], IfOk, length, take, vec_capacity, vec_len};
ghost use Rattle.pcap.specs.Record.{longest};

use std::alloc::{AllocError, Global};
use std::marker::Model;

/// The octets of a record at most.
const LONGEST: usize = 262_144;

/// The octets of a record, in room for the longest one, seen by contracts as these octets.
#[derive(Drop)]
pub struct Record {
    octets: Vec<u8>,
}

impl Model for Record {
    ghost use Rattle.std.specs.Prelude.{◌≤◌, ℕ, List, length, vec_capacity};
    ghost use Rattle.pcap.specs.Record.{longest};

    ghost Value = { List ℕ };

    ghost view = { λ r. r.octets.items };

    ghost invariant = { λ r. (longest ≤ vec_capacity r.octets) × (length r.octets.items ≤ longest) };
}

impl Record {
    /// Room for a record. `AllocError`: there was none.
    pub fn new(alloc: Global) -> Result<Record, AllocError>
        ensures { IfOk result (λ made. made ≡ []) }
    {
        let octets = Vec::with_capacity(alloc, LONGEST)?;
        Ok(Record { octets })
    }

    /// The octets.
    #[inline(always)]
    pub fn octets(&self) -> &[u8]
        ensures value { result.now ≡ self.now }
        ensures short { length self.now ≤ longest }
    {
        self.octets.as_slice()
    }

    /// Copies octets, no more than a record has at most.
    #[inline(always)]
    #[tactic(auto, using(std::proofs::lemmas::List::take_min))]
    pub fn copy(&mut self, octets: &[u8])
        ensures { self.new ≡ take longest octets.now }
    {
        self.octets.clear();
        put(&mut self.octets, &octets[..LONGEST.min(octets.len())]);
    }

    /// Puts three texts together.
    #[inline(always)]
    pub fn gather(&mut self, front: &[u8], middle: &[u8], rest: &[u8])
        requires { length front.now + length middle.now + length rest.now ≤ longest }
        ensures { self.new ≡ front.now ++ (middle.now ++ rest.now) }
    {
        self.octets.clear();
        put(&mut self.octets, front);
        put(&mut self.octets, middle);
        put(&mut self.octets, rest);
    }
}

/// Adds octets for which there is room.
#[inline(always)]
fn put(out: &mut Vec<u8>, octets: &[u8])
    requires { vec_len out.old + length octets.now ≤ vec_capacity out.old }
    ensures items { out.new.items ≡ out.old.items ++ octets.now }
    ensures capacity { vec_capacity out.old ≤ vec_capacity out.new }
{
    match out.extend_from_slice(octets) {
        Ok(()) => {}
        Err(_) => unreachable!(),
    }
}
