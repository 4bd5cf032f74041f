//! Octets that are ready to be given.
ghost use Rattle.std.specs.Prelude.{◌≡◌, ◌≤◌, ◌<◌, ◌+◌, ◌++◌, [], length, nat_eq, take, IfNone, IfOk, IfSome, OnErr, OnOk};
ghost use Rattle.pcap.specs.Record.{IsWithinLimits, longest};
ghost use Rattle.pcap.specs.Written.{written_record};

use crate::room::lengthen;
use pcap::stream::put_behind;
use pcap::text::{RECORD_HEADER_LENGTH, Record, record_head};
use std::alloc::{AllocError, Global};
use std::marker::Model;

/// The octets that there is always room for: those of a capture's header.
const LEAST: usize = 24;

/// Octets that are ready to be given from the front, in room for the longest record so far. Contracts see them.
#[derive(Drop)]
pub struct Ready {
    room: Vec<u8>,
    from: usize,
    to: usize,
}

impl Model for Ready {
    ghost use Rattle.std.specs.Prelude.{◌≤◌, ◌-◌, ℕ, List, length, take, drop};

    ghost Value = { List ℕ };

    ghost view = { λ r. take (r.to - r.from) (drop r.from r.room.items) };

    ghost invariant = { λ r. (r.from ≤ r.to) × (r.to ≤ length r.room.items) × (24 ≤ length r.room.items) };
}

/// Puts a record behind the first `at` octets of a room, and says where it ends. None: there is no room for it.
#[inline(always)]
pub fn put_record(room: &mut [u8], at: usize, packet: &Record<'_>) -> Option<usize>
    requires at { at ≤ length room.old }
    requires limits { IsWithinLimits packet.now }
    ensures fits { IfSome result (λ end. end ≤ length room.new) }
    ensures text { IfSome result (λ end. take end room.new ≡ take at room.old ++ written_record packet.now) }
    ensures none { IfNone result (room.new ≡ room.old) }
{
    let captured = packet.octets.len();
    if room.len() - at < RECORD_HEADER_LENGTH + captured {
        return None;
    }
    let header = record_head(packet.moment, captured as u32, packet.original);
    let middle = put_behind(room, at, &header);
    Some(put_behind(room, middle, packet.octets))
}

/// Copies the first octets of a text, as many as there is room for, and says how many.
fn copy_front(octets: &mut [u8], text: &[u8]) -> usize
    ensures fits { result ≤ length octets.new }
    ensures within { result ≤ length text.now }
    ensures same { take result octets.new ≡ take result text.now }
    ensures some { result ≡ 0 → 0 < length octets.new → length text.now ≡ 0 }
{
    let size = if octets.len() < text.len() {
        octets.len()
    } else {
        text.len()
    };
    octets[..size].copy_from_slice(&text[..size]);
    size
}

impl Ready {
    /// Reserves room for a capture's header. Nothing is ready yet.
    pub fn new(alloc: Global) -> Result<Ready, AllocError>
        ensures { IfOk result (λ ready. ready ≡ []) }
    {
        let room = vec![in alloc; 0u8; LEAST]?;
        Ok(Ready {
            room,
            from: 0,
            to: 0,
        })
    }

    pub fn is_empty(&self) -> bool
        ensures { result ≡ nat_eq (length self.now) 0 }
    {
        self.from == self.to
    }

    /// Makes a short text ready in place of what was.
    pub fn put(&mut self, text: &[u8])
        requires { length text.now ≤ 24 }
        ensures { self.new ≡ text.now }
    {
        self.to = put_behind(self.room.as_mut_slice(), 0, text);
        self.from = 0;
    }

    /// Makes a record ready in place of what was, its header and the octets behind that. Where memory is refused, nothing is
    /// ready.
    pub fn put_record(&mut self, header: &[u8], octets: &[u8]) -> Result<(), AllocError>
        requires { length header.now + length octets.now ≤ longest + 16 }
        ensures ok { OnOk result (self.new ≡ header.now ++ octets.now) }
        ensures err { OnErr result (self.new ≡ []) }
    {
        self.from = 0;
        self.to = 0;
        lengthen(&mut self.room, header.len() + octets.len())?;
        let middle = put_behind(self.room.as_mut_slice(), 0, header);
        self.to = put_behind(self.room.as_mut_slice(), middle, octets);
        Ok(())
    }

    /// Gives what is ready from the front, and says how much.
    pub fn give(&mut self, octets: &mut [u8]) -> usize
        ensures fits { result ≤ length octets.new }
        ensures given { self.old ≡ take result octets.new ++ self.new }
        ensures some { result ≡ 0 → 0 < length octets.new → self.old ≡ [] }
    {
        let size = copy_front(octets, &self.room[self.from..self.to]);
        self.from += size;
        size
    }
}
