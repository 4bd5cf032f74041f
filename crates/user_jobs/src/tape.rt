//! Captures that are made in room of their own, which is used again from round to round.

use pcap::text::global_header;
use std::alloc::{AllocError, Global};

/// Room for a capture, and how much of it is written.
#[derive(Drop)]
pub struct Tape {
    octets: Vec<u8>,
    end: usize,
}

impl Tape {
    /// Room of so many octets, in which nothing is written.
    pub fn new(alloc: Global, room: usize) -> Result<Tape, AllocError> {
        Ok(Tape {
            octets: vec![in alloc; 0u8; room]?,
            end: 0,
        })
    }

    /// What is written.
    pub fn text(&self) -> &[u8] {
        self.octets.as_slice().get(..self.end).unwrap_or(&[])
    }

    /// The next octets, so many, which count as written. Where there is no room for them none do.
    #[inline(always)]
    pub fn next(&mut self, count: usize) -> &mut [u8] {
        let begin = self.end;
        let end = begin.saturating_add(count);
        if end > self.octets.len() {
            return &mut [];
        }
        self.end = end;
        match self.octets.as_mut_slice().get_mut(begin..end) {
            Some(room) => room,
            None => &mut [],
        }
    }

    /// Writes octets behind the others.
    pub fn put(&mut self, octets: &[u8]) {
        let room = self.next(octets.len());
        if room.len() == octets.len() {
            room.copy_from_slice(octets);
        }
    }

    /// Lets go what is written, and begins a classic capture, little-endian and in nanoseconds.
    pub fn begin_capture(&mut self) {
        self.end = 0;
        self.put(&global_header());
    }

    /// Lets go what is written, and begins a pcapng text: a section, and so many interfaces that tell nanoseconds.
    pub fn begin_interfaces(&mut self, count: usize) {
        self.end = 0;
        self.put(&[0x0A, 0x0D, 0x0D, 0x0A, 28, 0, 0, 0]);
        self.put(&[0x4D, 0x3C, 0x2B, 0x1A, 1, 0, 0, 0]);
        self.put(&[0xFF; 8]);
        self.put(&[28, 0, 0, 0]);
        for _interface in 0..count {
            self.put(&[1, 0, 0, 0, 32, 0, 0, 0, 1, 0, 0, 0, 0, 0, 4, 0]);
            self.put(&[9, 0, 1, 0, 9, 0, 0, 0, 0, 0, 0, 0, 32, 0, 0, 0]);
        }
    }

    /// Begins a record of so many octets at a moment.
    #[inline(always)]
    pub fn begin_record(&mut self, moment: u64, size: usize) {
        let seconds = u32::try_from(moment / 1_000_000_000).unwrap_or(u32::MAX);
        let fraction = u32::try_from(moment % 1_000_000_000).unwrap_or(0);
        let [a, b, c, d] = seconds.to_le_bytes();
        let [e, f, g, h] = fraction.to_le_bytes();
        let [i, j, k, l] = u32::try_from(size).unwrap_or(0).to_le_bytes();
        self.put(&[a, b, c, d, e, f, g, h, i, j, k, l, i, j, k, l]);
    }

    /// Begins a block of an interface's packet of so many octets at a moment.
    pub fn begin_block(&mut self, interface: u32, moment: u64, size: usize) {
        let filling = size.wrapping_neg() % 4;
        let whole = size.saturating_add(filling).saturating_add(32);
        let [a, b, c, d] = u32::try_from(whole).unwrap_or(0).to_le_bytes();
        let [e, f, g, h] = interface.to_le_bytes();
        let [i, j, k, l, m, n, o, p] = moment.to_le_bytes();
        let [q, r, s, t] = u32::try_from(size).unwrap_or(0).to_le_bytes();
        self.put(&[
            6, 0, 0, 0, a, b, c, d, e, f, g, h, m, n, o, p, i, j, k, l, q, r, s, t, q, r, s, t,
        ]);
    }

    /// Ends a block of a packet of so many octets.
    pub fn end_block(&mut self, size: usize) {
        let filling = size.wrapping_neg() % 4;
        let whole = size.saturating_add(filling).saturating_add(32);
        self.put([0_u8; 4].as_slice().get(..filling).unwrap_or(&[]));
        self.put(&u32::try_from(whole).unwrap_or(0).to_le_bytes());
    }
}
