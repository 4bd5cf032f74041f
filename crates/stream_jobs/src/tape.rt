//! Captures that are made in room of their own, which is used again from round to round.

use pcap::text::global_header;
use std::alloc::{AllocError, Global};

/// Room for a capture, and how much of it is written.
#[derive(Drop)]
pub struct Tape {
    octets: Vec<u8>,
    end: usize,
}

impl Tape {
    /// Room of so many octets, in which nothing is written.
    pub fn new(alloc: Global, room: usize) -> Result<Tape, AllocError> {
        Ok(Tape {
            octets: vec![in alloc; 0u8; room]?,
            end: 0,
        })
    }

    /// What is written.
    pub fn text(&self) -> &[u8] {
        self.octets.as_slice().get(..self.end).unwrap_or(&[])
    }

    /// The next octets, so many, which count as written. Where there is no room for them none do.
    #[inline(always)]
    pub fn next(&mut self, count: usize) -> &mut [u8] {
        let begin = self.end;
        let end = begin.saturating_add(count);
        if end > self.octets.len() {
            return &mut [];
        }
        self.end = end;
        match self.octets.as_mut_slice().get_mut(begin..end) {
            Some(room) => room,
            None => &mut [],
        }
    }

    /// Writes octets behind the others.
    pub fn put(&mut self, octets: &[u8]) {
        let room = self.next(octets.len());
        if room.len() == octets.len() {
            room.copy_from_slice(octets);
        }
    }

    /// Lets go what is written, and begins a classic capture, little-endian and in nanoseconds.
    pub fn begin_capture(&mut self) {
        self.end = 0;
        self.put(&global_header());
    }

    /// Begins a record of so many octets at a moment.
    #[inline(always)]
    pub fn begin_record(&mut self, moment: u64, size: usize) {
        let seconds = u32::try_from(moment / 1_000_000_000).unwrap_or(u32::MAX);
        let fraction = u32::try_from(moment % 1_000_000_000).unwrap_or(0);
        let [a, b, c, d] = seconds.to_le_bytes();
        let [e, f, g, h] = fraction.to_le_bytes();
        let [i, j, k, l] = u32::try_from(size).unwrap_or(0).to_le_bytes();
        self.put(&[a, b, c, d, e, f, g, h, i, j, k, l, i, j, k, l]);
    }
}

/// So many, each of so many octets, in which nothing is written.
pub fn tapes(alloc: Global, count: usize, room: usize) -> Result<Vec<Tape>, AllocError> {
    let mut tapes = Vec::new(alloc);
    for _tape in 0..count {
        tapes.push(Tape::new(alloc, room)?)?;
    }
    Ok(tapes)
}
