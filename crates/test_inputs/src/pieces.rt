//! A text that comes in pieces.
ghost use Rattle.std.specs.Prelude.{Some};

use pcap::stream::{DeviceFault, Input};

/// Octets that come at most so many at a time, and a read that fails.
#[derive(Drop)]
pub struct Pieces<'a> {
    octets: &'a [u8],
    most: usize,
    fails_at: u64,
    /// The reads so far.
    pub calls: u64,
    failures: u64,
}

/// These octets, at most so many at a time; the read of this number fails, none where it is 0.
pub fn in_pieces<'a>(octets: &'a [u8], most: usize, fails_at: u64) -> Pieces<'a> {
    Pieces {
        octets,
        most,
        fails_at,
        calls: 0,
        failures: 0,
    }
}

impl Input for Pieces<'_> {
    ghost remaining = { λ s. Some s.octets.now };

    ghost calls = { λ s. s.calls };

    ghost failures = { λ s. s.failures };

    fn read(&mut self, octets: &mut [u8]) -> Result<usize, DeviceFault> {
        self.calls = self.calls.wrapping_add(1);
        if self.calls == self.fails_at {
            self.failures = self.failures.wrapping_add(1);
            return Err(DeviceFault);
        }
        let n = self.octets.len().min(octets.len()).min(self.most.max(1));
        let (front, rest) = self.octets.split_at(n);
        octets[..n].copy_from_slice(front);
        self.octets = rest;
        Ok(n)
    }
}
