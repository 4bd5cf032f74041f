//! An output over memory that takes little, and stops once.
ghost use Rattle.std.specs.Prelude.{None};

use pcap::stream::{DeviceFault, Output, WriteFault};
use std::alloc::Global;

/// Room that takes at most so many octets a call. One call fails, or takes none.
#[derive(Drop)]
pub struct Room {
    /// What it took.
    pub octets: Vec<u8>,
    most: usize,
    stops_at: u64,
    fails: bool,
    calls: u64,
    failures: u64,
}

impl Room {
    /// Such room, empty. The call of the number `stops_at` fails or takes none, no call where that is 0.
    pub fn new(alloc: Global, most: usize, stops_at: u64, fails: bool) -> Room {
        Room {
            octets: Vec::new(alloc),
            most,
            stops_at,
            fails,
            calls: 0,
            failures: 0,
        }
    }
}

impl Output for Room {
    ghost written = { λ _. None };

    ghost failures = { λ s. s.failures };

    fn hand_on_held(&mut self) -> Result<(), WriteFault> {
        Ok(())
    }

    fn write(&mut self, octets: &[u8]) -> Result<usize, DeviceFault> {
        if octets.is_empty() {
            return Ok(0);
        }
        self.calls = self.calls.saturating_add(1);
        let n = octets.len().min(self.most.max(1));
        let is_stopped = self.calls == self.stops_at;
        if is_stopped || self.octets.extend_from_slice(&octets[..n]).is_err() {
            self.failures = self.failures.wrapping_add(1);
            return if self.fails { Err(DeviceFault) } else { Ok(0) };
        }
        Ok(n)
    }
}
