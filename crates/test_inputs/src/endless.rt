//! An input that may go on without end.
ghost use Rattle.std.specs.Prelude.{None};

use pcap::stream::{DeviceFault, Input};

/// What an input gives, and behind its end zero octets, one a read, or nothing.
#[derive(Drop)]
pub struct GoingOn<R: Input> {
    input: R,
    is_endless: bool,
}

/// This input, with zero octets without end behind it or without them.
pub fn going_on<R: Input>(input: R, is_endless: bool) -> GoingOn<R> {
    GoingOn { input, is_endless }
}

impl<R: Input> Input for GoingOn<R> {
    ghost remaining = { λ _. None };

    ghost calls = { λ s. R.calls s.input };

    ghost failures = { λ s. R.failures s.input };

    fn read(&mut self, octets: &mut [u8]) -> Result<usize, DeviceFault> {
        let n = self.input.read(octets)?;
        if n > 0 || octets.is_empty() || !self.is_endless {
            return Ok(n);
        }
        octets[0] = 0;
        Ok(1)
    }
}
