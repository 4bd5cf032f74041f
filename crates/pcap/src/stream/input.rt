//! Where octets come from.
//!
//! An [`Input`] counts its reads and its failures, and a source proves that its budget falls by just the reads it made: so a
//! body that gives up its reads isn't proved, and none is given up. Counts go round at 2^64: one more is always another number.
ghost use Rattle.std.specs.Prelude.{◌≡◌, ◌<◌, ◌≤◌, ◌+◌, ℕ, List, Option, drop, length, take, IfOk, OnErr};
ghost use Rattle.std.specs.Io.{ReadsAtMost};
ghost use Rattle.std.specs.Io.KnownBytes.{Consumes, IsAtEnd, Keeps, ReadConsumes};
ghost use Rattle.pcap.specs.Counts.{CountsFaults, GoesOnBy};

use crate::stream::device::{DeviceFault, TRIES};
use std::io::{ErrorKind, Read};

/// Octets that come one read after another.
pub trait Input {
    /// The octets still to come, where the device tells them.
    ghost remaining: { Self → Option (List ℕ) };

    /// How many reads were made: a count that goes round at 2^64.
    ghost calls: { Self → ℕ };

    /// How many of them failed: a count that goes round at 2^64.
    ghost failures: { Self → ℕ };

    /// Takes exactly the next n octets at `Ok(n)`, into the front of `octets`. It takes none only at the end, and where
    /// `octets` is empty. A fault takes none.
    fn read(&mut self, octets: &mut [u8]) -> Result<usize, DeviceFault>
        ensures bound { ReadsAtMost result octets.new }
        ensures taken { ReadConsumes (remaining self.old) (remaining self.new) result octets.new }
        ensures calls { GoesOnBy 1 (calls self.old) (calls self.new) }
        ensures failures { CountsFaults (failures self.old) (failures self.new) result };
}

/// One read, into what is behind the first `at` octets.
pub fn read_behind<R: Input>(
    input: &mut R,
    octets: &mut [u8],
    at: usize,
) -> Result<usize, DeviceFault>
    requires { at < length octets.old }
    ensures front { take at octets.new ≡ take at octets.old }
    ensures fits { IfOk result (λ n. at + n ≤ length octets.new) }
    ensures taken { IfOk result (λ n. Consumes (R.remaining input.old) (R.remaining input.new) (take n (drop at octets.new))) }
    ensures end { IfOk result (λ n. n ≡ 0 → IsAtEnd (R.remaining input.new)) }
    ensures none { OnErr result (Keeps (R.remaining input.old) (R.remaining input.new)) }
    ensures calls { GoesOnBy 1 (R.calls input.old) (R.calls input.new) }
    ensures failures { CountsFaults (R.failures input.old) (R.failures input.new) result }
{
    input.read(&mut octets[at..])
}

/// A reader of std's, as an input.
#[derive(Drop)]
pub struct StdInput<R: Read> {
    reader: R,
    calls: u64,
    failures: u64,
}

impl<R: Read> StdInput<R> {
    /// An input that begins where the reader stands, with both counts at 0.
    pub fn new(reader: R) -> StdInput<R>
        ensures reader { result.reader ≡ reader }
        ensures calls { result.calls ≡ 0 }
        ensures failures { result.failures ≡ 0 }
    {
        StdInput {
            reader,
            calls: 0,
            failures: 0,
        }
    }
}

impl<R: Read> Input for StdInput<R> {
    ghost remaining = { λ s. R.remaining s.reader };

    ghost calls = { λ s. s.calls };

    ghost failures = { λ s. s.failures };

    fn read(&mut self, octets: &mut [u8]) -> Result<usize, DeviceFault> {
        self.calls = self.calls.wrapping_add(1);
        match read_again(&mut self.reader, octets) {
            Ok(n) => Ok(n),
            Err(fault) => {
                self.failures = self.failures.wrapping_add(1);
                Err(fault)
            }
        }
    }
}

/// One read, tried again where a signal interrupted it.
fn read_again<R: Read>(reader: &mut R, octets: &mut [u8]) -> Result<usize, DeviceFault>
    ensures bound { ReadsAtMost result octets.new }
    ensures ok { IfOk result (λ n. Consumes (R.remaining reader.old) (R.remaining reader.new) (take n octets.new)) }
    ensures end { IfOk result (λ n. n ≡ 0 → 0 < length octets.old → IsAtEnd (R.remaining reader.new)) }
    ensures err { OnErr result (Keeps (R.remaining reader.old) (R.remaining reader.new)) }
{
    for _ in 0..TRIES {
        match reader.read(octets) {
            Ok(n) => return Ok(n),
            Err(error) => {
                if error.kind() != ErrorKind::Interrupted {
                    return Err(DeviceFault);
                }
            }
        }
    }
    Err(DeviceFault)
}
