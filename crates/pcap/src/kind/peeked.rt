//! An input whose first octets were looked at.
ghost use Rattle.std.specs.Prelude.{◌≡◌, ◌≤◌, ◌<◌, [], length, take};

use crate::kind::head::Head;
use crate::stream::{DeviceFault, Input};

/// An input that hands out its first octets, which were looked at, and then the others.
#[derive(Drop)]
pub struct Peeked<R: Input> {
    head: Head,
    /// How many octets of the head were handed out.
    at: usize,
    input: R,
    calls: u64,
    failures: u64,
    ghost within: { at ≤ head.length },
}

impl<R: Input> Peeked<R> {
    /// An input that hands out a head, and then what the input has left.
    pub(crate) fn new(head: Head, input: R) -> Peeked<R>
        ensures at { result.at ≡ 0 }
        ensures head { result.head ≡ head }
        ensures input { result.input ≡ input }
        ensures calls { result.calls ≡ 0 }
        ensures failures { result.failures ≡ 0 }
    {
        Peeked {
            head,
            at: 0,
            input,
            calls: 0,
            failures: 0,
        }
    }

    /// The input, as the reads so far left it.
    pub fn input(&self) -> &R
        ensures { result.now ≡ self.now.input }
    {
        &self.input
    }
}

impl<R: Input> Input for Peeked<R> {
    ghost use Rattle.std.specs.Prelude.{drop, take};
    ghost use Rattle.std.specs.Io.KnownBytes.{prepend_known};

    ghost remaining = { λ p. prepend_known (drop p.at (take p.head.length p.head.octets)) (R.remaining p.input) };

    ghost calls = { λ p. p.calls };

    ghost failures = { λ p. p.failures };

    fn read(&mut self, octets: &mut [u8]) -> Result<usize, DeviceFault> {
        self.calls = self.calls.wrapping_add(1);
        let ahead = self.head.behind(self.at);
        if !ahead.is_empty() {
            let n = copy_front(ahead, octets);
            self.at += n;
            return Ok(n);
        }
        match self.input.read(octets) {
            Ok(n) => Ok(n),
            Err(fault) => {
                self.failures = self.failures.wrapping_add(1);
                Err(fault)
            }
        }
    }
}

/// Copies as many octets to the front as there are and as fit, and says how many.
fn copy_front(octets: &[u8], room: &mut [u8]) -> usize
    ensures there { result ≤ length octets.now }
    ensures fits { result ≤ length room.new }
    ensures copied { take result room.new ≡ take result octets.now }
    ensures some { result ≡ 0 → 0 < length room.new → octets.now ≡ [] }
{
    let n = octets.len().min(room.len());
    room[..n].copy_from_slice(&octets[..n]);
    n
}
