//! An input of which only so many reads may be made.
//!
//! How many reads found the end is a `Count` of `work_count`, which contracts see and no octet keeps: a source whose last read
//! found the end has to tell the end, since its fault `Read` wants that this count stayed. That it counts the reads is a clause
//! of the one private call that reads.
ghost use Rattle.std.specs.Prelude.{◌≡◌, ◌≢◌, ◌<◌, ◌≤◌, ◌⊎◌, ◌+◌, ◌*◌, drop, take, length, IfOk, OnErr, OnOk};
ghost use Rattle.std.specs.Io.KnownBytes.{Consumes, IsAtEnd, Keeps, prepend_known};
ghost use Rattle.pcap.specs.Record.{longest};
ghost use Rattle.pcap.specs.Counts.{GoesOnBy};
ghost use Rattle.pcap.specs.Supply.{GivesUp, IsThrifty, Spends, StopsShort, untouched, with_ahead};

use crate::stream::device::DeviceFault;
use crate::stream::input::Input;
use std::marker::Model;
use work_count::Count;

/// An input, and how many reads may still be made of it.
///
/// Contracts see the octets that the input has left, its counts, how many reads found the end, and the reads.
#[derive(Drop)]
pub struct Supply<R: Input> {
    input: R,
    /// The reads that found the end.
    ends: Count,
    reads: u64,
}

impl<R: Input> Model for Supply<R> {
    ghost use Rattle.pcap.specs.Supply.{Supply};

    ghost Value = { Supply };

    ghost view = { λ s. record {
      rest = R.remaining s.input;
      calls = R.calls s.input;
      failures = R.failures s.input;
      ends = s.ends.total;
      reads = s.reads;
    } };
}

impl<R: Input> Supply<R> {
    pub fn new(input: R, reads: u64) -> Supply<R>
        ensures { result ≡ untouched (R.remaining input) (R.calls input) (R.failures input) reads }
    {
        Supply {
            input,
            ends: Count::zero(),
            reads,
        }
    }

    /// The input.
    pub fn input(&self) -> &R
        ensures rest { R.remaining result.now ≡ self.now.rest }
        ensures calls { R.calls result.now ≡ self.now.calls }
        ensures failures { R.failures result.now ≡ self.now.failures }
    {
        &self.input
    }

    /// One read, into the octets from `at` to `end`. Here alone the number of reads goes down and the end is met.
    fn read_between(
        &mut self,
        octets: &mut [u8],
        at: usize,
        end: usize,
    ) -> Result<usize, DeviceFault>
        requires { (at < end) × (end ≤ length octets.old) }
        ensures front { take at octets.new ≡ take at octets.old }
        ensures fits { IfOk result (λ n. at + n ≤ end) }
        ensures taken { IfOk result (λ n. Consumes self.old.rest self.new.rest (take n (drop at octets.new))) }
        ensures end { IfOk result (λ n. n ≡ 0 → IsAtEnd self.new.rest) }
        ensures ends { IfOk result (λ n. n ≡ 0 → self.new.ends ≡ self.old.ends + 1) }
        ensures no_end { IfOk result (λ n. n ≢ 0 → self.new.ends ≡ self.old.ends) }
        ensures kept { OnErr result (self.new.ends ≡ self.old.ends) }
        ensures none { OnErr result (Keeps self.old.rest self.new.rest) }
        ensures spent { Spends self.old self.new }
        ensures one { self.old.reads ≤ self.new.reads + 1 }
        ensures fewer { OnOk result (self.new.reads < self.old.reads) }
        ensures quiet { OnOk result (self.new.failures ≡ self.old.failures) }
        ensures gives_up { OnErr result (GivesUp self.old self.new) }
        ensures failed { OnErr result (GoesOnBy 1 self.old.failures self.new.failures
            ⊎ ((self.new ≡ self.old) × (self.old.reads ≡ 0))) }
    {
        if self.reads == 0 {
            return Err(DeviceFault);
        }
        self.reads -= 1;
        let n = self.input.read(&mut octets[at..end])?;
        if n == 0 {
            self.ends.tick();
        }
        Ok(n)
    }

    /// Reads behind the first `held` of some octets, which came before, and up to `end`, until `wanted` are there or the
    /// input ends. It says how many are there.
    pub fn fill(
        &mut self,
        octets: &mut [u8],
        held: usize,
        wanted: usize,
        end: usize,
    ) -> Result<usize, DeviceFault>
        requires order { (held ≤ wanted) × (wanted ≤ end) }
        requires room { (end ≤ length octets.old) × (length octets.old ≤ longest) }
        ensures bound { IfOk result (λ n. (held ≤ n) × (n ≤ end)) }
        ensures taken { IfOk result (λ n.
            Consumes (prepend_known (take held octets.old) self.old.rest) self.new.rest (take n octets.new)) }
        ensures end { IfOk result (λ n. n < wanted → IsAtEnd self.new.rest) }
        ensures spent { Spends self.old self.new }
        ensures part { IfOk result (λ n. self.old.reads + held ≤ self.new.reads + n + 1) }
        ensures whole { IfOk result (λ n. wanted ≤ n → self.old.reads + held ≤ self.new.reads + wanted) }
        ensures brings { IfOk result (λ n. n + self.new.reads * longest ≤ held + self.old.reads * longest) }
        ensures no_end { IfOk result (λ n. wanted ≤ n → self.new.ends ≡ self.old.ends) }
        ensures thrift { OnErr result (IsThrifty self.old self.new) }
        ensures quiet { OnOk result (self.new.failures ≡ self.old.failures) }
        ensures gives_up { OnErr result (GivesUp self.old self.new) }
        ensures short { OnErr result
            (StopsShort (λ taken. length taken < wanted) held (with_ahead (take held octets.old) self.old) self.new) }
    {
        let mut at = held;
        while at < wanted {
            let n = self.read_between(octets, at, end)?;
            if n == 0 {
                return Ok(at);
            }
            at += n;
        }
        Ok(at)
    }
}
