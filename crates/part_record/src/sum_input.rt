//! An input that has to be what is told of it.
//!
//! A merge's inputs compare by themselves, at their end, and fail there where they are other ones. So no merge ends well over
//! outputs that it didn't compare; which output it was is looked for in the part that failed alone.
ghost use Rattle.std.specs.Prelude.{◌≡◌, ◌≢◌, ◌<◌, List, ℕ, [], ◌++◌, false, true, is_err, IfOk, IsTrue, ◌↔◌, length};
ghost use Rattle.std.specs.Io.{ReadsAtMost};
ghost use Rattle.std.specs.Io.KnownBytes.{ReadConsumes};
ghost use Rattle.pcap.specs.Counts.{CountsFaults, GoesOnBy};
ghost use Rattle.octet_sums.specs.Sums.{IsSumOf};
ghost use Rattle.part_record.specs.Sum.{taken};

use octet_sums::fletcher::OctetSum;
use pcap::stream::{DeviceFault, Input};

/// An input that hands on what another gives, and fails at the end where that has other sums than were told.
#[derive(Drop)]
pub struct SumInput<R: Input> {
    input: R,
    sum: OctetSum,
    told: OctetSum,
    /// Whether the end was met, and its sums are other ones.
    is_other: bool,
    /// How many reads failed: a count that goes round at 2^64.
    failures: u64,
}

impl<R: Input> SumInput<R> {
    /// An input that hands on what this one gives from here on, of which these sums are told.
    pub fn new(input: R, told: OctetSum) -> SumInput<R>
        ensures input { result.input ≡ input }
        ensures sum { IsSumOf result.sum [] }
        ensures told { result.told ≡ told }
        ensures other { result.is_other ≡ false }
        ensures failures { result.failures ≡ 0 }
    {
        SumInput {
            input,
            sum: OctetSum::new(),
            told,
            is_other: false,
            failures: 0,
        }
    }

    /// Whether a read failed for the sums that were told: the end was met, and they are other ones.
    pub fn is_other(&self) -> bool
        ensures { result ≡ self.now.is_other }
    {
        self.is_other
    }

    /// Whether the input, of which nothing may be left, has the sums that were told.
    fn ends_as_told(&self) -> bool
        ensures { IsTrue result ↔ (self.now.sum ≡ self.now.told) }
    {
        self.sum.is_same(self.told)
    }
}

impl<R: Input> Input for SumInput<R> {
    ghost remaining = { λ d. R.remaining d.input };

    ghost calls = { λ d. R.calls d.input };

    ghost failures = { λ d. d.failures };

    fn read(&mut self, octets: &mut [u8]) -> Result<usize, DeviceFault>
        ensures bound { ReadsAtMost result octets.new }
        ensures taken { ReadConsumes (R.remaining self.old.input) (R.remaining self.new.input) result octets.new }
        ensures calls { GoesOnBy 1 (R.calls self.old.input) (R.calls self.new.input) }
        ensures failures { CountsFaults self.old.failures self.new.failures result }
        ensures same { self.new.told ≡ self.old.told }
        ensures sum { (before : List ℕ) → IsSumOf self.old.sum before → IsSumOf self.new.sum (before ++ taken result octets.new) }
        ensures end { IfOk result (λ n. n ≡ 0 → 0 < length octets.new → self.new.sum ≡ self.new.told) }
        ensures other { self.old.is_other ≡ false → self.new.is_other ≡ true
            → (self.new.sum ≢ self.new.told) × (is_err result ≡ true) }
    {
        let Ok(n) = self.input.read(octets) else {
            self.failures = self.failures.wrapping_add(1);
            return Err(DeviceFault);
        };
        self.sum.add(&octets[..n]);
        if n == 0 && !octets.is_empty() && !self.ends_as_told() {
            self.is_other = true;
            self.failures = self.failures.wrapping_add(1);
            return Err(DeviceFault);
        }
        Ok(n)
    }
}
