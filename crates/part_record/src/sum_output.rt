//! An output whose octets are summed on the way.
//!
//! A whole run's outputs aren't summed: a [`SumOutput`] asks once for each block whether they are.
ghost use Rattle.std.specs.Prelude.{◌≡◌, List, ℕ, None, [], ◌++◌, IfSome, length};
ghost use Rattle.std.specs.Io.{WritesAtMost};
ghost use Rattle.std.specs.Io.KnownBytes.{WriteAppends};
ghost use Rattle.pcap.specs.Counts.{CountsRefusals};
ghost use Rattle.octet_sums.specs.Sums.{IsSumOf};
ghost use Rattle.part_record.specs.Sum.{taken};

use octet_sums::fletcher::OctetSum;
use pcap::stream::{DeviceFault, Output, WriteFault};

/// An output that hands octets on to another, and may sum those that the other took.
#[derive(Drop)]
pub struct SumOutput<W: Output> {
    output: W,
    /// None where they aren't summed.
    sum: Option<OctetSum>,
}

impl<W: Output> SumOutput<W> {
    /// An output that goes on where another stands, and sums its octets from here on if that is asked for.
    pub fn new(output: W, is_summed: bool) -> SumOutput<W>
        ensures output { result.output ≡ output }
        ensures sum { IfSome result.sum (λ sum. IsSumOf sum []) }
    {
        let sum = if is_summed {
            Some(OctetSum::new())
        } else {
            None
        };
        SumOutput { output, sum }
    }

    /// The sum of the octets that were taken, where they were summed.
    pub fn sum(&self) -> Option<OctetSum>
        ensures { result ≡ self.now.sum }
    {
        self.sum
    }

    /// The output that took them.
    pub fn output(&self) -> &W
        ensures { result.now ≡ self.now.output }
    {
        &self.output
    }

    /// The same, for good.
    pub fn into_inner(self) -> W
        ensures { result ≡ self.output }
    {
        let SumOutput { output, sum: _ } = self;
        output
    }
}

impl<W: Output> Output for SumOutput<W> {
    ghost written = { λ s. W.written s.output };

    ghost failures = { λ s. W.failures s.output };

    ghost held = { λ s. W.held s.output };

    fn hand_on_held(&mut self) -> Result<(), WriteFault> {
        self.output.hand_on_held()
    }

    fn write(&mut self, octets: &[u8]) -> Result<usize, DeviceFault>
        ensures bound { WritesAtMost result octets.now }
        ensures appended { WriteAppends (W.written self.old.output) (W.written self.new.output) result octets.now }
        ensures failures { CountsRefusals (W.failures self.old.output) (W.failures self.new.output) result (length octets.now) }
        ensures none { self.old.sum ≡ None → self.new.sum ≡ None }
        ensures sum { (before : List ℕ) → IfSome self.old.sum (λ sum. IsSumOf sum before)
            → IfSome self.new.sum (λ sum. IsSumOf sum (before ++ taken result octets.now)) }
    {
        let n = self.output.write(octets)?;
        self.sum = added(self.sum, &octets[..n]);
        Ok(n)
    }
}

/// A sum, if there is one, with octets behind those that it has.
fn added(sum: Option<OctetSum>, octets: &[u8]) -> Option<OctetSum>
    ensures none { sum ≡ None → result ≡ None }
    ensures sum { (before : List ℕ) → IfSome sum (λ s. IsSumOf s before) → IfSome result (λ s. IsSumOf s (before ++ octets.now)) }
{
    let mut longer = sum?;
    longer.add(octets);
    Some(longer)
}
