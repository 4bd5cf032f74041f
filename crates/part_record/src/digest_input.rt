//! An input whose octets are counted on the way, and whose digest may be taken there.
//!
//! No digest is taken of a whole run's captures: a [`DigestInput`] asks once for each read whether one is.
ghost use Rattle.std.specs.Prelude.{◌≡◌, ℕ, List, [], ◌++◌, ◌⊎◌, IfSome, IsSome, OnOk, OnErr, true};
ghost use Rattle.std.specs.Io.{ReadsAtMost};
ghost use Rattle.std.specs.Io.KnownBytes.{Consumes, IsAtEnd, ReadConsumes};
ghost use Rattle.pcap.specs.Counts.{CountsFaults, GoesOnBy};
ghost use Rattle.part_record.specs.Digests.{digest_of};
ghost use Rattle.part_record.specs.Sum.{HasTaken, MayHaveTaken, taken};

use crate::digests::CaptureDigest;
use octet_sums::sha256::Sha256;
use pcap::stream::{DeviceFault, Input};
use sha2::Digest;

/// How many octets are read at once behind those that were asked for.
const BLOCK: usize = 4096;

/// An input that hands on what another gives, counts its octets, and may take the digest of them (SHA-256, FIPS 180-4). The count
/// ends at 2^64 - 1.
#[derive(Drop)]
pub struct DigestInput<R: Input> {
    input: R,
    octets: u64,
    /// None where no digest is taken.
    hasher: Option<Sha256>,
}

impl<R: Input> DigestInput<R> {
    /// An input that hands on what this one gives from here on, and takes the digest of that if it is asked for.
    pub fn new(input: R, is_digested: bool) -> DigestInput<R>
        ensures input { result.input ≡ input }
        ensures taken { HasTaken result.hasher result.octets [] }
        ensures digested { is_digested ≡ true → IsSome result.hasher }
    {
        let hasher = if is_digested {
            Some(Sha256::new())
        } else {
            None
        };
        DigestInput {
            input,
            octets: 0,
            hasher,
        }
    }

    /// The input, as the reads so far left it.
    pub fn input(&self) -> &R
        ensures { result.now ≡ self.now.input }
    {
        &self.input
    }

    /// How many octets were handed on.
    pub fn octets(&self) -> u64
        ensures { result ≡ self.now.octets }
    {
        self.octets
    }

    /// The digest of all octets that were handed on, and how many they are, where it is taken.
    pub fn digest(&self) -> Option<CaptureDigest>
        ensures digest { IfSome result (λ digest. (octets : List ℕ) → HasTaken self.now.hasher self.now.octets octets
            → digest ≡ digest_of octets) }
        ensures taken { IsSome self.now.hasher → IsSome result }
    {
        match &self.hasher {
            Some(hasher) => Some(CaptureDigest {
                octets: self.octets,
                sum: hasher.finalize(),
            }),
            None => None,
        }
    }

    /// Reads to the end, in as many reads at most. `Err`: a read failed, or the reads weren't enough.
    pub fn finish(&mut self, reads: u64) -> Result<(), DeviceFault>
        ensures taken { OnOk result ((octets : List ℕ) → HasTaken self.old.hasher self.old.octets octets
            → (rest : List ℕ) × Consumes (R.remaining self.old.input) (R.remaining self.new.input) rest
            × HasTaken self.new.hasher self.new.octets (octets ++ rest)) }
        ensures digested { IsSome self.old.hasher → IsSome self.new.hasher }
        ensures end { OnOk result (IsAtEnd (R.remaining self.new.input)) }
        ensures quiet { OnOk result (R.failures self.new.input ≡ R.failures self.old.input) }
        ensures failed { OnErr result (GoesOnBy 1 (R.failures self.old.input) (R.failures self.new.input)
            ⊎ GoesOnBy reads (R.calls self.old.input) (R.calls self.new.input)) }
    {
        let mut block = [0; BLOCK];
        for _ in 0..reads {
            let n = self.read(&mut block)?;
            if n == 0 {
                return Ok(());
            }
        }
        Err(DeviceFault)
    }
}

impl<R: Input> Input for DigestInput<R> {
    ghost remaining = { λ d. R.remaining d.input };

    ghost calls = { λ d. R.calls d.input };

    ghost failures = { λ d. R.failures d.input };

    fn read(&mut self, octets: &mut [u8]) -> Result<usize, DeviceFault>
        ensures bound { ReadsAtMost result octets.new }
        ensures taken { ReadConsumes (R.remaining self.old.input) (R.remaining self.new.input) result octets.new }
        ensures calls { GoesOnBy 1 (R.calls self.old.input) (R.calls self.new.input) }
        ensures failures { CountsFaults (R.failures self.old.input) (R.failures self.new.input) result }
        ensures digested { IsSome self.old.hasher → IsSome self.new.hasher }
        ensures digest { (before : List ℕ) → HasTaken self.old.hasher self.old.octets before
            → HasTaken self.new.hasher self.new.octets (before ++ taken result octets.new) }
    {
        let n = self.input.read(octets)?;
        self.octets = self.octets.saturating_add(n as u64);
        take(&mut self.hasher, &octets[..n]);
        Ok(n)
    }
}

/// Takes octets behind those that were taken, where a digest is.
fn take(hasher: &mut Option<Sha256>, octets: &[u8])
    ensures digested { IsSome hasher.old → IsSome hasher.new }
    ensures took { (before : List ℕ) → MayHaveTaken hasher.old before → MayHaveTaken hasher.new (before ++ octets.now) }
{
    if let Some(hasher) = hasher {
        hasher.update(octets);
    }
}
