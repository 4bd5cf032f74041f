//! What of records that are of one capture alone and are near another differs.
ghost use Rattle.std.specs.Prelude.{◌≡◌, IfOk, OnOk};
ghost use Rattle.record_match.specs.Kept.{told};
ghost use Rattle.capture_compare.specs.Differing.{difference_of, nothing_yet, with_received, with_sent};

use crate::lonely::difference::Difference;
use crate::lonely::near::LonelySeen;
use crate::lonely::pairs::{DifferenceRow, NearPair, PairCounts};
use crate::lonely::segment::{Reading, segment_of};
use record_match::Seen;
use std::alloc::{AllocError, Global};
use std::marker::Model;

/// What of records that were sent alone and of those that were received alone and are near them differs: as these are told, in the
/// order in which it is settled that they are alone.
#[derive(Drop)]
pub struct Differences {
    reading: Reading,
    /// How many nanoseconds later a record may be received.
    within: u64,
    held: LonelySeen,
    counts: PairCounts,
}

impl Model for Differences {
    ghost use Rattle.capture_compare.specs.Differing.{Differing};

    ghost Value = { Differing };

    ghost view = { λ d. record { reading = d.reading; within = d.within; held = d.held; counted = d.counts } };
}

impl Differences {
    /// Of no records, whose keys are read so. `AllocError`: there was no memory for rows.
    pub fn new(alloc: Global, reading: Reading, within: u64) -> Result<Differences, AllocError>
        ensures { IfOk result (λ differences. differences ≡ nothing_yet reading within) }
    {
        Ok(Differences {
            reading,
            within,
            held: LonelySeen::new(alloc),
            counts: PairCounts::new(alloc)?,
        })
    }

    /// How keys are read.
    pub fn reading(&self) -> Reading
        ensures { result ≡ self.now.reading }
    {
        self.reading
    }

    /// Takes a record that was received alone, with its number. `AllocError`: there was no memory for it.
    pub fn receive(&mut self, number: u64, received: &Seen) -> Result<(), AllocError>
        ensures { OnOk result (self.new ≡ with_received number (told received.now) self.old) }
    {
        self.held.hold(self.within, number, received)
    }

    /// Takes one that was sent alone, with its number, and answers what of the one that is near it differs, where one is. That pair is
    /// counted.
    pub fn send(&mut self, number: u64, sent: &Seen) -> Option<Difference>
        ensures difference { result ≡ difference_of (told sent.now) self.old }
        ensures differences { self.new ≡ with_sent number (told sent.now) self.old }
    {
        let Some(near) = self.held.name(self.reading, self.within, sent) else {
            return None;
        };
        self.counts.count(NearPair {
            segment: segment_of(self.reading, sent.octets),
            difference: near.difference,
            received: near.number,
            sent: number,
        });
        Some(near.difference)
    }

    /// What was counted: a row for each segment of what was sent and each difference, in the order of the first ones.
    pub fn rows(&self) -> &[DifferenceRow]
        ensures { result.now ≡ self.now.counted.rows }
    {
        self.counts.rows()
    }

    /// How many pairs have no row.
    pub fn others(&self) -> u64
        ensures { result ≡ self.now.counted.others }
    {
        self.counts.others()
    }
}
