//! Records that are compared, counted by their segments.
ghost use Rattle.std.specs.Prelude.{◌≡◌, IfOk, replicate};
ghost use Rattle.capture_compare.specs.Counts.{no_counts};
ghost use Rattle.record_match.specs.Kept.{told};
ghost use Rattle.capture_compare.specs.Counting.{with_fact, with_record};
ghost use Rattle.capture_compare.specs.Segments.{index_of};

use crate::lines::Counts;
use crate::segments::index::SegmentIndex;
use crate::segments::reading::PlaceReading;
use crate::segments::rows::SegmentRows;
use overlay::settings::Settings;
use record_match::{Onlooker, Seen};
use std::alloc::{AllocError, Global};

/// Who counts records by their segments, while captures of one place after another are compared. Only [`SegmentCounts::open`]
/// takes memory.
#[derive(Drop)]
pub struct SegmentCounts {
    /// Which segments there are.
    pub index: SegmentIndex,
    /// How records are read at the place whose captures are compared.
    pub reading: PlaceReading,
    /// What was counted at all places.
    pub rows: SegmentRows,
}

impl SegmentCounts {
    /// One that was told no record, for the segments of these settings. `AllocError`: there was no memory for it.
    pub fn open(alloc: Global, settings: Settings) -> Result<SegmentCounts, AllocError>
        ensures index { IfOk result (λ counts. counts.index ≡ index_of settings) }
        ensures rows { IfOk result (λ counts. counts.rows ≡ replicate 4095 no_counts) }
    {
        Ok(SegmentCounts {
            index: SegmentIndex::open(alloc, settings)?,
            reading: PlaceReading::Keys,
            rows: SegmentRows::new(alloc)?,
        })
    }

    /// Adds counts to those of a record's segment.
    fn count(&mut self, seen: &Seen, counts: Counts)
        ensures { self.new ≡ with_record (told seen.now) counts self.old }
    {
        let segment = self.index.segment_at(self.reading, seen);
        self.rows.add(segment, counts);
    }
}

impl Onlooker for SegmentCounts {
    ghost sees = { λ old fact new. new ≡ with_fact fact old };

    fn see_both(&mut self, _sent_moment: u64, _number: u64, received: &Seen) {
        let counts = Counts {
            sent: 1,
            received: 1,
            both: 1,
        };
        self.count(received, counts);
    }

    fn see_received(&mut self, _number: u64, received: &Seen) {
        let counts = Counts {
            sent: 0,
            received: 1,
            both: 0,
        };
        self.count(received, counts);
    }

    fn see_sent(&mut self, _number: u64, sent: &Seen) {
        let counts = Counts {
            sent: 1,
            received: 0,
            both: 0,
        };
        self.count(sent, counts);
    }
}
