//! What passed.
ghost use Rattle.std.specs.Prelude.{◌≡◌};
ghost use Rattle.talkers.specs.Passed.{one_frame};

use ranked_rows::{Counts, Frequency};

/// The frames of a talk. Each count ends at 2^64 - 1.
#[derive(Clone, Copy, Debug)]
pub struct Passed {
    pub frames: u64,
    /// Their octets together, each frame's without its outermost tag.
    pub octets: u64,
    /// When the first came, in nanoseconds; 2^64 - 1 where none did.
    pub first: u64,
    /// When the last came, in nanoseconds; 0 where none did.
    pub last: u64,
}

impl Passed {
    /// One frame of so many octets, at a moment in nanoseconds.
    pub fn one(octets: u64, moment: u64) -> Passed
        ensures { result ≡ one_frame octets moment }
    {
        Passed {
            frames: 1,
            octets,
            first: moment,
            last: moment,
        }
    }
}

impl Counts for Passed {
    ghost use Rattle.talkers.specs.Passed.{nothing, passed_with};
    ghost use Rattle.talkers.specs.Sums.{nothing_is, with_grouped, with_turned, with_whole};

    ghost none = { nothing };

    ghost joined = { passed_with };

    fn none() -> Passed {
        Passed {
            frames: 0,
            octets: 0,
            first: u64::MAX,
            last: 0,
        }
    }

    fn with(self, other: Passed) -> Passed {
        Passed {
            frames: self.frames.saturating_add(other.frames),
            octets: self.octets.saturating_add(other.octets),
            first: self.first.min(other.first),
            last: self.last.max(other.last),
        }
    }

    ghost grouped = { with_grouped };

    ghost turned = { with_turned };

    ghost whole = { with_whole };

    ghost nothing = { nothing_is };
}

impl Frequency for Passed {
    ghost use Rattle.talkers.specs.Sums.{frames_summed, no_frames};
    ghost use Rattle.talkers.specs.Talkers.{frames_of};

    ghost times = { frames_of };

    fn times(&self) -> u64 {
        self.frames
    }

    ghost summed = { frames_summed };

    ghost never = { no_frames };
}
