//! How many records were sent, were received, and are both.
ghost use Rattle.std.specs.Prelude.{◌≡◌, ◌-◌, Some};
ghost use Rattle.capture_compare.specs.Counts.{all_words, count_words, counts_of, counts_text, is_none, is_same, no_counts};
ghost use Rattle.capture_compare.specs.Counts.{sum_of, sums_of};

use crate::lines::sides::Sides;
use record_match::Comparison;
use std::fmt;
use timeline::Tap;

/// How many records were sent, were received and are both, at one place or at some.
#[derive(Clone, Copy, Debug, PartialEq, Eq)]
pub struct Counts {
    pub sent: u64,
    pub received: u64,
    pub both: u64,
}

impl Counts {
    /// Of no place.
    pub fn none() -> Counts
        ensures { result ≡ no_counts }
    {
        Counts {
            sent: 0,
            received: 0,
            both: 0,
        }
    }

    /// Those of a comparison.
    pub fn of(comparison: &Comparison) -> Counts
        ensures { result ≡ counts_of comparison.now }
    {
        Counts {
            sent: comparison.sent(),
            received: comparison.received(),
            both: comparison.both(),
        }
    }

    /// With those of another place, up to the greatest number.
    pub fn and(self, other: Counts) -> Counts
        ensures { result ≡ sums_of self other }
    {
        Counts {
            sent: sum_of(self.sent, other.sent),
            received: sum_of(self.received, other.received),
            both: sum_of(self.both, other.both),
        }
    }

    /// The counts in words, behind `front` and with `between` between each two.
    fn words(self, front: &'static str, between: &'static str) -> CountWords
        ensures front { result.front.now ≡ front.now }
        ensures between { result.between.now ≡ between.now }
        ensures counts { result.counts ≡ self }
    {
        CountWords {
            front,
            between,
            counts: self,
        }
    }

    /// Whether no record was sent or received.
    pub fn is_none(self) -> bool
        ensures { result ≡ is_none self }
    {
        self.sent == 0 && self.received == 0
    }

    /// Whether each record that was sent was received, and no other.
    pub fn is_same(self) -> bool
        ensures { result ≡ is_same self }
    {
        self.sent == self.both && self.received == self.both
    }
}

/// A sum, up to the greatest number.
fn sum_of(m: u64, n: u64) -> u64
    ensures { result ≡ sum_of m n }
{
    m.saturating_add(n)
}

/// How many of some are of one capture alone, where so many are both.
fn alone_of(all: u64, both: u64) -> u64
    ensures { result ≡ all - both }
{
    all.saturating_sub(both)
}

/// Whose counts are told.
#[derive(Clone, Copy, Debug)]
pub enum Scope {
    /// Those of two captures that stand for themselves.
    Pair,
    /// Those of a place.
    Place(Tap),
    /// Those of all places.
    All,
    /// Those of the segment of this VID, at all places.
    Segment(u16),
    /// Those of no segment, at all places.
    NoSegment,
}

/// The lines of counts: of two captures one fact a line, of a place, of all of them or of a segment one line.
#[derive(Clone, Copy)]
pub struct CountLines {
    pub scope: Scope,
    pub counts: Counts,
}

impl fmt::Display for CountLines {
    ghost output = { λ lines. Some (counts_text lines.scope lines.counts) };

    fn fmt<W: fmt::Write>(&self, f: &mut fmt::Formatter<W>) -> fmt::Result {
        let lines = self.counts.words("", "\n");
        let line = self.counts.words(": ", ", ");
        match self.scope {
            Scope::Pair => write!(f, "{lines}"),
            Scope::Place(tap) => write!(f, "{tap}{line}"),
            Scope::All => write!(f, "all{line}"),
            Scope::Segment(vid) => write!(f, "segment {vid}{line}"),
            Scope::NoSegment => write!(f, "no segment{line}"),
        }
    }
}

/// `front`, the counts of all records and of those of one capture alone, with `between` between each two, and a line feed.
#[derive(Clone, Copy)]
struct CountWords {
    front: &'static str,
    between: &'static str,
    counts: Counts,
}

impl fmt::Display for CountWords {
    ghost output = { λ words. Some (count_words words.front.now words.between.now words.counts) };

    fn fmt<W: fmt::Write>(&self, f: &mut fmt::Formatter<W>) -> fmt::Result {
        let CountWords {
            front,
            between,
            counts,
        } = *self;
        let all = AllWords(*self);
        let alone = Sides {
            word: "alone",
            between,
            sent: alone_of(counts.sent, counts.both),
            received: alone_of(counts.received, counts.both),
        };
        write!(f, "{front}{all}{between}{alone}\n")
    }
}

/// The counts of all records.
#[derive(Clone, Copy)]
struct AllWords(CountWords);

impl fmt::Display for AllWords {
    ghost output = { λ all. Some (all_words all.0.between.now all.0.counts) };

    #[tactic(auto, unfolding(crate::specs::Counts::all_words))]
    fn fmt<W: fmt::Write>(&self, f: &mut fmt::Formatter<W>) -> fmt::Result {
        let between = self.0.between;
        let Counts {
            sent,
            received,
            both,
        } = self.0.counts;
        write!(
            f,
            "sent {sent}{between}received {received}{between}both {both}"
        )
    }
}
