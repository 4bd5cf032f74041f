//! Sources and outlets, the largest first.
ghost use Rattle.std.specs.Prelude.{◌≡◌, ◌==◌, cond};
ghost use Rattle.report_page.specs.Matrix.{is_before, most_frames, pair_at, places_of, rank_of, shown_rank, size_of, some_of, source_of};
ghost use Rattle.report_page.specs.Series.{greatest};

use crate::series::{Numbers, greatest, together};
use report_counts::{Pair, ReportCounts};

/// The two sides of a matrix.
#[derive(Clone, Copy)]
pub(crate) enum Side {
    /// Where frames came from: the ports, and the underlay behind them.
    Sources,
    /// Where they left.
    Outlets,
}

/// How much came from the source of a place, or left at the outlet of a place.
fn size_of(counts: &ReportCounts, side: Side, place: u16) -> u64
    ensures { result ≡ size_of counts.now side place }
{
    match side {
        Side::Sources => counts.came(usize::from(source_number(place))),
        Side::Outlets => counts.outlet(usize::from(place)).frames,
    }
}

/// How many places a side has.
fn places_of(side: Side) -> u16
    ensures { result ≡ places_of side }
{
    match side {
        Side::Sources => 256,
        Side::Outlets => 513,
    }
}

/// Those that are before the one at a place.
#[derive(Clone, Copy)]
struct Before<'a> {
    counts: &'a ReportCounts,
    side: Side,
    place: u16,
}

impl<'a> Numbers for Before<'a> {
    ghost number = { λ before other. cond (is_before (size_of before.counts.now before.side) other before.place) 1 0 };

    fn number(&self, other: u16) -> u64 {
        let size = size_of(self.counts, self.side, self.place);
        let others = size_of(self.counts, self.side, other);
        if size < others || (others == size && other < self.place) {
            1
        } else {
            0
        }
    }
}

/// How many are before the one at a place.
fn rank_of(counts: &ReportCounts, side: Side, place: u16) -> u64
    ensures { result ≡ rank_of counts.now side place }
{
    let before = Before {
        counts,
        side,
        place,
    };
    together(&before, places_of(side))
}

/// Those of which there is something.
#[derive(Clone, Copy)]
struct Present<'a> {
    counts: &'a ReportCounts,
    side: Side,
}

impl<'a> Numbers for Present<'a> {
    ghost number = { λ present place. cond (size_of present.counts.now present.side place == 0) 0 1 };

    fn number(&self, place: u16) -> u64 {
        if size_of(self.counts, self.side, place) == 0 {
            0
        } else {
            1
        }
    }
}

/// How many there are at all.
pub(crate) fn some_of(counts: &ReportCounts, side: Side) -> u64
    ensures { result ≡ some_of counts.now side }
{
    together(&Present { counts, side }, places_of(side))
}

/// The rank of the one at a place, from 0, where it is shown: among the forty largest, and there is something of it.
#[tactic(auto, unfolding(crate::specs::Matrix::shown_rank))]
pub(crate) fn shown_rank(counts: &ReportCounts, side: Side, place: u16) -> Option<u8>
    ensures { result ≡ shown_rank counts.now side place }
{
    if size_of(counts, side, place) == 0 {
        return None;
    }
    let rank = rank_of(counts, side, place);
    if rank < 40 { Some(rank as u8) } else { None }
}

/// What came from the source of a place and left at an outlet.
pub(crate) fn pair_at(counts: &ReportCounts, source: u16, outlet: u16) -> Pair
    ensures { result ≡ pair_at counts.now source outlet }
{
    counts.pair(usize::from(source_number(source)), usize::from(outlet))
}

/// The frames from a source to each outlet.
#[derive(Clone, Copy)]
struct FramesOf<'a> {
    counts: &'a ReportCounts,
    source: u16,
}

impl<'a> Numbers for FramesOf<'a> {
    ghost number = { λ frames outlet. (pair_at frames.counts.now frames.source outlet).frames };

    fn number(&self, outlet: u16) -> u64 {
        pair_at(self.counts, self.source, outlet).frames
    }
}

/// The most frames of each source to an outlet.
#[derive(Clone, Copy)]
struct MostOf<'a>(&'a ReportCounts);

impl<'a> Numbers for MostOf<'a> {
    ghost number = { λ most source. greatest (λ outlet. (pair_at most.0.now source outlet).frames) 513 };

    fn number(&self, source: u16) -> u64 {
        let frames = FramesOf {
            counts: self.0,
            source,
        };
        greatest(&frames, 513)
    }
}

/// The most frames of a source and an outlet.
#[tactic(auto, unfolding(crate::specs::Matrix::most_frames))]
pub(crate) fn most_frames(counts: &ReportCounts) -> u64
    ensures { result ≡ most_frames counts.now }
{
    greatest(&MostOf(counts), 256)
}

/// The number of the source of a place from 0.
pub(crate) fn source_number(place: u16) -> u16
    ensures { result ≡ source_of place }
{
    place % 256 + 1
}
