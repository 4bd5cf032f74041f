//! A frame that came in, but for its octets.
ghost use Rattle.std.specs.Prelude.{◌≡◌, ◌+◌, ◌&&◌, nat_eq, nat_lt, []};
ghost use Rattle.echo_window.specs.Echo.{is_awaited, is_echo_of, is_elsewhere, is_soon};
ghost use Rattle.echo_window.specs.Laid.{came_of, told};

use crate::place_set::PlaceSet;
use crate::record::Record;

/// A frame that came in, but for its octets, which stand elsewhere.
#[derive(Drop)]
pub(crate) struct Kept {
    /// Where it came in.
    pub(crate) place: u8,
    /// The number of its record there.
    pub(crate) number: u64,
    /// Nanoseconds.
    pub(crate) moment: u64,
    /// How many octets came before its own, counted as in a window.
    pub(crate) at: u64,
    /// How many octets it has.
    pub(crate) length: usize,
    /// The number of the frame before it in its bucket; it may be that of one that went, as in a window.
    pub(crate) before: u64,
    /// Whether all frames before it in its bucket came in where it did, as far as that is known.
    pub(crate) alike: bool,
    /// Where it may still be met again.
    pub(crate) awaited: PlaceSet,
}

impl Kept {
    /// Whether a record is an echo of the frame, whose octets these are. Most frames are of another length, which is seen first.
    #[inline(always)]
    #[tactic(auto, using(crate::proofs::Texts::never_same))]
    pub(crate) fn is_met_by(&self, octets: &[u8], within: u64, met: &Record) -> bool
        ensures { result ≡ is_echo_of within (told met.now) (came_of self.now octets.now) }
    {
        if octets.len() != met.frame.octet_count() {
            return false;
        }
        self.awaits(within, met) && met.frame.is_same_as(octets)
    }

    /// Whether it came in more than so many nanoseconds before a moment.
    #[inline]
    pub(crate) fn is_past(&self, within: u64, moment: u64) -> bool
        ensures { result ≡ nat_lt (self.now.moment + within) moment }
    {
        self.moment < moment.saturating_sub(within)
    }

    /// Whether it and all frames before it in its bucket are known to have come in at a place.
    #[inline(always)]
    pub(crate) fn are_all_at(&self, place: u8) -> bool
        ensures { result ≡ (self.now.alike && nat_eq self.now.place place) }
    {
        self.alike && self.place == place
    }

    /// Whether a record's place and moment are those of an echo.
    #[inline(always)]
    pub(crate) fn awaits(&self, within: u64, met: &Record) -> bool
        ensures { let r = told met.now in let c = came_of self.now [] in
            result ≡ (is_elsewhere r c && (is_soon within r c && is_awaited r c)) }
    {
        self.place != met.place && self.is_soon(within, met) && self.is_awaited(met)
    }

    /// Whether a record is no earlier, and at most so many nanoseconds later.
    #[inline]
    fn is_soon(&self, within: u64, met: &Record) -> bool
        ensures { result ≡ is_soon within (told met.now) (came_of self.now []) }
    {
        self.moment <= met.moment && met.moment - self.moment <= within
    }

    /// Whether the frame may be met at a record's place, and wasn't yet.
    #[inline]
    fn is_awaited(&self, met: &Record) -> bool
        ensures { result ≡ is_awaited (told met.now) (came_of self.now []) }
    {
        self.awaited.has(met.place)
    }
}
