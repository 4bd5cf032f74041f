//! Entries of a table.
ghost use Rattle.std.specs.Prelude.{◌≡◌};
ghost use Rattle.filter_db.specs.Table.{is_fixed, is_live, is_seen_at, nanoseconds};

use crate::Place;

/// What a table keeps of an address.
#[derive(Clone, Copy, Debug, PartialEq, Eq)]
pub struct Entry {
    /// Where its station stands.
    pub place: Place,
    /// The last moment at which it was seen there, in nanoseconds; None where the entry is fixed.
    pub last: Option<u64>,
}

impl Entry {
    /// Whether it stays until it is taken out.
    pub fn is_fixed(self) -> bool
        ensures { result ≡ is_fixed self }
    {
        self.last.is_none()
    }

    /// Whether it counts at a moment, under an ageing in seconds.
    pub fn is_live(self, ageing: u32, now: u64) -> bool
        ensures { result ≡ is_live (nanoseconds ageing) now self }
    {
        match self.last {
            Some(last) => now.saturating_sub(last) < u64::from(ageing) * 1_000_000_000,
            None => true,
        }
    }

    /// Whether it was learned, and stands at this place.
    pub fn is_seen_at(self, place: Place) -> bool
        ensures { result ≡ is_seen_at place self }
    {
        !self.is_fixed() && self.place.is_same(place)
    }
}
