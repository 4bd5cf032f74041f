//! Who talks to whom.
ghost use Rattle.std.specs.Prelude.{◌≡◌, ◌<◌, ◌^◌, nat_lt, true};
ghost use Rattle.talkers.specs.Talk.{pair_number, places_number, rank};

use crate::rows::rank::mac_number;
use byteorder::{BigEndian, ByteOrder};
use filter_db::Place;
use ranked_rows::Ranked;
use wire::ether::{Mac, Vid};

/// What numbers are multiplied with so that their bits come into the highest ones: 2^64 over the golden ratio.
const MIXER: u64 = 0x9E37_79B9_7F4A_7C15;

/// Where a frame goes from the bridge of its segment.
#[derive(Clone, Copy, Debug)]
pub enum Exit {
    /// To this place alone.
    To(Place),
    /// To several places.
    Flood,
    /// Nowhere.
    Drop,
}

impl Exit {
    /// Whether it is the other.
    #[inline(always)]
    fn is_same(&self, other: &Exit) -> bool
        ensures { result ≡ true → self.now ≡ other.now }
    {
        match (self, other) {
            (Exit::To(place), Exit::To(another)) => is_same_place(place, another),
            (Exit::Flood, Exit::Flood) | (Exit::Drop, Exit::Drop) => true,
            _ => false,
        }
    }
}

/// Who sends to whom in a segment, and from where to where. Talks are in the order of their VIDs, then of the sources, of the
/// destinations, of the kinds of both places, of the place that frames come from and of where they go.
#[derive(Clone, Copy, Debug)]
pub struct Talk {
    /// Of the segment.
    pub vid: Vid,
    pub source: Mac,
    /// Where the frames come from.
    pub from: Place,
    pub destination: Mac,
    /// Where they go.
    pub to: Exit,
}

impl Ranked for Talk {
    ghost use Rattle.talkers.specs.Talk.{rank};

    ghost rank = { rank };

    #[inline(always)]
    fn is_below(&self, other: &Talk) -> bool {
        // Of two segments nothing else is read.
        if self.vid.get() != other.vid.get() {
            self.stands_by_segment();
            other.stands_by_segment();
            return self.vid.get() < other.vid.get();
        }
        self.is_below_in_segment(other)
    }

    #[inline(always)]
    fn is_same(&self, other: &Talk) -> bool {
        self.has_addresses_of(other) && self.has_places_of(other)
    }

    fn mix(&self) -> u16 {
        let [high, low, ..] = self.mixed_addresses().to_be_bytes();
        u16::from_be_bytes([high, low])
    }
}

impl Talk {
    /// A number whose highest bits depend on all those of both addresses and the segment.
    fn mixed_addresses(&self) -> u64 {
        let source = BigEndian::read_u48(&self.source.0);
        let destination = BigEndian::read_u48(&self.destination.0).rotate_left(24);
        let segment = u64::from(self.vid.get()).rotate_left(48);
        (source ^ destination ^ segment).wrapping_mul(MIXER)
    }

    /// Whether it stands before another; both are mostly of one segment.
    fn is_below_in_segment(&self, other: &Talk) -> bool
        ensures { result ≡ nat_lt (rank self.now) (rank other.now) }
    {
        // No places come to a pair more.
        if self.is_below_by_addresses(other) {
            self.places_are_few();
            other.places_are_few();
            return true;
        }
        if other.is_below_by_addresses(self) {
            self.places_are_few();
            other.places_are_few();
            return false;
        }
        self.is_below_by_places(other)
    }

    /// Whether it stands before another of its segment, source and destination.
    #[inline(never)]
    fn is_below_by_places(&self, other: &Talk) -> bool
        ensures { result ≡ nat_lt (places_number self.now) (places_number other.now) }
    {
        let (kinds, from, to) = self.places_number();
        let (other_kinds, other_from, other_to) = other.places_number();
        kinds < other_kinds
            || (kinds == other_kinds
                && (from < other_from || (from == other_from && to < other_to)))
    }

    /// Whether its segment, source and destination stand before those of another.
    #[inline(always)]
    fn is_below_by_addresses(&self, other: &Talk) -> bool
        ensures { result ≡ nat_lt (pair_number self.now) (pair_number other.now) }
    {
        let (segment, source, destination) = self.pair_words();
        let (other_segment, other_source, other_destination) = other.pair_words();
        segment < other_segment
            || (segment == other_segment
                && (source < other_source
                    || (source == other_source && destination < other_destination)))
    }

    /// Whether it has the segment, source and destination of another.
    #[tactic(auto, unfolding(crate::specs::Talk::pair_number))]
    #[inline(always)]
    fn has_addresses_of(&self, other: &Talk) -> bool
        ensures { result ≡ true → pair_number self.now ≡ pair_number other.now }
    {
        self.vid == other.vid
            && mac_number(self.source) == mac_number(other.source)
            && mac_number(self.destination) == mac_number(other.destination)
    }

    /// Whether it has the places of another.
    #[tactic(auto, unfolding(crate::specs::Talk::places_number))]
    #[inline(always)]
    fn has_places_of(&self, other: &Talk) -> bool
        ensures { result ≡ true → places_number self.now ≡ places_number other.now }
    {
        is_same_place(&self.from, &other.from) && self.to.is_same(&other.to)
    }
}

/// Whether a place is another. Most are local ports.
#[inline(always)]
fn is_same_place(place: &Place, other: &Place) -> bool
    ensures { result ≡ true → place.now ≡ other.now }
{
    match (place, other) {
        (Place::Local(port), Place::Local(another)) => port == another,
        _ => place == other,
    }
}
