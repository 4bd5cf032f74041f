//! What the tables of all segments answer, however they are kept.
//!
//! The size of the pool is a ghost of the trait, and each call says that it stays: code over any tables, as the bridge's
//! step, would else not know after a call how much room there is. Of `ListTables` it is 0, since each of its segments has
//! room of its own. So are two counts of the work that calls do, whatever stands in the tables: how many calls were made, and
//! how often an address was compared. They never fall, and what stands above can say by them what it asks of tables at most.
ghost use Rattle.std.specs.Prelude.{◌≡◌, ◌↔◌, ◌≤◌, ◌+◌, ℕ, IsTrue, IsSome, IsErr, IsOk};
ghost use Rattle.std.specs.FinMap.{len};
ghost use Rattle.filter_db.specs.Table.{stands, learned_as, is_full, has_fixed};
ghost use Rattle.filter_db.specs.Segment.{Segments, aged_all, segment_at, adjusted, learn_in};
ghost use Rattle.filter_db.specs.Segment.{fix_in, unfix_in, flush_place_in, flush_in, set_ageing_in};
ghost use Rattle.filter_db.specs.Work.{most_compared};

use crate::Place;
use thiserror::Error;
use wire::ether::{Mac, Vid};

/// The rule of one segment's table.
#[derive(Clone, Copy, Debug, PartialEq, Eq)]
pub struct TableRule {
    /// The segment's VLAN identifier.
    pub vid: Vid,
    /// The most entries that it may have, 1 or more.
    pub limit: u32,
    /// For how many seconds a learned entry is live, 10 to 1,000,000.
    pub ageing: u32,
}

/// What learning did with a source address.
#[derive(Clone, Copy, Debug, PartialEq, Eq)]
pub enum Learned {
    /// It was added.
    New,
    /// It was live at this place, and is live for longer now.
    Refreshed,
    /// It was live at another place.
    Moved,
    /// It has a fixed entry, which stays as it is.
    Fixed,
    /// It wasn't live, and the segment has its limit of live entries.
    Full,
}

/// The address isn't live, and the segment has its limit of live entries.
#[derive(Clone, Copy, Debug, PartialEq, Eq, Error)]
#[error("TableFull")]
pub struct TableFull;

/// The address has no fixed entry.
#[derive(Clone, Copy, Debug, PartialEq, Eq, Error)]
#[error("NotThere")]
pub struct NotThere;

/// The tables of all segments.
///
/// Each call but `has` and `now` is for a VID that has a segment, and brings a moment in nanoseconds that isn't before
/// the tables' own. It finds all segments as they are at that moment: only live entries count, which are the fixed
/// ones and those that were seen less than the segment's ageing ago. Then it changes its own segment, and no other. A
/// call that is refused moves the moment on and changes nothing else. No call changes the size of the pool. Each is one call
/// of those that are counted, and only `look`, `learn`, `fix` and `unfix` compare addresses, each at most 61 times.
pub trait Tables {
    /// For each VID its segment, with what is live at the tables' own moment.
    ghost segments: { Self → Segments };

    /// The latest moment that a call brought.
    ghost moment: { Self → ℕ };

    /// How many entries the segments together may have, where they share a pool; 0 where each has room of its own.
    ghost pool: { Self → ℕ };

    /// How many calls were made that may change something, looks included; 0 where they aren't counted.
    ghost calls: { Self → ℕ };

    /// How often an address was compared with one that is kept, or sent on by a fork on the way to it; 0 where that isn't
    /// counted.
    ghost compared: { Self → ℕ };

    /// Whether a VID has a segment.
    fn has(&self, vid: Vid) -> bool
        ensures { IsTrue result ↔ IsSome (segments self.now vid) };

    /// The tables' moment: that of the last call but for `look`, 0 at first.
    fn now(&self) -> u64
        ensures { result ≡ moment self.now };

    /// Where the station of an address stands at a moment. The tables' moment stays.
    fn look(&mut self, vid: Vid, mac: Mac, now: u64) -> Option<Place>
        requires has { IsSome (segments self.old vid) }
        requires time { moment self.old ≤ now }
        ensures answer { let s = segment_at vid (aged_all now (segments self.old)) in
            result ≡ stands mac s.entries }
        ensures after { segments self.new ≡ segments self.old }
        ensures moment { moment self.new ≡ moment self.old }
        ensures pool { pool self.new ≡ pool self.old }
        ensures calls_stay_counted { calls self.old ≤ calls self.new }
        ensures calls { calls self.new ≤ calls self.old + 1 }
        ensures comparisons_stay_counted { compared self.old ≤ compared self.new }
        ensures compared { compared self.new ≤ compared self.old + most_compared };

    /// Learns that a frame came from this address at this place (IEEE 802.1Q, 8.7).
    fn learn(&mut self, vid: Vid, mac: Mac, place: Place, now: u64) -> Learned
        requires has { IsSome (segments self.old vid) }
        requires time { moment self.old ≤ now }
        ensures answer { let s = segment_at vid (aged_all now (segments self.old)) in
            result ≡ learned_as s.limit place mac s.entries }
        ensures after { segments self.new
            ≡ adjusted vid (learn_in now place mac) (aged_all now (segments self.old)) }
        ensures moment { moment self.new ≡ now }
        ensures pool { pool self.new ≡ pool self.old }
        ensures calls_stay_counted { calls self.old ≤ calls self.new }
        ensures calls { calls self.new ≤ calls self.old + 1 }
        ensures comparisons_stay_counted { compared self.old ≤ compared self.new }
        ensures compared { compared self.new ≤ compared self.old + most_compared };

    /// Gives an address a fixed entry, in place of any earlier one (IEEE 802.1Q, 8.8.1). `TableFull`: the address isn't
    /// live, and the segment has its limit of live entries.
    fn fix(&mut self, vid: Vid, mac: Mac, place: Place, now: u64) -> Result<(), TableFull>
        requires has { IsSome (segments self.old vid) }
        requires time { moment self.old ≤ now }
        ensures full { let s = segment_at vid (aged_all now (segments self.old)) in
            IsErr result ↔ IsTrue (is_full s.limit mac s.entries) }
        ensures after { segments self.new
            ≡ adjusted vid (fix_in place mac) (aged_all now (segments self.old)) }
        ensures moment { moment self.new ≡ now }
        ensures pool { pool self.new ≡ pool self.old }
        ensures calls_stay_counted { calls self.old ≤ calls self.new }
        ensures calls { calls self.new ≤ calls self.old + 1 }
        ensures comparisons_stay_counted { compared self.old ≤ compared self.new }
        ensures compared { compared self.new ≤ compared self.old + most_compared };

    /// Takes the fixed entry of an address out. `NotThere`: the address has none.
    fn unfix(&mut self, vid: Vid, mac: Mac, now: u64) -> Result<(), NotThere>
        requires has { IsSome (segments self.old vid) }
        requires time { moment self.old ≤ now }
        ensures there { let s = segment_at vid (aged_all now (segments self.old)) in
            IsOk result ↔ IsTrue (has_fixed mac s.entries) }
        ensures after { segments self.new
            ≡ adjusted vid (unfix_in mac) (aged_all now (segments self.old)) }
        ensures moment { moment self.new ≡ now }
        ensures pool { pool self.new ≡ pool self.old }
        ensures calls_stay_counted { calls self.old ≤ calls self.new }
        ensures calls { calls self.new ≤ calls self.old + 1 }
        ensures comparisons_stay_counted { compared self.old ≤ compared self.new }
        ensures compared { compared self.new ≤ compared self.old + most_compared };

    /// Forgets what was learned at a place.
    fn flush_place(&mut self, vid: Vid, place: Place, now: u64)
        requires has { IsSome (segments self.old vid) }
        requires time { moment self.old ≤ now }
        ensures after { segments self.new
            ≡ adjusted vid (flush_place_in place) (aged_all now (segments self.old)) }
        ensures moment { moment self.new ≡ now }
        ensures pool { pool self.new ≡ pool self.old }
        ensures calls_stay_counted { calls self.old ≤ calls self.new }
        ensures calls { calls self.new ≤ calls self.old + 1 }
        ensures compared { compared self.new ≡ compared self.old };

    /// Forgets all that was learned.
    fn flush(&mut self, vid: Vid, now: u64)
        requires has { IsSome (segments self.old vid) }
        requires time { moment self.old ≤ now }
        ensures after { segments self.new
            ≡ adjusted vid flush_in (aged_all now (segments self.old)) }
        ensures moment { moment self.new ≡ now }
        ensures pool { pool self.new ≡ pool self.old }
        ensures calls_stay_counted { calls self.old ≤ calls self.new }
        ensures calls { calls self.new ≤ calls self.old + 1 }
        ensures compared { compared self.new ≡ compared self.old };

    /// Sets the ageing, 10 to 1,000,000 seconds. What is dead under the old one stays dead, and what is too old under
    /// the new one dies.
    fn set_ageing(&mut self, vid: Vid, seconds: u32, now: u64)
        requires has { IsSome (segments self.old vid) }
        requires time { moment self.old ≤ now }
        requires long_enough { 10 ≤ seconds }
        requires not_too_long { seconds ≤ 1000000 }
        ensures after { segments self.new
            ≡ adjusted vid (set_ageing_in now seconds) (aged_all now (segments self.old)) }
        ensures moment { moment self.new ≡ now }
        ensures pool { pool self.new ≡ pool self.old }
        ensures calls_stay_counted { calls self.old ≤ calls self.new }
        ensures calls { calls self.new ≤ calls self.old + 1 }
        ensures compared { compared self.new ≡ compared self.old };

    /// How many live entries a segment has.
    fn live(&mut self, vid: Vid, now: u64) -> u32
        requires has { IsSome (segments self.old vid) }
        requires time { moment self.old ≤ now }
        ensures count { let s = segment_at vid (aged_all now (segments self.old)) in
            result ≡ len s.entries }
        ensures after { segments self.new ≡ aged_all now (segments self.old) }
        ensures moment { moment self.new ≡ now }
        ensures pool { pool self.new ≡ pool self.old }
        ensures calls_stay_counted { calls self.old ≤ calls self.new }
        ensures calls { calls self.new ≤ calls self.old + 1 }
        ensures compared { compared self.new ≡ compared self.old };

    /// What is dead at the tables' moment is no part of a segment.
    ghost settled: { (t : Self) → aged_all (moment t) (segments t) ≡ segments t };
}
