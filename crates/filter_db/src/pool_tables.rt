//! Tables whose segments come and go.
ghost use Rattle.std.specs.Prelude.{◌≡◌, ◌+◌, ◌≤◌, None, IsSome};
ghost use Rattle.filter_db.specs.Segment.{aged_all, segment_at, adjusted, IsRule};
ghost use Rattle.filter_db.specs.Standing.{sum_of_limits, segment_count, added, removed, set_limit_in};

use crate::{TableRule, Tables};
use wire::ether::Vid;

/// Tables whose segments share a pool of entries, and come, go and get other limits while the tables are used.
///
/// The limits of all segments together are never more than the pool, so that no segment takes room that another's
/// limit promises. No call takes memory. As with [`Tables`], each call that changes something brings a moment, finds all
/// segments as they are then, and changes its own segment and no other.
pub trait PoolTables: Tables {
    /// What is left of the pool: the most that the limit of another segment may be.
    fn room(&self) -> u32
        ensures { result + sum_of_limits (Self.segments self.now) ≡ Self.pool self.now };

    /// How many segments there are.
    fn segment_count(&self) -> u32
        ensures { result ≡ segment_count (Self.segments self.now) };

    /// The most entries that a segment may have.
    fn limit(&self, vid: Vid) -> u32
        requires has { IsSome (Self.segments self.now vid) }
        ensures { result ≡ (segment_at vid (Self.segments self.now)).limit };

    /// Adds a segment, without entries: whatever a segment of the same VID kept before is forgotten. There is none of
    /// this VID now, and room for its limit, which is 1 or more.
    fn add(&mut self, rule: TableRule, now: u64)
        requires absent { Self.segments self.old rule.vid ≡ None }
        requires in_range { IsRule rule }
        requires room { sum_of_limits (Self.segments self.old) + rule.limit ≤ Self.pool self.old }
        requires time { Self.moment self.old ≤ now }
        ensures after { Self.segments self.new ≡ added rule (aged_all now (Self.segments self.old)) }
        ensures moment { Self.moment self.new ≡ now }
        ensures pool { Self.pool self.new ≡ Self.pool self.old }
        ensures calls_stay_counted { Self.calls self.old ≤ Self.calls self.new }
        ensures calls { Self.calls self.new ≤ Self.calls self.old + 1 }
        ensures compared { Self.compared self.new ≡ Self.compared self.old };

    /// Removes a segment, with all its entries, fixed ones too.
    fn remove(&mut self, vid: Vid, now: u64)
        requires has { IsSome (Self.segments self.old vid) }
        requires time { Self.moment self.old ≤ now }
        ensures after { Self.segments self.new ≡ removed vid (aged_all now (Self.segments self.old)) }
        ensures moment { Self.moment self.new ≡ now }
        ensures pool { Self.pool self.new ≡ Self.pool self.old }
        ensures calls_stay_counted { Self.calls self.old ≤ Self.calls self.new }
        ensures calls { Self.calls self.new ≤ Self.calls self.old + 1 }
        ensures compared { Self.compared self.new ≡ Self.compared self.old };

    /// Gives a segment another limit, 1 or more, for which there is room once its own so far is given back. If more
    /// entries are live then, all entries of the segment go first, fixed ones too.
    fn set_limit(&mut self, vid: Vid, limit: u32, now: u64)
        requires has { IsSome (Self.segments self.old vid) }
        requires some_entries { 1 ≤ limit }
        requires room { let s = segment_at vid (Self.segments self.old) in
            sum_of_limits (Self.segments self.old) + limit ≤ Self.pool self.old + s.limit }
        requires time { Self.moment self.old ≤ now }
        ensures after { Self.segments self.new
            ≡ adjusted vid (set_limit_in limit) (aged_all now (Self.segments self.old)) }
        ensures moment { Self.moment self.new ≡ now }
        ensures pool { Self.pool self.new ≡ Self.pool self.old }
        ensures calls_stay_counted { Self.calls self.old ≤ Self.calls self.new }
        ensures calls { Self.calls self.new ≤ Self.calls self.old + 1 }
        ensures compared { Self.compared self.new ≡ Self.compared self.old };
}
