//! The calls on the pool: the clauses of [`filter_db::PoolTables`], and beside them the work that each call does.
//!
//! A segment that goes, or whose limit falls below what is live, lets its entries go one by one, from the front of its queue
//! and of its list of fixed entries, and asks for no age but those of the dead that go first under a new limit. The calls
//! that brought the entries have paid for it: two for each call is still more than all ages that were asked for and all
//! entries that are kept.
ghost use Rattle.std.specs.Prelude.{◌≡◌, ◌+◌, ◌≤◌, None, IsSome, length};
ghost use Rattle.filter_db.specs.Segment.{aged_all, segment_at, adjusted, IsRule};
ghost use Rattle.filter_db.specs.Standing.{sum_of_limits, added, removed, set_limit_in};
ghost use Rattle.shared_tables.specs.Segments.{segments_of};
ghost use Rattle.shared_tables.specs.Work.{VisitsFew, Pays};

use crate::{SharedTables, learning};
use filter_db::{PoolTables, TableRule};
use wire::ether::Vid;

impl PoolTables for SharedTables {
    fn room(&self) -> u32 {
        self.unpromised()
    }

    fn segment_count(&self) -> u32 {
        self.shares_there()
    }

    fn limit(&self, vid: Vid) -> u32 {
        self.most(vid)
    }

    fn add(&mut self, rule: TableRule, now: u64)
        requires absent { segments_of self.old rule.vid ≡ None }
        requires in_range { IsRule rule }
        requires room { sum_of_limits (segments_of self.old) + rule.limit ≤ length self.old.entries }
        requires time { self.old.moment ≤ now }
        ensures after { segments_of self.new ≡ added rule (aged_all now (segments_of self.old)) }
        ensures moment { self.new.moment ≡ now }
        ensures pool { length self.new.entries ≡ length self.old.entries }
        ensures entries { self.new.entries ≡ self.old.entries }
        ensures calls { self.new.calls ≡ self.old.calls + 1 }
        ensures compared { self.new.compared ≡ self.old.compared }
        ensures visited { self.new.visited ≡ self.old.visited }
        ensures paid { Pays self.old self.new }
    {
        self.begin(now);
        self.begin_share(rule);
    }

    fn remove(&mut self, vid: Vid, now: u64)
        requires has { IsSome (segments_of self.old vid) }
        requires time { self.old.moment ≤ now }
        ensures after { segments_of self.new ≡ removed vid (aged_all now (segments_of self.old)) }
        ensures moment { self.new.moment ≡ now }
        ensures pool { length self.new.entries ≡ length self.old.entries }
        ensures calls { self.new.calls ≡ self.old.calls + 1 }
        ensures compared { self.new.compared ≡ self.old.compared }
        ensures visited { self.new.visited ≡ self.old.visited }
        ensures paid { Pays self.old self.new }
    {
        self.begin(now);
        learning::empty(self, vid);
        self.end_share(vid);
    }

    fn set_limit(&mut self, vid: Vid, limit: u32, now: u64)
        requires has { IsSome (segments_of self.old vid) }
        requires some_entries { 1 ≤ limit }
        requires room { let s = segment_at vid (segments_of self.old) in
            sum_of_limits (segments_of self.old) + limit ≤ length self.old.entries + s.limit }
        requires time { self.old.moment ≤ now }
        ensures after { segments_of self.new
            ≡ adjusted vid (set_limit_in limit) (aged_all now (segments_of self.old)) }
        ensures moment { self.new.moment ≡ now }
        ensures pool { length self.new.entries ≡ length self.old.entries }
        ensures calls { self.new.calls ≡ self.old.calls + 1 }
        ensures compared { self.new.compared ≡ self.old.compared }
        ensures visited { VisitsFew self.old self.new now }
        ensures visits_stay_counted { self.old.visited ≤ self.new.visited }
        ensures paid { Pays self.old self.new }
    {
        self.begin(now);
        learning::sweep(self, vid);
        learning::fit(self, vid, limit);
        self.set_most(vid, limit);
    }
}
