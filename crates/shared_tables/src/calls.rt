//! The calls on the tables: the clauses of [`filter_db::Tables`], and beside them the work that each call does.
//!
//! A call asks for the ages of at most one entry more than go for being dead. The one more is either the first of the queue
//! that is still live, where a sweep ends, or the address's own entry, where a learn finds it: its age has to be asked to
//! tell New from Refreshed and Moved. So the bound can't be tightened for learning a known address; that this one age is the
//! only one is the clause `known` of `learn`. A fix asks none, which its clause `known` says. `flush_place` goes along its
//! own segment's queue once, `flush` takes from its front; neither asks for an age.
ghost use Rattle.std.specs.Prelude.{◌≡◌, ◌↔◌, ◌≤◌, ◌+◌, ℕ, IsTrue, IsSome, IsErr, IsOk, length};
ghost use Rattle.std.specs.FinMap.{len};
ghost use Rattle.filter_db.specs.Table.{stands, learned_as, is_full, has_fixed};
ghost use Rattle.filter_db.specs.Segment.{aged_all, segment_at, adjusted, learn_in, fix_in, unfix_in, flush_place_in, flush_in};
ghost use Rattle.filter_db.specs.Segment.{set_ageing_in};
ghost use Rattle.shared_tables.specs.Segments.{segments_of};
ghost use Rattle.shared_tables.specs.Work.{ComparesFew, ComparesByBits, VisitsFew, TellsAtMost, Pays};

use crate::admission::Outcome;
use crate::bucket::tree_of;
use crate::{SharedTables, learning};
use filter_db::{Learned, NotThere, Place, TableFull, Tables};
use wire::ether::{Mac, Vid};

impl Tables for SharedTables {
    ghost use Rattle.shared_tables.specs.Segments.{segments_of};

    ghost segments = { segments_of };

    ghost moment = { λ t. t.moment };

    ghost pool = { λ t. length t.entries };

    ghost calls = { λ t. t.calls };

    ghost compared = { λ t. t.compared };

    fn has(&self, vid: Vid) -> bool {
        self.has_share(vid)
    }

    fn now(&self) -> u64 {
        self.moment()
    }

    fn look(&mut self, vid: Vid, mac: Mac, now: u64) -> Option<Place>
        requires has { IsSome (segments_of self.old vid) }
        requires time { self.old.moment ≤ now }
        ensures answer { let s = segment_at vid (aged_all now (segments_of self.old)) in
            result ≡ stands mac s.entries }
        ensures after { segments_of self.new ≡ segments_of self.old }
        ensures moment { self.new.moment ≡ self.old.moment }
        ensures calls { self.new.calls ≡ self.old.calls + 1 }
        ensures pool { length self.new.entries ≡ length self.old.entries }
        ensures entries { self.new.entries ≡ self.old.entries }
        ensures compared { ComparesFew self.old self.new vid mac }
        ensures compared_by_bits { ComparesByBits self.old self.new }
        ensures visited { VisitsFew self.old self.new now }
        ensures comparisons_stay_counted { self.old.compared ≤ self.new.compared }
        ensures visits_stay_counted { self.old.visited ≤ self.new.visited }
        ensures paid { Pays self.old self.new }
    {
        self.count_call();
        let ageing = self.span(vid);
        let tree = tree_of(vid, mac);
        match self.find(tree, vid, mac) {
            Some(slot) => self.place_if_live(slot, ageing, now),
            None => None,
        }
    }

    fn learn(&mut self, vid: Vid, mac: Mac, place: Place, now: u64) -> Learned
        requires has { IsSome (segments_of self.old vid) }
        requires time { self.old.moment ≤ now }
        ensures answer { let s = segment_at vid (aged_all now (segments_of self.old)) in
            result ≡ learned_as s.limit place mac s.entries }
        ensures after { segments_of self.new
            ≡ adjusted vid (learn_in now place mac) (aged_all now (segments_of self.old)) }
        ensures moment { self.new.moment ≡ now }
        ensures calls { self.new.calls ≡ self.old.calls + 1 }
        ensures pool { length self.new.entries ≡ length self.old.entries }
        ensures compared { ComparesFew self.old self.new vid mac }
        ensures compared_by_bits { ComparesByBits self.old self.new }
        ensures visited { VisitsFew self.old self.new now }
        ensures known { TellsAtMost 1 self.old self.new vid mac }
        ensures comparisons_stay_counted { self.old.compared ≤ self.new.compared }
        ensures visits_stay_counted { self.old.visited ≤ self.new.visited }
        ensures paid { Pays self.old self.new }
    {
        self.begin(now);
        let tree = tree_of(vid, mac);
        match learning::find_or_admit(self, tree, vid, &mac, &place, Some(now)) {
            Outcome::Held(slot) => learning::relearn(self, vid, slot, &place),
            Outcome::Entered => Learned::New,
            Outcome::Full => Learned::Full,
        }
    }

    fn fix(&mut self, vid: Vid, mac: Mac, place: Place, now: u64) -> Result<(), TableFull>
        requires has { IsSome (segments_of self.old vid) }
        requires time { self.old.moment ≤ now }
        ensures full { let s = segment_at vid (aged_all now (segments_of self.old)) in
            IsErr result ↔ IsTrue (is_full s.limit mac s.entries) }
        ensures after { segments_of self.new
            ≡ adjusted vid (fix_in place mac) (aged_all now (segments_of self.old)) }
        ensures moment { self.new.moment ≡ now }
        ensures calls { self.new.calls ≡ self.old.calls + 1 }
        ensures pool { length self.new.entries ≡ length self.old.entries }
        ensures compared { ComparesFew self.old self.new vid mac }
        ensures compared_by_bits { ComparesByBits self.old self.new }
        ensures visited { VisitsFew self.old self.new now }
        ensures known { TellsAtMost 0 self.old self.new vid mac }
        ensures comparisons_stay_counted { self.old.compared ≤ self.new.compared }
        ensures visits_stay_counted { self.old.visited ≤ self.new.visited }
        ensures paid { Pays self.old self.new }
    {
        self.begin(now);
        let tree = tree_of(vid, mac);
        match learning::find_or_admit(self, tree, vid, &mac, &place, None) {
            Outcome::Held(slot) => {
                self.refresh(vid, slot, &place, None);
                Ok(())
            }
            Outcome::Entered => Ok(()),
            Outcome::Full => Err(TableFull),
        }
    }

    fn unfix(&mut self, vid: Vid, mac: Mac, now: u64) -> Result<(), NotThere>
        requires has { IsSome (segments_of self.old vid) }
        requires time { self.old.moment ≤ now }
        ensures there { let s = segment_at vid (aged_all now (segments_of self.old)) in
            IsOk result ↔ IsTrue (has_fixed mac s.entries) }
        ensures after { segments_of self.new
            ≡ adjusted vid (unfix_in mac) (aged_all now (segments_of self.old)) }
        ensures moment { self.new.moment ≡ now }
        ensures calls { self.new.calls ≡ self.old.calls + 1 }
        ensures pool { length self.new.entries ≡ length self.old.entries }
        ensures compared { ComparesFew self.old self.new vid mac }
        ensures compared_by_bits { ComparesByBits self.old self.new }
        ensures visited { self.new.visited ≡ self.old.visited }
        ensures comparisons_stay_counted { self.old.compared ≤ self.new.compared }
        ensures paid { Pays self.old self.new }
    {
        self.begin(now);
        let tree = tree_of(vid, mac);
        match self.find(tree, vid, mac) {
            Some(slot) if self.is_fixed(slot) => {
                self.release(vid, slot);
                Ok(())
            }
            _ => Err(NotThere),
        }
    }

    fn flush_place(&mut self, vid: Vid, place: Place, now: u64)
        requires has { IsSome (segments_of self.old vid) }
        requires time { self.old.moment ≤ now }
        ensures after { segments_of self.new
            ≡ adjusted vid (flush_place_in place) (aged_all now (segments_of self.old)) }
        ensures moment { self.new.moment ≡ now }
        ensures calls { self.new.calls ≡ self.old.calls + 1 }
        ensures pool { length self.new.entries ≡ length self.old.entries }
        ensures compared { self.new.compared ≡ self.old.compared }
        ensures visited { self.new.visited ≡ self.old.visited }
        ensures paid { Pays self.old self.new }
    {
        self.begin(now);
        self.drop_place(vid, place);
    }

    fn flush(&mut self, vid: Vid, now: u64)
        requires has { IsSome (segments_of self.old vid) }
        requires time { self.old.moment ≤ now }
        ensures after { segments_of self.new
            ≡ adjusted vid flush_in (aged_all now (segments_of self.old)) }
        ensures moment { self.new.moment ≡ now }
        ensures calls { self.new.calls ≡ self.old.calls + 1 }
        ensures pool { length self.new.entries ≡ length self.old.entries }
        ensures compared { self.new.compared ≡ self.old.compared }
        ensures visited { self.new.visited ≡ self.old.visited }
        ensures paid { Pays self.old self.new }
    {
        self.begin(now);
        learning::flush(self, vid);
    }

    fn set_ageing(&mut self, vid: Vid, seconds: u32, now: u64)
        requires has { IsSome (segments_of self.old vid) }
        requires time { self.old.moment ≤ now }
        requires long_enough { 10 ≤ seconds }
        requires not_too_long { seconds ≤ 1000000 }
        ensures after { segments_of self.new
            ≡ adjusted vid (set_ageing_in now seconds) (aged_all now (segments_of self.old)) }
        ensures moment { self.new.moment ≡ now }
        ensures calls { self.new.calls ≡ self.old.calls + 1 }
        ensures pool { length self.new.entries ≡ length self.old.entries }
        ensures compared { self.new.compared ≡ self.old.compared }
        ensures visited { VisitsFew self.old self.new now }
        ensures visits_stay_counted { self.old.visited ≤ self.new.visited }
        ensures paid { Pays self.old self.new }
    {
        self.begin(now);
        learning::sweep(self, vid);
        self.set_seconds(vid, seconds);
    }

    fn live(&mut self, vid: Vid, now: u64) -> u32
        requires has { IsSome (segments_of self.old vid) }
        requires time { self.old.moment ≤ now }
        ensures count { let s = segment_at vid (aged_all now (segments_of self.old)) in
            result ≡ len s.entries }
        ensures after { segments_of self.new ≡ aged_all now (segments_of self.old) }
        ensures moment { self.new.moment ≡ now }
        ensures calls { self.new.calls ≡ self.old.calls + 1 }
        ensures pool { length self.new.entries ≡ length self.old.entries }
        ensures compared { self.new.compared ≡ self.old.compared }
        ensures visited { VisitsFew self.old self.new now }
        ensures visits_stay_counted { self.old.visited ≤ self.new.visited }
        ensures paid { Pays self.old self.new }
    {
        self.begin(now);
        learning::sweep(self, vid);
        self.kept(vid)
    }

    ghost use Rattle.shared_tables.specs.Segments as own;

    ghost settled = { own.settled };
}
