//! The tables of all segments in one pool of slots.
ghost use Rattle.std.specs.Prelude.{◌≡◌, ℕ, ◌+◌, ◌<◌, ◌≤◌, ◌↔◌, IsTrue, IfOk, IfSome, IfNone, IsSome, Some, None, Option, List};
ghost use Rattle.std.specs.Prelude.{All, false, length, replicate, slice_set};
ghost use Rattle.std.specs.List.{sum_by};
ghost use Rattle.filter_db.specs.declared.tables.TableRule.{TableRule};
ghost use Rattle.filter_db.specs.Place.{same_place};
ghost use Rattle.filter_db.specs.Segment.{IsRule, AreForDistinctVids, new_segments};
ghost use Rattle.shared_tables.specs.Pool.{entry_at, IfHeld, is_dead_in, is_fixed_in, place_in};
ghost use Rattle.shared_tables.specs.LinkSteps.{IsHeld};
ghost use Rattle.shared_tables.specs.Shared.{rule_at, Lacks, kept_count, bucket_count, IsNow, HasRoom, Refreshes, IsOf};
ghost use Rattle.shared_tables.specs.Shared.{span_of, NoneAges, IsOldest, IsOrderly, live_place, with_ageing, DropsPlace};
ghost use Rattle.shared_tables.specs.Shared.{stands_at};
ghost use Rattle.shared_tables.specs.Segments.{segments_of};
ghost use Rattle.shared_tables.specs.Admission.{ComesTo};
ghost use Rattle.shared_tables.specs.Bucket.{bucket_of, tree_of};
ghost use Rattle.shared_tables.specs.Work.{IsPaid, ComparesByBits};

use crate::admission::{Newcomer, Outcome, admit_in};
use crate::entries::{drop_entry, renew_entry, see_entry};
use crate::links::SlotId;
use crate::look_up::{Sought, find_in};
use crate::opening::open_shares;
use crate::share::{self, Share};
use crate::slots::Slots;
use crate::trees::Trees;
use filter_db::{Place, TableRule};
use std::alloc::{AllocError, Global};
use std::marker::Model;
use wire::ether::{Mac, Vid};
use work_count::Count;

mod known;
mod listing;
mod standing;

/// The tables of all segments, in one pool of slots. No call but `open` and `entries` takes memory.
#[derive(Drop)]
pub struct SharedTables {
    slots: Slots,
    /// The trees, whose leaves are the slots that hold entries.
    trees: Trees,
    /// At the place of each VID the share of its segment.
    shares: Vec<Option<Share>>,
    moment: u64,
    /// The calls that may change something, refused ones too.
    calls: Count,
    /// How often an address was compared with a slot's, or sent on by a fork.
    compared: Count,
}

impl Model for SharedTables {
    ghost use Rattle.shared_tables.specs.Shared.{Shared};

    ghost Value = { Shared };

    ghost use Rattle.shared_tables.specs.SharedFromFields.{shared_of, IsSoundInside};

    ghost view = { shared_of };

    ghost invariant = { IsSoundInside };
}

impl SharedTables {
    /// Empty tables, one for each rule, over a pool of this many slots, at moment 0. The rules are for distinct VIDs,
    /// with limits of 1 or more and ageings of 10 to 1,000,000 seconds; the limits together are no more than the
    /// slots, and those at most 1,048,576. `AllocError`: a growth was refused.
    pub fn open(alloc: Global, rules: &[TableRule], pool: u32) -> Result<SharedTables, AllocError>
        requires distinct { AreForDistinctVids rules.now }
        requires in_range { All IsRule rules.now }
        requires room { sum_by (λ (rule : TableRule). rule.limit) rules.now ≤ pool }
        requires size { pool ≤ 1048576 }
        ensures segments { IfOk result (λ t. segments_of t ≡ new_segments rules.now) }
        ensures moment { IfOk result (λ t. t.moment ≡ 0) }
        ensures slots { IfOk result (λ t. t.entries ≡ replicate pool None) }
        ensures calls { IfOk result (λ t. t.calls ≡ 0) }
        ensures compared { IfOk result (λ t. t.compared ≡ 0) }
        ensures visited { IfOk result (λ t. t.visited ≡ 0) }
        ensures paid { IfOk result IsPaid }
    {
        Ok(SharedTables {
            slots: Slots::new(alloc, pool)?,
            trees: Trees::new(alloc, pool)?,
            shares: open_shares(alloc, rules)?,
            moment: 0,
            calls: Count::zero(),
            compared: Count::zero(),
        })
    }

    /// Whether a VID has a segment.
    pub(crate) fn has_share(&self, vid: Vid) -> bool
        ensures { IsTrue result ↔ IsSome (rule_at self.now.rules vid) }
    {
        share::share_at(&self.shares, vid).is_some()
    }

    /// The latest moment that a call brought.
    pub(crate) fn moment(&self) -> u64
        ensures { result ≡ self.now.moment }
    {
        self.moment
    }

    /// Counts a call that leaves the moment.
    pub(crate) fn count_call(&mut self)
        ensures after { self.new ≡ record self.old { calls = self.old.calls + 1 } }
        ensures orderly { IsOrderly self.new }
    {
        self.calls.tick();
    }

    /// Counts a call, which brings a moment.
    pub(crate) fn begin(&mut self, now: u64)
        requires { self.old.moment ≤ now }
        ensures after { self.new ≡ record self.old { calls = self.old.calls + 1; moment = now } }
        ensures orderly { IsOrderly self.new }
    {
        self.calls.tick();
        self.moment = now;
    }

    /// The slot of an address, which is in this tree.
    pub(crate) fn find(&mut self, tree: usize, vid: Vid, mac: Mac) -> Option<SlotId>
        requires tree { tree ≡ tree_of vid mac }
        requires in_range { tree < 262144 }
        ensures found { IfSome result (λ s. IfHeld (entry_at self.old.entries s) vid mac) }
        ensures held { IfSome result (IsHeld self.old.entries) }
        ensures none { IfNone result (Lacks self.old.entries vid mac) }
        ensures same { self.new ≡ record self.old { compared = self.new.compared } }
        ensures counted { self.old.compared ≤ self.new.compared }
        ensures compared { self.new.compared ≤ self.old.compared + bucket_count (bucket_of vid mac) self.old.entries }
        ensures bits { ComparesByBits self.old self.new }
    {
        match find_in(&self.slots, &self.trees, &mut self.compared, tree, vid, mac) {
            Sought::At(slot) => Some(slot),
            Sought::Missing(_) => None,
        }
    }

    /// The slot of an address, which is in this tree; where no slot holds it, an entry comes, if the segment has room or
    /// its oldest entry is dead.
    #[inline(always)]
    pub(crate) fn find_or_enter(
        &mut self,
        tree: usize,
        vid: Vid,
        mac: &Mac,
        place: &Place,
        last: Option<u64>,
    ) -> Outcome
        requires tree { tree ≡ tree_of vid mac.now }
        requires in_range { tree < 262144 }
        requires rule { IsSome (rule_at self.old.rules vid) }
        requires now { IsNow last self.old.moment }
        ensures outcome { let span = span_of (rule_at self.old.rules vid) in
            ComesTo (record self.old { compared = self.new.compared }) self.new span
            (record { vid = vid; mac = mac.now; place = place.now; last = last }) result }
        ensures counted { self.old.compared ≤ self.new.compared }
        ensures compared { self.new.compared ≤ self.old.compared + bucket_count (bucket_of vid mac.now) self.old.entries }
        ensures bits { ComparesByBits self.old self.new }
        ensures some_time { 0 < span_of (rule_at self.old.rules vid) }
    {
        match find_in(
            &self.slots,
            &self.trees,
            &mut self.compared,
            tree,
            vid,
            *mac,
        ) {
            Sought::At(slot) => Outcome::Held(slot),
            Sought::Missing(beside) => {
                let comes = admit_in(
                    &mut self.slots,
                    &mut self.trees,
                    &mut self.shares,
                    self.moment,
                    &Newcomer {
                        tree,
                        beside,
                        vid,
                        mac: *mac,
                        place: *place,
                        last,
                    },
                );
                if comes {
                    Outcome::Entered
                } else {
                    Outcome::Full
                }
            }
        }
    }

    /// Gives an entry another place and another last moment, in its slot: it keeps its place in its tree, and goes
    /// to the end of its line.
    pub(crate) fn refresh(&mut self, vid: Vid, slot: SlotId, place: &Place, last: Option<u64>)
        requires held { IsOf (entry_at self.old.entries slot) vid }
        requires rule { IsSome (rule_at self.old.rules vid) }
        requires now { IsNow last self.old.moment }
        ensures { Refreshes self.old self.new slot place.now last }
    {
        renew_entry(&mut self.slots, &mut self.shares, vid, slot, place, last);
    }

    /// Gives a learned entry the tables' moment as its last one, where it stands: it goes to the end of the age queue.
    pub(crate) fn see(&mut self, vid: Vid, slot: SlotId)
        requires held { IsOf (entry_at self.old.entries slot) vid }
        requires learned { is_fixed_in (entry_at self.old.entries slot) ≡ false }
        requires rule { IsSome (rule_at self.old.rules vid) }
        ensures { Refreshes self.old self.new slot (place_in (entry_at self.old.entries slot)) (Some self.old.moment) }
    {
        see_entry(&mut self.slots, &mut self.shares, vid, slot, self.moment);
    }

    /// Lets an entry go.
    pub(crate) fn release(&mut self, vid: Vid, slot: SlotId)
        requires held { IsOf (entry_at self.old.entries slot) vid }
        requires rule { IsSome (rule_at self.old.rules vid) }
        ensures same { self.new ≡ record self.old { entries = slice_set self.old.entries slot None } }
        ensures room { HasRoom (rule_at self.old.rules vid) (kept_count vid self.new.entries) }
        ensures alone { (mac : List ℕ) → IfHeld (entry_at self.old.entries slot) vid mac → Lacks self.new.entries vid mac }
    {
        drop_entry(
            &mut self.slots,
            &mut self.trees,
            &mut self.shares,
            vid,
            slot,
        );
    }

    /// The number of a segment's entries, dead ones included.
    pub(crate) fn kept(&self, vid: Vid) -> u32
        requires { IsSome (rule_at self.now.rules vid) }
        ensures { result ≡ kept_count vid self.now.entries }
    {
        match share::share_at(&self.shares, vid) {
            Some(share) => share.count,
            None => unreachable!(),
        }
    }

    /// The limit of a segment.
    pub(crate) fn most(&self, vid: Vid) -> u32
        requires { IsSome (rule_at self.now.rules vid) }
        ensures { IfSome (rule_at self.now.rules vid) (λ rule. result ≡ rule.limit) }
    {
        match share::share_at(&self.shares, vid) {
            Some(share) => share.limit,
            None => unreachable!(),
        }
    }

    /// The ageing of a segment, in nanoseconds; 0 where there is no segment of this VID.
    pub fn ageing(&self, vid: Vid) -> u64
        ensures { result ≡ span_of (rule_at self.now.rules vid) }
    {
        if self.has_share(vid) {
            self.span(vid)
        } else {
            0
        }
    }

    /// The ageing of a segment that is there, in nanoseconds.
    #[inline(always)]
    pub(crate) fn span(&self, vid: Vid) -> u64
        requires { IsSome (rule_at self.now.rules vid) }
        ensures { result ≡ span_of (rule_at self.now.rules vid) }
    {
        match share::share_at(&self.shares, vid) {
            Some(share) => u64::from(share.ageing) * 1_000_000_000,
            None => unreachable!(),
        }
    }

    /// Gives a segment another ageing, in seconds.
    pub(crate) fn set_seconds(&mut self, vid: Vid, seconds: u32)
        requires rule { IsSome (rule_at self.old.rules vid) }
        requires some_time { 0 < seconds }
        ensures { self.new ≡ record self.old { rules = with_ageing self.old.rules vid seconds } }
    {
        if let Some(share) = share::share_at(&self.shares, vid) {
            let other = Share {
                ageing: seconds,
                ..share
            };
            share::set_share(&mut self.shares, vid, other);
        }
    }

    /// Whether a slot's entry is dead. The ageing is in nanoseconds.
    pub(crate) fn dead(&mut self, slot: SlotId, ageing: u64) -> bool
        requires { IsHeld self.old.entries slot }
        ensures dead { result ≡ is_dead_in (entry_at self.old.entries slot) ageing self.old.moment }
        ensures same { self.new ≡ record self.old { visited = self.old.visited + 1 } }
    {
        self.slots.dead(slot, ageing, self.moment)
    }

    /// Where a slot's entry stands, if it is live. The ageing is in nanoseconds.
    pub(crate) fn place_if_live(&mut self, slot: SlotId, ageing: u64, now: u64) -> Option<Place>
        requires { IsHeld self.old.entries slot }
        ensures place { result ≡ live_place (entry_at self.old.entries slot) ageing now }
        ensures same { self.new ≡ record self.old { visited = self.old.visited + 1 } }
    {
        if self.slots.dead(slot, ageing, now) {
            return None;
        }
        Some(self.slots.place(slot))
    }

    /// Whether a slot's entry is fixed.
    pub(crate) fn is_fixed(&self, slot: SlotId) -> bool
        requires { IsHeld self.now.entries slot }
        ensures { result ≡ is_fixed_in (entry_at self.now.entries slot) }
    {
        self.slots.is_fixed(slot)
    }

    /// Whether a slot's entry stands at a place.
    #[inline(always)]
    pub(crate) fn stands_at(&self, slot: SlotId, place: &Place) -> bool
        requires { IsHeld self.now.entries slot }
        ensures { result ≡ stands_at place.now (entry_at self.now.entries slot) }
    {
        self.slots.stands_at(slot, place)
    }

    /// The entry of a segment's age queue that was seen first.
    pub(crate) fn oldest(&self, vid: Vid) -> Option<SlotId>
        requires { IsSome (rule_at self.now.rules vid) }
        ensures none { IfNone result (NoneAges self.now.entries vid) }
        ensures some { IfSome result (IsOldest self.now.entries vid) }
    {
        match share::share_at(&self.shares, vid) {
            Some(share) => share.queue.first.slot(),
            None => unreachable!(),
        }
    }

    /// Lets go what was learned at a place: it goes along the segment's age queue.
    pub(crate) fn drop_place(&mut self, vid: Vid, place: Place)
        requires { IsSome (rule_at self.old.rules vid) }
        ensures { DropsPlace self.old self.new vid place }
    {
        let Some(share) = share::share_at(&self.shares, vid) else {
            return;
        };
        let mut cursor = share.queue.first;
        for _entry in 0..share.count {
            if let Some(slot) = cursor.slot() {
                cursor = self.slots.links(slot).next;
                if self.slots.place(slot).is_same(place) {
                    drop_entry(
                        &mut self.slots,
                        &mut self.trees,
                        &mut self.shares,
                        vid,
                        slot,
                    );
                }
            }
        }
    }
}
