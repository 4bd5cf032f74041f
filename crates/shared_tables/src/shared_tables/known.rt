//! What a segment has of an address, and how many live entries it has, told without a list of them.
ghost use Rattle.std.specs.Prelude.{◌≡◌, ◌≤◌, ℕ, IfSome, IfNone};
ghost use Rattle.std.specs.Option.{option_map};
ghost use Rattle.std.specs.FinMap.{get, len};
ghost use Rattle.filter_db.specs.Segment.{aged_all, segment_at};
ghost use Rattle.filter_db.specs.Table.{nanoseconds};
ghost use Rattle.shared_tables.specs.Listing.{CountsLive, live_entry};
ghost use Rattle.shared_tables.specs.Pool.{entry_at, IfHeld};
ghost use Rattle.shared_tables.specs.Segments.{segments_of};
ghost use Rattle.shared_tables.specs.Shared.{Lacks};
ghost use Rattle.shared_tables.specs.SlotsOfSegments.{IsLines};
ghost use Rattle.shared_tables.specs.LinkSteps.{IsHeld};

use crate::bucket::tree_of;
use crate::links::SlotId;
use crate::look_up::{Sought, find_in};
use crate::share::{Share, share_at};
use crate::shared_tables::SharedTables;
use crate::slots::Slots;
use filter_db::Entry;
use wire::ether::{Mac, Vid};
use work_count::Count;

impl SharedTables {
    /// The live entry that a segment has of an address at a moment; none where the VID has no segment. The moment isn't
    /// before the tables' own. It goes down the tree of the address once, takes no memory, and counts nothing: no bridge
    /// asks for it.
    pub fn entry(&self, vid: Vid, mac: Mac, now: u64) -> Option<Entry>
        requires { self.now.moment ≤ now }
        ensures { let s = segment_at vid (aged_all now (segments_of self.now)) in
            result ≡ get s.entries mac }
    {
        let share = share_at(&self.shares, vid)?;
        let slot = self.slot_of(vid, mac)?;
        self.live_entry(slot, vid, span_of(&share), now)
    }

    /// How many live entries a segment has at a moment; 0 where the VID has no segment. The moment isn't before the
    /// tables' own. It passes the dead at the front of the segment's age queue, takes no memory, and counts nothing: no
    /// bridge asks for it.
    pub fn entry_count(&self, vid: Vid, now: u64) -> usize
        requires { self.now.moment ≤ now }
        ensures { let s = segment_at vid (aged_all now (segments_of self.now)) in
            result ≡ len s.entries }
    {
        match share_at(&self.shares, vid) {
            Some(share) => live_count(&self.slots, vid, &share, now) as usize,
            None => 0,
        }
    }

    /// The slot that holds an address of a segment.
    fn slot_of(&self, vid: Vid, mac: Mac) -> Option<SlotId>
        ensures found { IfSome result (λ s. IfHeld (entry_at self.now.entries s) vid mac) }
        ensures held { IfSome result (IsHeld self.now.entries) }
        ensures none { IfNone result (Lacks self.now.entries vid mac) }
    {
        let mut steps = Count::zero();
        match find_in(
            &self.slots,
            &self.trees,
            &mut steps,
            tree_of(vid, mac),
            vid,
            mac,
        ) {
            Sought::At(slot) => Some(slot),
            Sought::Missing(_) => None,
        }
    }

    /// A slot's entry, if it is of the segment, and live under an ageing in nanoseconds.
    fn live_entry(&self, slot: SlotId, vid: Vid, ageing: u64, now: u64) -> Option<Entry>
        requires { IsHeld self.now.entries slot }
        ensures { result ≡ live_entry vid ageing now (entry_at self.now.entries slot) }
    {
        let (_, entry) = self.slots.live_row(slot, vid, ageing, now)?;
        Some(entry)
    }
}

/// The ageing of a segment, in nanoseconds.
pub(super) fn span_of(share: &Share) -> u64
    ensures { result ≡ nanoseconds share.now.ageing }
{
    u64::from(share.ageing) * 1_000_000_000
}

/// How many entries of a segment are live: all but the dead ones at the front of its age queue.
fn live_count(slots: &Slots, vid: Vid, share: &Share, now: u64) -> u32
    requires { (moment : ℕ) × IsLines slots.now.entries slots.now.lines vid share.now moment }
    ensures { CountsLive slots.now.entries vid (nanoseconds share.now.ageing) now result }
{
    let ageing = span_of(share);
    let mut cursor = share.queue.first;
    let mut count = share.count;
    for _entry in 0..share.count {
        let Some(slot) = cursor.slot() else {
            return count;
        };
        if slots.live_row(slot, vid, ageing, now).is_some() {
            return count;
        }
        count -= 1;
        cursor = slots.links(slot).next;
    }
    count
}
