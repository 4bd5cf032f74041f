//! What the pool keeps of each segment.
//!
//! A segment's share stands at its VID's own place, 4,096 of them, so that it is found, added and removed by one index.
ghost use Rattle.std.specs.Prelude.{◌≡◌, ℕ, ◌<◌, Some, None, Option, length, slice_set, vec_len};
ghost use Rattle.shared_tables.specs.Pool.{Pool, links_at};
ghost use Rattle.shared_tables.specs.LinkSteps.{IsHeld, HoldsAny, unlinked, pushed_back, AreEnds, ends_without, ends_with};
ghost use Rattle.shared_tables.specs.SlotsOfSegments.{line_at, with_line, share_at};
ghost use Rattle.shared_tables.specs.Opened.{new_share};

use crate::links::SlotId;
use crate::slots::Slots;
use crate::threads::{self, Ends, NO_ENDS};
use filter_db::TableRule;
use wire::ether::Vid;

/// As many as there are values of 12 bits.
pub const VIDS: usize = 4096;

/// A segment's share of the pool.
#[derive(Clone, Copy)]
pub struct Share {
    /// The most entries that it may have.
    pub limit: u32,
    /// For how many seconds a learned entry is live.
    pub ageing: u32,
    /// How many entries it has, dead ones included.
    pub count: u32,
    /// The ends of its age queue: its learned entries, in the order in which they were last seen. An entry goes behind
    /// the others when it is seen, and leaves when it is forgotten, or fixed.
    pub queue: Ends,
    /// The ends of the list of its fixed entries.
    pub fixed: Ends,
}

/// Takes a slot out of the list of the fixed entries, or out of the age queue.
pub fn leave_line(slots: &mut Slots, share: &mut Share, fixed: bool, slot: SlotId)
    requires held { IsHeld slots.old.entries slot }
    requires previous { HoldsAny slots.old.entries (links_at slots.old.lines slot).previous }
    requires next { HoldsAny slots.old.entries (links_at slots.old.lines slot).next }
    ensures share { let left = ends_without (line_at share.old fixed) (links_at slots.old.lines slot) in
        share.new ≡ with_line share.old fixed left }
    ensures pool { slots.new ≡ record slots.old { lines = unlinked slots.old.lines slot } }
{
    if fixed {
        threads::leave(slots, &mut share.fixed, slot);
    } else {
        threads::leave(slots, &mut share.queue, slot);
    }
}

/// Puts a slot at the end of the list of the fixed entries, or of the age queue.
pub fn join_line(slots: &mut Slots, share: &mut Share, fixed: bool, slot: SlotId)
    requires held { IsHeld slots.old.entries slot }
    requires last { HoldsAny slots.old.entries (line_at share.old fixed).last }
    requires ends { AreEnds (line_at share.old fixed) }
    ensures share { share.new ≡ with_line share.old fixed (ends_with (line_at share.old fixed) slot) }
    ensures pool { slots.new ≡ record slots.old { lines = pushed_back slots.old.lines (line_at share.old fixed).last slot } }
{
    if fixed {
        threads::push_back(slots, &mut share.fixed, slot);
    } else {
        threads::push_back(slots, &mut share.queue, slot);
    }
}

/// The share of a VID's segment.
pub fn share_at(shares: &[Option<Share>], vid: Vid) -> Option<Share>
    requires { length shares.now ≡ 4096 }
    ensures { result ≡ share_at shares.now vid }
{
    shares[usize::from(vid.get())]
}

/// Writes the share of a VID's segment.
pub fn set_share(shares: &mut Vec<Option<Share>>, vid: Vid, share: Share)
    requires { vec_len shares.old ≡ 4096 }
    ensures items { shares.new.items ≡ slice_set shares.old.items vid (Some share) }
    ensures in_range { vid < 4096 }
{
    shares[usize::from(vid.get())] = Some(share);
}

/// Gives a new segment its share, without entries.
pub fn open_share(shares: &mut Vec<Option<Share>>, rule: &TableRule)
    requires { vec_len shares.old ≡ 4096 }
    ensures items { shares.new.items ≡ slice_set shares.old.items rule.now.vid (Some (new_share rule.now)) }
    ensures in_range { rule.now.vid < 4096 }
{
    let share = Share {
        limit: rule.limit,
        ageing: rule.ageing,
        count: 0,
        queue: NO_ENDS,
        fixed: NO_ENDS,
    };
    set_share(shares, rule.vid, share);
}
