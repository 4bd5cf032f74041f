//! Entries that come to their segment, entries that are renewed, and entries that go.
//!
//! A refreshed entry stays in its slot and in its tree; it leaves its line and comes behind the last of the line that it then
//! belongs to. The share of its segment and the neighbours' links are changed in place, 60 instructions fewer than by copies.
//! That all still holds follows from what is proved of entries that go and come. An entry that is seen again where it stands
//! has its moment written alone.
ghost use Rattle.std.specs.Prelude.{◌≡◌, ℕ, ◌<◌, Some, None, Option, IfSome, IsSome, vec_len, is_none, false, slice_set};
ghost use Rattle.shared_tables.specs.Pool.{Pool, tree_in, links_at, entry_at, is_fixed_in, renewed, place_in};
ghost use Rattle.shared_tables.specs.TreeColumns.{HasSizes, MayGo, Uproots};
ghost use Rattle.shared_tables.specs.LinkSteps.{IsHeld, HoldsAny, dropped, moved, pushed_back};
ghost use Rattle.shared_tables.specs.SlotsOfSegments.{share_at, share_moved, CountsSome, CountsMore, HasEnds, HasEndsLeft, share_without};
ghost use Rattle.shared_tables.specs.SlotsOfSegments.{shares_without, shares_moved, shares_with, last_left, last_in};

use crate::links::SlotId;
use crate::share::{self, Share};
use crate::slots::Slots;
use crate::threads;
use crate::trees::Trees;
use filter_db::Place;
use wire::ether::Vid;

/// Gives an entry of a segment another place and another last moment. It goes to the end of its line: of the list of
/// the fixed entries where it is fixed now, of the age queue otherwise.
pub fn renew_entry(
    slots: &mut Slots,
    shares: &mut Vec<Option<Share>>,
    vid: Vid,
    slot: SlotId,
    place: &Place,
    last: Option<u64>,
)
    requires held { IsHeld slots.old.entries slot }
    requires previous { HoldsAny slots.old.entries (links_at slots.old.lines slot).previous }
    requires next { HoldsAny slots.old.entries (links_at slots.old.lines slot).next }
    requires shares { vec_len shares.old ≡ 4096 }
    requires there { IsSome (share_at shares.old.items vid) }
    requires last { let e = entry_at slots.old.entries slot in
        HoldsAny (slice_set slots.old.entries slot (renewed e place.now last))
        (last_left (share_at shares.old.items vid) (is_fixed_in e) (is_none last) (links_at slots.old.lines slot)) }
    requires ends { let e = entry_at slots.old.entries slot in
        HasEndsLeft (share_at shares.old.items vid) (is_fixed_in e) (is_none last) (links_at slots.old.lines slot) }
    ensures pool { let was = is_fixed_in (entry_at slots.old.entries slot) in
        slots.new ≡ moved slots.old slot place.now last
        (last_left (share_at shares.old.items vid) was (is_none last) (links_at slots.old.lines slot)) }
    ensures shares { let was = is_fixed_in (entry_at slots.old.entries slot) in
        shares.new.items ≡ shares_moved shares.old.items vid was (is_none last) (links_at slots.old.lines slot) slot }
{
    let Some(share) = &mut shares[usize::from(vid.get())] else {
        unreachable!();
    };
    renew_in(slots, share, slot, place, last);
}

/// The same in the segment's share.
fn renew_in(slots: &mut Slots, share: &mut Share, slot: SlotId, place: &Place, last: Option<u64>)
    requires held { IsHeld slots.old.entries slot }
    requires previous { HoldsAny slots.old.entries (links_at slots.old.lines slot).previous }
    requires next { HoldsAny slots.old.entries (links_at slots.old.lines slot).next }
    requires last { let e = entry_at slots.old.entries slot in
        HoldsAny (slice_set slots.old.entries slot (renewed e place.now last))
        (last_left (Some share.old) (is_fixed_in e) (is_none last) (links_at slots.old.lines slot)) }
    requires ends { let e = entry_at slots.old.entries slot in
        HasEndsLeft (Some share.old) (is_fixed_in e) (is_none last) (links_at slots.old.lines slot) }
    ensures pool { let was = is_fixed_in (entry_at slots.old.entries slot) in
        slots.new ≡ moved slots.old slot place.now last (last_left (Some share.old) was (is_none last) (links_at slots.old.lines slot)) }
    ensures share { let was = is_fixed_in (entry_at slots.old.entries slot) in
        share.new ≡ share_moved was (is_none last) (links_at slots.old.lines slot) slot share.old }
{
    let was_fixed = slots.is_fixed(slot);
    share::leave_line(slots, share, was_fixed, slot);
    slots.renew(slot, place, last);
    share::join_line(slots, share, last.is_none(), slot);
}

/// Gives a learned entry of a segment another last moment, at its place. It goes to the end of the age queue.
#[inline(always)]
pub fn see_entry(
    slots: &mut Slots,
    shares: &mut Vec<Option<Share>>,
    vid: Vid,
    slot: SlotId,
    last: u64,
)
    requires held { IsHeld slots.old.entries slot }
    requires learned { is_fixed_in (entry_at slots.old.entries slot) ≡ false }
    requires previous { HoldsAny slots.old.entries (links_at slots.old.lines slot).previous }
    requires next { HoldsAny slots.old.entries (links_at slots.old.lines slot).next }
    requires shares { vec_len shares.old ≡ 4096 }
    requires there { IsSome (share_at shares.old.items vid) }
    requires last { let e = entry_at slots.old.entries slot in
        let behind = last_left (share_at shares.old.items vid) false false (links_at slots.old.lines slot) in
        HoldsAny (slice_set slots.old.entries slot (renewed e (place_in e) (Some last))) behind }
    requires ends { HasEndsLeft (share_at shares.old.items vid) false false (links_at slots.old.lines slot) }
    ensures pool { let e = entry_at slots.old.entries slot in
        let behind = last_left (share_at shares.old.items vid) false false (links_at slots.old.lines slot) in
        slots.new ≡ moved slots.old slot (place_in e) (Some last) behind }
    ensures shares { shares.new.items ≡ shares_moved shares.old.items vid false false (links_at slots.old.lines slot) slot }
{
    let Some(share) = &mut shares[usize::from(vid.get())] else {
        unreachable!();
    };
    see_in(slots, share, slot, last);
}

/// The same in the segment's share.
#[inline(always)]
fn see_in(slots: &mut Slots, share: &mut Share, slot: SlotId, last: u64)
    requires held { IsHeld slots.old.entries slot }
    requires learned { is_fixed_in (entry_at slots.old.entries slot) ≡ false }
    requires previous { HoldsAny slots.old.entries (links_at slots.old.lines slot).previous }
    requires next { HoldsAny slots.old.entries (links_at slots.old.lines slot).next }
    requires last { let e = entry_at slots.old.entries slot in
        let behind = last_left (Some share.old) false false (links_at slots.old.lines slot) in
        HoldsAny (slice_set slots.old.entries slot (renewed e (place_in e) (Some last))) behind }
    requires ends { HasEndsLeft (Some share.old) false false (links_at slots.old.lines slot) }
    ensures pool { let e = entry_at slots.old.entries slot in
        let behind = last_left (Some share.old) false false (links_at slots.old.lines slot) in
        slots.new ≡ moved slots.old slot (place_in e) (Some last) behind }
    ensures share { share.new ≡ share_moved false false (links_at slots.old.lines slot) slot share.old }
{
    threads::leave(slots, &mut share.queue, slot);
    slots.see(slot, last);
    threads::push_back(slots, &mut share.queue, slot);
}

/// Puts the slot of a new entry at the end of a line of its segment, which counts it.
pub fn join_share(
    slots: &mut Slots,
    shares: &mut Vec<Option<Share>>,
    vid: Vid,
    fixed: bool,
    slot: SlotId,
)
    requires held { IsHeld slots.old.entries slot }
    requires shares { vec_len shares.old ≡ 4096 }
    requires room { CountsMore (share_at shares.old.items vid) }
    requires last { HoldsAny slots.old.entries (last_in (share_at shares.old.items vid) fixed) }
    requires ends { HasEnds (share_at shares.old.items vid) fixed }
    ensures pool { let behind = last_in (share_at shares.old.items vid) fixed in
        slots.new ≡ record slots.old { lines = pushed_back slots.old.lines behind slot } }
    ensures shares { shares.new.items ≡ shares_with shares.old.items vid fixed slot }
{
    let Some(share) = &mut shares[usize::from(vid.get())] else {
        unreachable!();
    };
    prove!(share.count < share.limit);
    let count = share.count + 1;
    share::join_line(slots, share, fixed, slot);
    share.count = count;
}

/// Takes an entry of a segment out of its tree and off its line, and frees its slot.
pub fn drop_entry(
    slots: &mut Slots,
    trees: &mut Trees,
    shares: &mut Vec<Option<Share>>,
    vid: Vid,
    slot: SlotId,
)
    requires held { IsHeld slots.old.entries slot }
    requires line_previous { HoldsAny slots.old.entries (links_at slots.old.lines slot).previous }
    requires line_next { HoldsAny slots.old.entries (links_at slots.old.lines slot).next }
    requires sizes { HasSizes trees.old }
    requires may_go { MayGo trees.old (tree_in (entry_at slots.old.entries slot)) slot }
    requires shares { vec_len shares.old ≡ 4096 }
    requires counted { CountsSome (share_at shares.old.items vid) }
    ensures pool { slots.new ≡ dropped slots.old slot }
    ensures trees { Uproots trees.old trees.new (tree_in (entry_at slots.old.entries slot)) slot }
    ensures shares { let e = entry_at slots.old.entries slot in
        shares.new.items ≡ shares_without shares.old.items vid (is_fixed_in e) (links_at slots.old.lines slot) }
{
    trees.uproot(slots.tree_of(slot), slot);
    let Some(share) = &mut shares[usize::from(vid.get())] else {
        unreachable!();
    };
    drop_in(slots, share, slot);
}

/// Takes it off its line in the segment's share.
fn drop_in(slots: &mut Slots, share: &mut Share, slot: SlotId)
    requires held { IsHeld slots.old.entries slot }
    requires line_previous { HoldsAny slots.old.entries (links_at slots.old.lines slot).previous }
    requires line_next { HoldsAny slots.old.entries (links_at slots.old.lines slot).next }
    requires counted { 0 < share.old.count }
    ensures pool { slots.new ≡ dropped slots.old slot }
    ensures share { let e = entry_at slots.old.entries slot in
        share.new ≡ share_without (is_fixed_in e) (links_at slots.old.lines slot) share.old }
{
    let fixed = slots.is_fixed(slot);
    share::leave_line(slots, share, fixed, slot);
    share.count -= 1;
    slots.free(slot);
}
