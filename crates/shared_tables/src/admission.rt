//! An entry that comes to its segment: where there is room, or in place of the oldest one, which is dead.
//!
//! Where a segment has room, an entry comes first, so that the leaf that its look-up found is still there, and lets the dead
//! entries go behind it, from the front of their queue. Where it has none, the oldest dead one goes first, or gives its own
//! leaf where it is the one found.
ghost use Rattle.std.specs.Prelude.{◌≡◌, ◌↔◌, ◌<◌, ℕ, IsTrue, IsSome, Some, length};
ghost use Rattle.shared_tables.specs.Pool.{entry_at};
ghost use Rattle.shared_tables.specs.Shared.{rule_at, kept_count, HasRoom, Enters, IsOf};
ghost use Rattle.shared_tables.specs.WholePool.{IsWhole, seen, Replaces};
ghost use Rattle.shared_tables.specs.Admission.{held_of, MayCome, ComesOrNot, MayAttach, Attaches};
ghost use Rattle.shared_tables.specs.TreesOfSlots.{leaf_of};
ghost use Rattle.shared_tables.specs.TreeColumns.{HasSizes};

use crate::bucket::key;
use crate::entries::{drop_entry, join_share, renew_entry};
use crate::links::SlotId;
use crate::look_up::{Beside, side};
use crate::share::{self, Share};
use crate::slots::Slots;
use crate::trees::Trees;
use filter_db::Place;
use wire::ether::{Mac, Vid};

/// What came of an address.
#[derive(Clone, Copy)]
pub enum Outcome {
    /// A slot holds it already.
    Held(SlotId),
    /// An entry has come.
    Entered,
    /// The segment has no room.
    Full,
}

/// An entry that no slot holds yet.
#[derive(Clone, Copy)]
pub struct Newcomer {
    /// The number of its address's tree.
    pub tree: usize,
    /// Where it belongs in the tree; none where that has no leaves.
    pub beside: Option<Beside>,
    pub vid: Vid,
    pub mac: Mac,
    pub place: Place,
    /// The moment at which it was seen; none where it is fixed.
    pub last: Option<u64>,
}

/// Makes an entry of a newcomer, if its segment has room, or the oldest of its learned entries is dead, which goes then.
#[inline(always)]
pub fn admit_in(
    slots: &mut Slots,
    trees: &mut Trees,
    shares: &mut Vec<Option<Share>>,
    moment: u64,
    newcomer: &Newcomer,
) -> bool
    requires whole { IsWhole slots.old trees.old shares.old.items moment }
    requires rule { IsSome (rule_at (seen slots.old shares.old.items moment 0 0).rules newcomer.now.vid) }
    requires may_come { MayCome slots.old.entries trees.old moment newcomer.now }
    ensures whole { IsWhole slots.new trees.new shares.new.items moment }
    ensures comes { (calls compared : ℕ) → ComesOrNot (seen slots.old shares.old.items moment calls compared)
        (seen slots.new shares.new.items moment calls compared) newcomer.now result }
{
    let Some(share) = share::share_at(shares, newcomer.vid) else {
        unreachable!();
    };
    if share.count < share.limit {
        enter_in(slots, trees, shares, moment, newcomer);
        return true;
    }
    let Some(oldest) = share.queue.first.slot() else {
        return false;
    };
    if !slots.dead(oldest, u64::from(share.ageing) * 1_000_000_000, moment) {
        return false;
    }
    // a copy of its own: so a newcomer that comes where there is room never stands in memory
    let other = *newcomer;
    replace_in(slots, trees, shares, moment, oldest, &other);
    true
}

/// Lets an entry of the segment go, and makes one of a newcomer. Where the newcomer belongs beside the entry that goes, it
/// takes its place in the tree.
fn replace_in(
    slots: &mut Slots,
    trees: &mut Trees,
    shares: &mut Vec<Option<Share>>,
    moment: u64,
    slot: SlotId,
    newcomer: &Newcomer,
)
    requires whole { IsWhole slots.old trees.old shares.old.items moment }
    requires rule { IsSome (rule_at (seen slots.old shares.old.items moment 0 0).rules newcomer.now.vid) }
    requires held { IsOf (entry_at slots.old.entries slot) newcomer.now.vid }
    requires may_come { MayCome slots.old.entries trees.old moment newcomer.now }
    ensures whole { IsWhole slots.new trees.new shares.new.items moment }
    ensures replaces { (calls compared : ℕ) → Replaces (seen slots.old shares.old.items moment calls compared)
        (seen slots.new shares.new.items moment calls compared) slot (held_of newcomer.now) }
{
    if is_leaf(newcomer.beside, slot) {
        slots.readdress(slot, newcomer.vid, newcomer.mac);
        renew_entry(
            slots,
            shares,
            newcomer.vid,
            slot,
            &newcomer.place,
            newcomer.last,
        );
    } else {
        drop_entry(slots, trees, shares, newcomer.vid, slot);
        enter_in(slots, trees, shares, moment, newcomer);
    }
}

/// Whether the leaf is this slot.
fn is_leaf(beside: Option<Beside>, slot: SlotId) -> bool
    ensures { IsTrue result ↔ (leaf_of beside ≡ Some slot) }
{
    match beside {
        Some(beside) => beside.leaf.number == slot.number,
        None => false,
    }
}

/// Makes an entry of a newcomer: a leaf of its tree, and last on its line.
#[inline(always)]
fn enter_in(
    slots: &mut Slots,
    trees: &mut Trees,
    shares: &mut Vec<Option<Share>>,
    moment: u64,
    newcomer: &Newcomer,
)
    requires whole { IsWhole slots.old trees.old shares.old.items moment }
    requires room { HasRoom (rule_at (seen slots.old shares.old.items moment 0 0).rules newcomer.now.vid)
        (kept_count newcomer.now.vid slots.old.entries) }
    requires may_come { MayCome slots.old.entries trees.old moment newcomer.now }
    ensures whole { IsWhole slots.new trees.new shares.new.items moment }
    ensures enters { (calls compared : ℕ) → Enters (seen slots.old shares.old.items moment calls compared)
        (seen slots.new shares.new.items moment calls compared) (held_of newcomer.now) }
{
    let Newcomer {
        vid,
        mac,
        place,
        last,
        ..
    } = *newcomer;
    let slot = slots.take(vid, &mac, &place, last);
    attach(trees, newcomer, slot);
    join_share(slots, shares, vid, last.is_none(), slot);
}

/// Puts the slot of a newcomer into its tree, beside its leaf.
#[inline(always)]
fn attach(trees: &mut Trees, newcomer: &Newcomer, slot: SlotId)
    requires sizes { HasSizes trees.old }
    requires tree { newcomer.now.tree < 262144 }
    requires slot { slot < length trees.old.leaves }
    requires beside { MayAttach trees.old newcomer.now.tree newcomer.now.beside slot }
    ensures { Attaches trees.old trees.new newcomer.now newcomer.now.beside slot }
{
    match newcomer.beside {
        None => trees.plant(newcomer.tree, slot),
        Some(Beside { leaf, bit }) => {
            let side = side(key(newcomer.vid, newcomer.mac), bit);
            trees.graft(newcomer.tree, leaf, slot, bit, side);
        }
    }
}
