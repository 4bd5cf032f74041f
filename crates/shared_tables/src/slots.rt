//! The slots of a pool. An address is compared, and an entry's age is told, by this module alone.
//!
//! Slots are reserved when the pool is opened, and one is made when an entry takes it for the first time; those that were
//! freed are taken first. A slot keeps VID and address as one number and its neighbours on its line as 32-bit numbers.
//! Whether it is free, learned or fixed stands beside the moment, so no moment is taken for a sign. A pool of 65,536
//! addresses in 256 segments takes 5.2 MiB as reckoned, 2 of them for the trees. One learn of a known source and one look-up
//! took 250 instructions while trees were chains of slots, 466 before; trees take some more.
//!
//! What a slot holds is told by `differs`, `dead`, `live_row` and `put_live` alone; the fields are private to this module. So
//! the counts that the first two raise, with one for each fork on a way, are all comparisons and all looks at an age that a
//! bridge's call makes. The others tell entries to whoever lists a table, which goes along both lines of a segment or over
//! the slots once, and to `entry` and `entry_count`, and count nothing, since no bridge asks for it. Where an address isn't
//! the one of the leaf that it came to, the comparison has told the lowest bit in which the two differ: a fork on that bit
//! parts them when the entry comes.
ghost use Rattle.std.specs.Prelude.{◌≡◌, ◌+◌, ◌<◌, ◌≤◌, IfOk, IfSome, IfNone, IsSome, Some, None, length};
ghost use Rattle.std.specs.Int.{bit_at};
ghost use Rattle.filter_db.specs.Place.{same_place};
ghost use Rattle.shared_tables.specs.Bucket.{vid_in, mac_in};
ghost use Rattle.shared_tables.specs.Pool.{Pool, alone, entry_at, free_count, free_pool, freed, is_dead_in, is_fixed_in, links_at};
ghost use Rattle.shared_tables.specs.Pool.{IfHeld, taken, tree_in};
ghost use Rattle.shared_tables.specs.Slots.{entry_in, kind_of};
ghost use Rattle.shared_tables.specs.TreesOfSlots.{PartedAt, key_in};

use crate::bucket::{key, tree_by_key};
use crate::links::{ALONE, Link, Links, SlotId};
use filter_db::Place;
use std::alloc::{AllocError, Global};
use std::marker::Model;
use wire::ether::{Mac, Vid};
use work_count::Count;

mod changing;
mod listing;

pub use listing::put_word;

/// What stands in a slot.
#[derive(Clone, Copy)]
pub enum Kind {
    /// No entry.
    Free,
    /// An entry that was learned.
    Learned,
    /// A fixed entry.
    Fixed,
}

/// A slot. A slot that holds an entry is a leaf of its address's tree, and on one line of its segment: the
/// age queue, in the order in which the entries were last seen, or the list of the fixed entries, in the order in which
/// they were fixed. It leaves both when its entry goes. A free slot is on the free list, with the next free one behind it
/// on its line; it leaves that when an entry takes it.
#[derive(Clone, Copy)]
pub struct Slot {
    /// The VID and the address of its entry.
    key: u64,
    /// The last moment at which the address was seen there; 0 where the entry is fixed.
    last: u64,
    line: Links,
    place: Place,
    kind: Kind,
}

/// The slots of a pool. One is made when an entry takes it for the first time; those that were never taken aren't there
/// yet, and their room is reserved.
#[derive(Drop)]
pub struct Slots {
    /// Those that were made.
    slots: Vec<Slot>,
    /// How many the pool has, with those that aren't there yet.
    size: u32,
    /// The first slot of the free list: the one that was freed last.
    free: Link,
    /// How often an entry's age was told.
    visited: Count,
}

impl Model for Slots {
    ghost use Rattle.shared_tables.specs.Pool.{Pool};

    ghost Value = { Pool };

    ghost use Rattle.shared_tables.specs.Slots.{pool_of, IsStocked};

    ghost view = { pool_of };

    ghost invariant = { IsStocked };
}

/// The kind of an entry that was last seen at this moment.
fn kind_of(last: Option<u64>) -> Kind
    ensures { result ≡ kind_of last }
{
    match last {
        Some(_) => Kind::Learned,
        None => Kind::Fixed,
    }
}

/// A free slot, with the next one behind it.
fn vacant(next: Link) -> Slot
    ensures entry { entry_in result ≡ None }
    ensures next { result.line.next ≡ next }
{
    Slot {
        key: 0,
        last: 0,
        line: Links { next, ..ALONE },
        place: Place::Local(0),
        kind: Kind::Free,
    }
}

/// Whether its entry is dead, under an ageing in nanoseconds.
fn is_dead(slot: &Slot, ageing: u64, now: u64) -> bool
    ensures { result ≡ is_dead_in (entry_in slot.now) ageing now }
{
    match slot.kind {
        Kind::Learned => now.saturating_sub(slot.last) >= ageing,
        Kind::Free | Kind::Fixed => false,
    }
}

/// Whether its entry is fixed.
fn is_fixed(slot: &Slot) -> bool
    ensures { result ≡ is_fixed_in (entry_in slot.now) }
{
    match slot.kind {
        Kind::Fixed => true,
        Kind::Free | Kind::Learned => false,
    }
}

/// The key of its entry.
fn key_of(slot: &Slot) -> u64
    requires { IsSome (entry_in slot.now) }
    ensures value { result ≡ key_in (entry_in slot.now) }
    ensures held { IfHeld (entry_in slot.now) (vid_in result) (mac_in result) }
{
    slot.key
}

/// Puts an entry into it, on no line yet.
#[inline(always)]
fn fill(slot: &mut Slot, vid: Vid, mac: &Mac, place: &Place, last: Option<u64>)
    ensures entry { entry_in slot.new ≡ Some (record { vid = vid; mac = mac.now; place = place.now; last = last }) }
    ensures line { slot.new.line ≡ alone }
{
    slot.key = key(vid, *mac);
    slot.line = ALONE;
    slot.place = *place;
    slot.last = last.unwrap_or(0);
    slot.kind = kind_of(last);
}

/// A slot with an entry in it, on no line yet.
#[inline(always)]
fn filled(vid: Vid, mac: &Mac, place: &Place, last: Option<u64>) -> Slot
    ensures entry { entry_in result ≡ Some (record { vid = vid; mac = mac.now; place = place.now; last = last }) }
    ensures line { result.line ≡ alone }
{
    Slot {
        key: key(vid, *mac),
        last: last.unwrap_or(0),
        line: ALONE,
        place: *place,
        kind: kind_of(last),
    }
}

/// Its neighbours, each read by itself.
#[inline(always)]
fn links_on(slot: &Slot) -> Links
    ensures { result ≡ slot.now.line }
{
    Links {
        previous: slot.line.previous,
        next: slot.line.next,
    }
}

/// The lowest bit in which two keys differ; none where they are the same.
#[inline(always)]
fn parting(one: u64, other: u64) -> Option<u32>
    ensures same { IfNone result (one ≡ other) }
    ensures differs { IfSome result (λ bit. (bit < 64) × (bit_at one bit + bit_at other bit ≡ 1)) }
{
    if one == other {
        None
    } else {
        Some((one ^ other).trailing_zeros())
    }
}

impl Slots {
    /// As many free slots as this, at most 1,048,576: room for them. `AllocError`: the growth was refused.
    pub fn new(alloc: Global, size: u32) -> Result<Slots, AllocError>
        requires { size ≤ 1048576 }
        ensures { IfOk result (λ p. p ≡ free_pool size) }
    {
        let slots = Vec::with_capacity(alloc, size as usize)?;
        Ok(Slots {
            slots,
            size,
            free: Link::NONE,
            visited: Count::zero(),
        })
    }

    /// How many slots there are.
    pub fn size(&self) -> u32
        ensures { result ≡ length self.now.entries }
    {
        self.size
    }

    /// The lowest bit in which the key of what a slot holds and another differ; none where they are the same, and it holds
    /// that address. It is the only way to compare an address with a slot's, and counts that.
    #[inline(always)]
    pub fn differs(&self, slot: SlotId, key: u64, compared: &mut Count) -> Option<u32>
        requires in_pool { slot < length self.now.entries }
        requires held { IsSome (entry_at self.now.entries slot) }
        ensures same { IfNone result (IfHeld (entry_at self.now.entries slot) (vid_in key) (mac_in key)) }
        ensures bit { IfSome result (PartedAt (entry_at self.now.entries slot) key) }
        ensures counted { compared.new.total ≡ compared.old.total + 1 }
    {
        compared.tick();
        parting(key_of(&self.slots[slot.number as usize]), key)
    }

    /// Whether a slot's entry is dead, under an ageing in nanoseconds. It is the only way to tell an entry's age but
    /// for what lists entries or tells one to whoever is lent the tables shared.
    pub fn dead(&mut self, slot: SlotId, ageing: u64, now: u64) -> bool
        requires in_pool { slot < length self.old.entries }
        requires held { IsSome (entry_at self.old.entries slot) }
        ensures dead { result ≡ is_dead_in (entry_at self.old.entries slot) ageing now }
        ensures pool { self.new ≡ record self.old { visited = self.old.visited + 1 } }
    {
        self.visited.tick();
        is_dead(&self.slots[slot.number as usize], ageing, now)
    }

    /// Whether a slot holds a fixed entry.
    pub fn is_fixed(&self, slot: SlotId) -> bool
        requires in_pool { slot < length self.now.entries }
        requires held { IsSome (entry_at self.now.entries slot) }
        ensures { result ≡ is_fixed_in (entry_at self.now.entries slot) }
    {
        is_fixed(&self.slots[slot.number as usize])
    }

    /// The slot's neighbours on its line.
    #[inline(always)]
    pub fn links(&self, slot: SlotId) -> Links
        requires in_pool { slot < length self.now.entries }
        requires held { IsSome (entry_at self.now.entries slot) }
        ensures { result ≡ links_at self.now.lines slot }
    {
        links_on(&self.slots[slot.number as usize])
    }

    /// The tree of the address that a slot holds, below 262,144.
    #[inline(always)]
    pub fn tree_of(&self, slot: SlotId) -> usize
        requires in_pool { slot < length self.now.entries }
        requires held { IsSome (entry_at self.now.entries slot) }
        ensures { result ≡ tree_in (entry_at self.now.entries slot) }
    {
        tree_by_key(key_of(&self.slots[slot.number as usize]))
    }

    /// Where the slot's entry stands.
    pub fn place(&self, slot: SlotId) -> Place
        requires in_pool { slot < length self.now.entries }
        requires held { IsSome (entry_at self.now.entries slot) }
        ensures { IfSome (entry_at self.now.entries slot) (λ e. result ≡ e.place) }
    {
        self.slots[slot.number as usize].place
    }

    /// Whether the slot's entry stands at a place.
    #[inline(always)]
    pub fn stands_at(&self, slot: SlotId, place: &Place) -> bool
        requires in_pool { slot < length self.now.entries }
        requires held { IsSome (entry_at self.now.entries slot) }
        ensures { IfSome (entry_at self.now.entries slot) (λ e. result ≡ same_place e.place place.now) }
    {
        self.slots[slot.number as usize].place == *place
    }

    /// Takes a free slot for an entry: one that was freed, or else one that wasn't taken yet.
    pub fn take(&mut self, vid: Vid, mac: &Mac, place: &Place, last: Option<u64>) -> SlotId
        requires { 0 < free_count self.old.entries }
        ensures free { (result < length self.old.entries) × (entry_at self.old.entries result ≡ None) }
        ensures pool { self.new ≡ taken self.old result (record { vid = vid; mac = mac.now; place = place.now; last = last }) }
    {
        match self.free.slot() {
            Some(slot) => {
                self.free = self.slots[slot.number as usize].line.next;
                fill(&mut self.slots[slot.number as usize], vid, mac, place, last);
                slot
            }
            None => {
                let slot = SlotId {
                    number: self.slots.len() as u32,
                };
                self.slots.push_reserved(filled(vid, mac, place, last));
                slot
            }
        }
    }

    /// Frees a slot.
    pub fn free(&mut self, slot: SlotId)
        requires in_pool { slot < length self.old.entries }
        requires held { IsSome (entry_at self.old.entries slot) }
        ensures { self.new ≡ freed self.old slot }
    {
        self.slots[slot.number as usize] = vacant(self.free);
        self.free = Link::to(slot);
    }
}
