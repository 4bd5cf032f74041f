//! What changes in a slot that holds an entry: its address, its place and moment, its neighbours.
ghost use Rattle.std.specs.Prelude.{◌≡◌, ◌<◌, IsSome, Some, false, length, slice_set};
ghost use Rattle.shared_tables.specs.Pool.{entry_at, is_fixed_in, links_with, place_in, readdressed, renewed};
ghost use Rattle.shared_tables.specs.LinkSteps.{link_set};
ghost use Rattle.shared_tables.specs.Slots.{entry_in};

use super::{Slot, Slots, kind_of};
use crate::bucket::key;
use crate::links::{Link, Links, Side, SlotId};
use filter_db::Place;
use wire::ether::{Mac, Vid};

/// Gives its entry another address.
fn readdress(slot: &mut Slot, vid: Vid, mac: Mac)
    requires { IsSome (entry_in slot.old) }
    ensures entry { entry_in slot.new ≡ readdressed (entry_in slot.old) vid mac }
    ensures line { slot.new.line ≡ slot.old.line }
{
    slot.key = key(vid, mac);
}

/// Gives its entry another place and another last moment.
fn renew(slot: &mut Slot, place: &Place, last: Option<u64>)
    requires { IsSome (entry_in slot.old) }
    ensures entry { entry_in slot.new ≡ renewed (entry_in slot.old) place.now last }
    ensures line { slot.new.line ≡ slot.old.line }
{
    slot.place = *place;
    slot.last = last.unwrap_or(0);
    slot.kind = kind_of(last);
}

/// Gives its entry, which was learned, another last moment.
fn see(slot: &mut Slot, last: u64)
    requires held { IsSome (entry_in slot.old) }
    requires learned { is_fixed_in (entry_in slot.old) ≡ false }
    ensures entry { entry_in slot.new ≡ renewed (entry_in slot.old) (place_in (entry_in slot.old)) (Some last) }
    ensures line { slot.new.line ≡ slot.old.line }
{
    slot.last = last;
}

/// Gives it other neighbours, each written by itself.
#[inline(always)]
fn set_links(slot: &mut Slot, links: Links)
    ensures { slot.new ≡ record slot.old { line = links } }
{
    slot.line.previous = links.previous;
    slot.line.next = links.next;
}

/// Gives it another neighbour on one side.
#[inline(always)]
fn set_link(slot: &mut Slot, side: Side, link: Link)
    ensures { slot.new ≡ record slot.old { line = links_with side slot.old.line link } }
{
    match side {
        Side::Previous => slot.line.previous = link,
        Side::Next => slot.line.next = link,
    }
}

impl Slots {
    /// Gives the slot's entry another address.
    pub fn readdress(&mut self, slot: SlotId, vid: Vid, mac: Mac)
        requires in_pool { slot < length self.old.entries }
        requires held { IsSome (entry_at self.old.entries slot) }
        ensures { self.new
            ≡ record self.old { entries = slice_set self.old.entries slot (readdressed (entry_at self.old.entries slot) vid mac) } }
    {
        readdress(&mut self.slots[slot.number as usize], vid, mac);
    }

    /// Gives the slot's entry another place and another last moment.
    pub fn renew(&mut self, slot: SlotId, place: &Place, last: Option<u64>)
        requires in_pool { slot < length self.old.entries }
        requires held { IsSome (entry_at self.old.entries slot) }
        ensures { self.new
            ≡ record self.old { entries = slice_set self.old.entries slot (renewed (entry_at self.old.entries slot) place.now last) } }
    {
        renew(&mut self.slots[slot.number as usize], place, last);
    }

    /// Gives the slot's entry, which was learned, another last moment.
    #[inline(always)]
    pub fn see(&mut self, slot: SlotId, last: u64)
        requires in_pool { slot < length self.old.entries }
        requires held { IsSome (entry_at self.old.entries slot) }
        requires learned { is_fixed_in (entry_at self.old.entries slot) ≡ false }
        ensures { let e = entry_at self.old.entries slot in
            self.new ≡ record self.old { entries = slice_set self.old.entries slot (renewed e (place_in e) (Some last)) } }
    {
        see(&mut self.slots[slot.number as usize], last);
    }

    /// Gives the slot other neighbours.
    #[inline(always)]
    pub fn set_links(&mut self, slot: SlotId, links: Links)
        requires in_pool { slot < length self.old.entries }
        requires held { IsSome (entry_at self.old.entries slot) }
        ensures { self.new ≡ record self.old { lines = slice_set self.old.lines slot links } }
    {
        set_links(&mut self.slots[slot.number as usize], links);
    }

    /// Gives the slot another neighbour on one side.
    #[inline(always)]
    pub fn set_link(&mut self, side: Side, slot: SlotId, link: Link)
        requires in_pool { slot < length self.old.entries }
        requires held { IsSome (entry_at self.old.entries slot) }
        ensures { self.new ≡ record self.old { lines = link_set side self.old.lines (Some slot) link } }
    {
        set_link(&mut self.slots[slot.number as usize], side, link);
    }
}
