//! Lines through the slots, linked both ways.
ghost use Rattle.std.specs.Prelude.{◌≡◌};
ghost use Rattle.shared_tables.specs.Pool.{links_at};
ghost use Rattle.shared_tables.specs.LinkSteps.{IsHeld, HoldsAny, link_set, ends_set, unlinked, pushed_back, AreEnds};
ghost use Rattle.shared_tables.specs.LinkSteps.{ends_without, ends_with};

use crate::links::{Link, Links, Side, SlotId};
use crate::slots::Slots;

/// The two ends of a line; both none where it has no slots.
#[derive(Clone, Copy)]
pub struct Ends {
    pub first: Link,
    pub last: Link,
}

/// The ends of a line of nothing.
pub const NO_ENDS: Ends = Ends {
    first: Link::NONE,
    last: Link::NONE,
};

/// Gives a slot of a line another neighbour on one side. Where there is no slot, nothing stands before what comes next,
/// or behind what comes previous: it is the line's first, or last.
#[inline(always)]
fn set_link_or_end(slots: &mut Slots, ends: &mut Ends, side: Side, slot: Link, link: Link)
    requires { HoldsAny slots.old.entries slot }
    ensures pool { slots.new ≡ record slots.old { lines = link_set side slots.old.lines slot link } }
    ensures ends { ends.new ≡ ends_set side ends.old slot link }
{
    match (slot.slot(), side) {
        (Some(slot), _) => slots.set_link(side, slot, link),
        (None, Side::Previous) => ends.last = link,
        (None, Side::Next) => ends.first = link,
    }
}

/// Takes a slot out of a line.
#[inline(always)]
pub fn leave(slots: &mut Slots, ends: &mut Ends, slot: SlotId)
    requires held { IsHeld slots.old.entries slot }
    requires previous { HoldsAny slots.old.entries (links_at slots.old.lines slot).previous }
    requires next { HoldsAny slots.old.entries (links_at slots.old.lines slot).next }
    ensures ends { ends.new ≡ ends_without ends.old (links_at slots.old.lines slot) }
    ensures pool { slots.new ≡ record slots.old { lines = unlinked slots.old.lines slot } }
{
    let links = slots.links(slot);
    set_link_or_end(slots, ends, Side::Next, links.previous, links.next);
    set_link_or_end(slots, ends, Side::Previous, links.next, links.previous);
}

/// Puts a slot at the end of a line.
#[inline(always)]
pub fn push_back(slots: &mut Slots, ends: &mut Ends, slot: SlotId)
    requires held { IsHeld slots.old.entries slot }
    requires last { HoldsAny slots.old.entries ends.old.last }
    requires ends { AreEnds ends.old }
    ensures ends { ends.new ≡ ends_with ends.old slot }
    ensures pool { slots.new ≡ record slots.old { lines = pushed_back slots.old.lines ends.old.last slot } }
{
    let last = ends.last;
    slots.set_links(
        slot,
        Links {
            previous: last,
            next: Link::NONE,
        },
    );
    set_link_or_end(slots, ends, Side::Next, last, Link::to(slot));
    ends.last = Link::to(slot);
}
