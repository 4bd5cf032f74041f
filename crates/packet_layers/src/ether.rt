//! The Ethernet header of a frame.
ghost use Rattle.std.specs.Prelude.{◌≡◌, ◌≤◌, ◌<◌, ◌+◌, nat_le, length, IfOk, OnOk, OnErr};
ghost use Rattle.wire.specs.First.{first, fault_of};
ghost use Rattle.wire.specs.declared.ether.reason.Reason.TheVariants.{Runt};
ghost use Rattle.wire.specs.Datagram.{behind_tags};
ghost use Rattle.decapsulate.specs.Arrival.{frame_reasons};
ghost use Rattle.packet_layers.specs.Dissection.{rows, ether_off, tag_off, type_off};

use crate::HeadKind;
use crate::apart::Apart;
use wire::ether::{EtherView, Reason};

/// The most VLAN tags in front of the type of a frame.
const MOST_TAGS: usize = 2;
/// The octets of the addresses of a frame.
const ADDRESSES: usize = 12;
/// The octets of a tag.
const TAG: usize = 4;
/// The octets of a type.
const TYPE: usize = 2;

/// Takes the addresses, the tags and the type off a frame. It gives what stood behind the tags, with the type.
pub(crate) fn take_ether<'a>(apart: &mut Apart<'a>) -> Result<&'a [u8], Reason>
    requires heads { length apart.old.heads ≤ 28 }
    requires tails { length apart.old.tails < 10 }
    ensures fault { fault_of result ≡ first (rows Runt Runt (frame_reasons apart.old.payload.octets)) }
    ensures taken { OnOk result (apart.new ≡ ether_off apart.old.payload.octets apart.old) }
    ensures refused { OnErr result (apart.new ≡ apart.old) }
    ensures typed { IfOk result (λ typed. typed.now ≡ behind_tags apart.old.payload.octets) }
    ensures few_heads { length apart.new.heads ≤ length apart.old.heads + 4 }
    ensures few_tails { length apart.new.tails ≤ length apart.old.tails }
{
    let Ok(view) = EtherView::read(apart.left()) else {
        return Err(Reason::Runt);
    };
    let (tags, typed) = view.skip_tags(MOST_TAGS);
    apart.put(HeadKind::Ether, ADDRESSES);
    take_tags(apart, tags.len());
    take_type(apart);
    Ok(typed)
}

/// Takes off the tags of so many octets, which are in front of what is left.
fn take_tags(apart: &mut Apart, octets: usize)
    requires room { octets ≤ length apart.old.payload.octets }
    requires heads { length apart.old.heads ≤ 32 }
    requires tails { length apart.old.tails < 10 }
    ensures taken { apart.new ≡ tag_off (nat_le 8 octets) (tag_off (nat_le 4 octets) apart.old) }
    ensures few_heads { length apart.new.heads ≤ length apart.old.heads + 2 }
    ensures few_tails { length apart.new.tails ≤ length apart.old.tails }
{
    if octets >= TAG {
        apart.put(HeadKind::Tag, TAG);
    }
    if octets >= 2 * TAG {
        apart.put(HeadKind::Tag, TAG);
    }
}

/// Takes the type off, where two octets are left.
fn take_type(apart: &mut Apart)
    requires heads { length apart.old.heads < 34 }
    requires tails { length apart.old.tails < 10 }
    ensures { apart.new ≡ type_off apart.old }
{
    if apart.left().len() >= TYPE {
        apart.put(HeadKind::Kind, TYPE);
    }
}
