//! What the tests of an Ethernet header saw.
ghost use Rattle.std.specs.Prelude.{◌≡◌};
ghost use Rattle.event_story.specs.Ether.{header_fact, source_fact, destination_fact, tag_fact, vid_in, has_vid};

use crate::fact::Fact;
use wire::ether::{EtherView, Tagging};

/// Both addresses, or that there are too few octets.
pub(crate) fn header_fact(octets: &[u8]) -> Fact
    ensures { result ≡ header_fact octets.now }
{
    match EtherView::read(octets) {
        Ok(view) => Fact::Ether {
            source: view.src(),
            destination: view.dst(),
        },
        Err(_) => Fact::Short {
            octets: octets.len(),
        },
    }
}

/// Whether the source is a group's address.
pub(crate) fn source_fact(octets: &[u8]) -> Option<Fact>
    ensures { result ≡ source_fact octets.now }
{
    match EtherView::read(octets) {
        Ok(view) => Some(Fact::Source {
            group: view.src().is_group(),
        }),
        Err(_) => None,
    }
}

/// Whether the destination is a group's address, or reserved.
pub(crate) fn destination_fact(octets: &[u8]) -> Option<Fact>
    ensures { result ≡ destination_fact octets.now }
{
    match EtherView::read(octets) {
        Ok(view) => Some(Fact::Destination {
            group: view.dst().is_group(),
            reserved: view.dst().is_reserved(),
        }),
        Err(_) => None,
    }
}

/// The tag of a frame.
pub(crate) fn tag_fact(octets: &[u8]) -> Option<Fact>
    ensures { result ≡ tag_fact octets.now }
{
    match EtherView::read(octets) {
        Ok(view) => match view.split_tag() {
            Tagging::Plain(_) => Some(Fact::NoTag),
            Tagging::Tagged(tci, _) => Some(Fact::Tag {
                vid: tci.vid(),
                pcp: tci.pcp(),
                dei: tci.dei(),
            }),
            Tagging::Cut => Some(Fact::CutTag),
        },
        Err(_) => None,
    }
}

/// The VID in the tag of a frame, 0 where it has none.
pub(crate) fn vid_in(octets: &[u8]) -> u16
    ensures { result ≡ vid_in octets.now }
{
    match EtherView::read(octets) {
        Ok(view) => match view.split_tag() {
            Tagging::Tagged(tci, _) => tci.vid(),
            _ => 0,
        },
        Err(_) => 0,
    }
}

/// Whether a frame has a tag with a VID.
pub(crate) fn has_vid(octets: &[u8]) -> bool
    ensures { result ≡ has_vid octets.now }
{
    match EtherView::read(octets) {
        Ok(view) => match view.split_tag() {
            Tagging::Tagged(tci, _) => tci.vid() != 0,
            _ => false,
        },
        Err(_) => false,
    }
}
