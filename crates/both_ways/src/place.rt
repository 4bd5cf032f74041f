//! Where a record was captured, and what it is compared by.
ghost use Rattle.std.specs.Prelude.{◌≡◌};
ghost use Rattle.both_ways.specs.Told.{place_of, tap_at, untagged};

use echo_window::FrameText;
use timeline::Tap;
use wire::ether::{EtherView, Tagging};

/// The number of a place: 0 for the underlay, that of a port from 1.
#[inline]
pub(crate) fn place_of(tap: Tap) -> u8
    ensures { result ≡ place_of tap }
{
    match tap {
        Tap::Port(port) => port,
        Tap::Underlay => 0,
    }
}

/// The place of a number.
pub(crate) fn tap_at(place: u8) -> Tap
    ensures { result ≡ tap_at place }
{
    if place == 0 {
        Tap::Underlay
    } else {
        Tap::Port(place)
    }
}

/// A frame without its tag.
#[inline]
pub(crate) fn untagged(octets: &[u8]) -> FrameText<'_>
    ensures { result ≡ untagged octets.now }
{
    let Ok(view) = EtherView::read(octets) else {
        return as_it_stands(octets);
    };
    match view.split_tag() {
        Tagging::Tagged(_, body) => FrameText::new(view.addresses(), body),
        Tagging::Plain(_) | Tagging::Cut => as_it_stands(octets),
    }
}

/// A frame that has no tag to take off.
#[inline(always)]
fn as_it_stands(octets: &[u8]) -> FrameText<'_>
    ensures { result ≡ octets.now }
{
    FrameText::new(&octets[..0], octets)
}
