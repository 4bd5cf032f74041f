//! A frame and its tag.
ghost use Rattle.std.specs.Prelude.{◌≡◌};
ghost use Rattle.capture_compare.specs.Difference.{bare_of};
ghost use Rattle.capture_compare.specs.Read.{bare_in};

use wire::ether::{EtherView, Tagging};

/// What a frame is but for its tag, and the VID in that.
#[derive(Clone, Copy)]
pub(crate) struct Bare<'a> {
    pub(crate) addresses: &'a [u8],
    pub(crate) vid: Option<u16>,
    /// What stands behind the addresses and the tag.
    pub(crate) body: &'a [u8],
}

/// What a frame is but for its tag; nothing of fewer than 14 octets, and of a tag that is cut.
pub(crate) fn bare_of(octets: &[u8]) -> Option<Bare<'_>>
    ensures { bare_in result ≡ bare_of octets.now }
{
    let Ok(view) = EtherView::read(octets) else {
        return None;
    };
    let addresses = view.addresses();
    match view.split_tag() {
        Tagging::Plain(body) => Some(Bare {
            addresses,
            vid: None,
            body,
        }),
        Tagging::Tagged(tci, body) => Some(Bare {
            addresses,
            vid: Some(tci.vid()),
            body,
        }),
        Tagging::Cut => None,
    }
}
