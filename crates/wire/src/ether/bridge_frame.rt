//! A frame as a bridge sees it.
//!
//! Its body has no upper bound: a frame is classified from a slice of any length, and the bound on captured records is the
//! endpoint's to check.
ghost use Rattle.std.specs.Prelude.{◌≡◌};

use crate::ether::Mac;
use crate::ether::ether_view::six;
use std::marker::Model;

/// A frame without its outermost tag, seen by contracts as a `Frame`: its addresses, priority and body.
#[derive(Debug, Drop)]
pub struct BridgeFrame<'a> {
    /// The priority code point, 0 to 7.
    pub pcp: u8,
    /// The drop eligible indicator.
    pub dei: bool,
    /// Both addresses, destination first, as they came in.
    pub addresses: &'a [u8],
    /// What stands behind the addresses and the tag, from the type on: at least 2 octets.
    pub body: &'a [u8],
}

impl<'a> Model for BridgeFrame<'a> {
    ghost use Rattle.std.specs.Prelude.{◌≡◌, ◌<◌, ◌≤◌, drop, length, take};
    ghost use Rattle.wire.specs.Frame.{Frame};

    ghost Value = { Frame };

    ghost view = { λ f. record {
      dst = take 6 f.addresses.now;
      src = drop 6 f.addresses.now;
      pcp = f.pcp;
      dei = f.dei;
      body = f.body.now;
    } };

    ghost invariant = { λ f. (length f.addresses.now ≡ 12)
        × (f.pcp < 8)
        × (2 ≤ length f.body.now) };
}

impl<'a> BridgeFrame<'a> {
    /// The destination.
    #[inline(always)]
    pub fn dst(&self) -> Mac
        ensures { result ≡ self.now.dst }
    {
        Mac(six(self.addresses, 0))
    }

    /// The source.
    #[inline(always)]
    pub fn src(&self) -> Mac
        ensures { result ≡ self.now.src }
    {
        Mac(six(self.addresses, 6))
    }
}
