//! A text cut into three slices.
ghost use Rattle.std.specs.Prelude.{◌≡◌, ◌≤◌, length};
ghost use Rattle.wire.specs.IpParts.{cut};

use std::marker::Model;

/// A header, what it carries and what stands behind, as slices of the octets that were read; seen by contracts as their parts.
#[derive(Debug, Drop)]
pub(crate) struct Slices<'a> {
    pub(crate) head: &'a [u8],
    pub(crate) payload: &'a [u8],
    pub(crate) tail: &'a [u8],
}

impl<'a> Model for Slices<'a> {
    ghost use Rattle.wire.specs.IpParts.{Parts};

    ghost Value = { Parts };

    ghost view = { λ s. record { head = s.head.now; payload = s.payload.now; tail = s.tail.now } };
}

impl<'a> Slices<'a> {
    /// The octets, cut behind the first `header` and behind the first `end` of them.
    #[inline(always)]
    pub(crate) fn cut(octets: &'a [u8], header: usize, end: usize) -> Slices<'a>
        requires ordered { header ≤ end }
        requires there { end ≤ length octets.now }
        ensures { result ≡ cut header end octets.now }
    {
        Slices {
            head: &octets[..header],
            payload: &octets[header..end],
            tail: &octets[end..],
        }
    }
}
