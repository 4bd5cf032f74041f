//! Where a frame or a packet goes.
//!
//! It is told by the same `Result` as how it came: `Endpoint::take` turns what came, where it lies, into a [`Forwarding`], for
//! each move of its 88 octets costs some 30 instructions. What stays `Ok` leaves for the places in the list.
ghost use Rattle.std.specs.Prelude.{◌≡◌, Err};
ghost use Rattle.wire.specs.declared.ether.reason.Reason.TheVariants.{Runt};
ghost use Rattle.overlay.specs.Ingress.{nowhere};

use crate::arrival::Arrival;
use wire::ether::{Reason, Refused};

/// Where a frame or a packet goes: to each place that was put in a list, or nowhere, for this reason.
pub type Forwarding<'a> = Result<Arrival<'a>, Refused>;

/// A forwarding while nothing came, which is there to be written over: a runt's, in no segment.
#[inline]
pub fn nothing_came<'a>() -> Forwarding<'a>
    ensures { result ≡ Err (nowhere Runt) }
{
    Err(Refused::nowhere(Reason::Runt))
}
