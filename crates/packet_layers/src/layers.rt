//! The layers of a packet.
ghost use Rattle.std.specs.Prelude.{◌≡◌, ◌≤◌, [], length};
ghost use Rattle.packet_layers.specs.Apart.{whole};
ghost use Rattle.packet_layers.specs.declared.kind.Stop.TheVariants.{Deep};

use crate::apart::Apart;
use crate::{Head, Span, Stop};
use std::marker::Model;

/// The layers of a packet, seen by contracts as its parts and the stop. Side by side the heads, the payload and the tails
/// are the packet.
#[derive(Drop)]
pub struct Layers<'a> {
    pub(crate) apart: Apart<'a>,
    pub(crate) stop: Stop,
}

impl<'a> Model for Layers<'a> {
    ghost use Rattle.packet_layers.specs.Dissection.{Layers};

    ghost Value = { Layers };

    ghost view = { λ l. record { apart = l.apart; stop = l.stop } };
}

impl<'a> Layers<'a> {
    /// Those of no octets: a room that the layers of packets are put into, one packet behind another.
    pub fn empty() -> Layers<'a>
        ensures { result ≡ record { apart = whole []; stop = Deep } }
    {
        Layers {
            apart: Apart::empty(),
            stop: Stop::Deep,
        }
    }

    /// The headers, from the front on.
    pub fn heads(&self) -> &[Head<'a>]
        ensures heads { result.now ≡ self.now.apart.heads }
        ensures few { length result.now ≤ 34 }
    {
        self.apart.heads()
    }

    /// What stands between the last head and the first tail.
    pub fn payload(&self) -> &Span<'a>
        ensures { result.now ≡ self.now.apart.payload }
    {
        self.apart.payload()
    }

    /// What stands behind the length of an IP packet or a UDP datagram, from the innermost on. None is empty.
    pub fn tails(&self) -> &[Span<'a>]
        ensures tails { result.now ≡ self.now.apart.tails }
        ensures few { length result.now ≤ 10 }
    {
        self.apart.tails()
    }

    /// Why no more is taken off.
    pub fn stop(&self) -> Stop
        ensures { result ≡ self.now.stop }
    {
        self.stop
    }
}
