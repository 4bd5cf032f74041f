//! Checksums that a sender left to its network card.
//!
//! A story, a look at captures and a summary tell of every such datagram of the underlay, whoever sent it and to whom: it
//! shows how the capture was made.
ghost use Rattle.std.specs.Prelude.{◌≡◌};
ghost use Rattle.decapsulate.specs.Card.{is_left_to_card};

use crate::packet::Packet;
use wire::ip_udp::{UDP, UdpView};

/// Whether octets are a frame with a whole UDP datagram whose checksum is the sum of the pseudo header alone (RFC 768;
/// RFC 8200, 8.1), whoever sent it, and to whom.
pub fn is_left_to_card(octets: &[u8]) -> bool
    ensures { result ≡ is_left_to_card octets.now }
{
    let Ok(packet) = Packet::read(octets) else {
        return false;
    };
    if packet.is_fragment || packet.protocol != UDP {
        return false;
    }
    let Ok(view) = UdpView::read(packet.payload) else {
        return false;
    };
    view.is_partial(packet.source, packet.destination)
}
