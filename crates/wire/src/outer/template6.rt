//! Heads over IPv6, whose own header has no checksum.
ghost use Rattle.std.specs.Prelude.{◌≡◌, ◌≤◌, ◌+◌, ◌++◌, length, replicate, is_some, IfSome};
ghost use Rattle.wire.specs.Octets.{octets, part};
ghost use Rattle.wire.specs.Frame.{plain};
ghost use Rattle.wire.specs.OuterPacket.{ip6_sent, frame_sum, packet6};

use crate::ether::{BridgeFrame, Mac};
use crate::ip_udp::{IP6_TYPE, UDP};
use crate::octets::words;
use crate::outer::head::{BEFORE_BODY, Head, blank_udp, copy, udp_sum};
use std::marker::Model;

/// The first octet of an IPv6 header: version 6, the high half of traffic class 0.
const FIRST: u8 = 0x60;

/// The head of one tunnel's packets over IPv6, in which all that differs is 0, with the sums of its words; seen by
/// contracts as what all these packets tell.
#[derive(Debug, Drop)]
pub struct Template6 {
    octets: [u8; 70],
    /// The sum of own address, protocol, tunnel port and tunnel header.
    udp: u64,
}

impl Model for Template6 {
    ghost use Rattle.std.specs.Prelude.{◌≡◌, ◌<◌, ◌≤◌, ◌^◌};
    ghost use Rattle.wire.specs.OuterTemplate.{Fixed, blank6, fixed6, udp_part};

    ghost Value = { Fixed };

    ghost view = { λ t. fixed6 t.octets };

    ghost invariant = { λ t. (t.octets ≡ blank6 (fixed6 t.octets))
        × (t.udp ≡ udp_part (fixed6 t.octets))
        × ((fixed6 t.octets).dport < 2 ^ 16)
        × (t.udp ≤ 2 ^ 24) };
}

impl Template6 {
    /// That of the packets in a tunnel with this header: MAC addresses of the next hop and of the endpoint, its TTL and
    /// address, and the tunnel's UDP port.
    pub fn new(
        next_hop: Mac,
        mac: Mac,
        ttl: u8,
        src: [u8; 16],
        dport: u16,
        tunnel: [u8; 8],
    ) -> Template6
        ensures { result ≡ record { next_hop = next_hop; mac = mac; ttl = ttl; src = src; dport = dport; tunnel = tunnel } }
    {
        let mut octets = [0; 70];
        octets[62..].copy_from_slice(&tunnel);
        octets[54..62].copy_from_slice(&blank_udp(dport));
        octets[14..54].copy_from_slice(&blank_ip6(ttl, src));
        octets[12..14].copy_from_slice(&IP6_TYPE);
        octets[6..12].copy_from_slice(&mac.0);
        octets[..6].copy_from_slice(&next_hop.0);
        Template6 {
            udp: words(&src) + u64::from(UDP) + u64::from(dport) + words(&tunnel),
            octets,
        }
    }

    /// Writes the head of the packet with a frame, from this source port to an address by a next hop, over a head; with
    /// the checksum where the frame's folded sum is handed in, else with none.
    pub fn write(
        &self,
        hop: Mac,
        dst: [u8; 16],
        frame: &BridgeFrame,
        sport: u16,
        sum: Option<u16>,
        head: &mut Head,
    )
        requires fits { 28 + length frame.now.body ≤ 65535 }
        requires sum { IfSome sum (λ s. s ≡ frame_sum frame.now) }
        ensures { let t = self.now in let f = plain frame.now in
            head.new.items ++ f ≡ packet6 hop t.mac t.ttl (is_some sum) t.src dst sport t.dport (t.tunnel ++ f) }
    {
        let len = (BEFORE_BODY + frame.body.len()) as u16;
        let sum = udp_sum(self.udp, &dst, frame, sport, sum);
        copy(&self.octets, head);
        fill(head.as_mut_slice(), hop, dst, len, sport, sum);
    }
}

/// The IPv6 header whose length and destination are 0 (RFC 8200, 3).
fn blank_ip6(ttl: u8, src: [u8; 16]) -> [u8; 40]
    ensures { result ≡ ip6_sent ttl src (replicate 16 0) 0 }
{
    let mut header = [0; 40];
    header[8..24].copy_from_slice(&src);
    header[..8].copy_from_slice(&[FIRST, 0, 0, 0, 0, 0, UDP, ttl]);
    header
}

/// Fills what differs into the octets of a head, the last first.
fn fill(text: &mut [u8], hop: Mac, dst: [u8; 16], len: u16, sport: u16, sum: u16)
    requires { length text.old ≡ 70 }
    ensures long { length text.new ≡ 70 }
    ensures filled { let t = text.old in text.new
        ≡ hop ++ (part 6 12 t ++ (octets 2 len ++ (part 20 18 t ++ (dst ++ (octets 2 sport ++ (part 56 2 t
        ++ (octets 2 len ++ (octets 2 sum ++ part 62 8 t)))))))) }
{
    text[60..62].copy_from_slice(&sum.to_be_bytes());
    text[58..60].copy_from_slice(&len.to_be_bytes());
    text[54..56].copy_from_slice(&sport.to_be_bytes());
    text[38..54].copy_from_slice(&dst);
    text[18..20].copy_from_slice(&len.to_be_bytes());
    text[..6].copy_from_slice(&hop.0);
}
