//! Heads over IPv4.
ghost use Rattle.std.specs.Prelude.{◌≡◌, ◌≤◌, ◌+◌, ◌++◌, length, replicate, is_some, IfSome};
ghost use Rattle.wire.specs.Octets.{octets, part};
ghost use Rattle.wire.specs.Sum.{check};
ghost use Rattle.wire.specs.Frame.{plain};
ghost use Rattle.wire.specs.OuterPacket.{ip4_header, frame_sum, packet4};

use crate::ether::{BridgeFrame, Mac};
use crate::ip_udp::{IP4_TYPE, UDP};
use crate::octets::{fold, words};
use crate::outer::head::{BEFORE_BODY, Head, blank_udp, copy, udp_sum};
use std::marker::Model;

/// The first octet of an IPv4 header: version 4, an IHL of 5 words.
const FIRST: u8 = 0x45;
/// The flag Don't Fragment, in octet 6 of an IPv4 header.
const DF: u8 = 0x40;
/// The octets of an IPv4 header without options.
const IP4_HEADER: u16 = 20;

/// The head of one tunnel's packets over IPv4, in which all that differs is 0, with the sums of its words; seen by
/// contracts as what all these packets tell.
#[derive(Debug, Drop)]
pub struct Template4 {
    octets: [u8; 50],
    /// The sum of the IPv4 header.
    ip: u64,
    /// The sum of own address, protocol, tunnel port and tunnel header.
    udp: u64,
}

impl Model for Template4 {
    ghost use Rattle.std.specs.Prelude.{◌≡◌, ◌<◌, ◌≤◌, ◌^◌};
    ghost use Rattle.wire.specs.OuterTemplate.{Fixed, blank4, fixed4, ip4_part, udp_part};

    ghost Value = { Fixed };

    ghost view = { λ t. fixed4 t.octets };

    ghost invariant = { λ t. (t.octets ≡ blank4 (fixed4 t.octets))
        × (t.ip ≡ ip4_part (fixed4 t.octets))
        × (t.udp ≡ udp_part (fixed4 t.octets))
        × ((fixed4 t.octets).dport < 2 ^ 16)
        × (t.ip ≤ 2 ^ 24)
        × (t.udp ≤ 2 ^ 24) };
}

impl Template4 {
    /// That of the packets in a tunnel with this header: MAC addresses of the next hop and of the endpoint, its TTL and
    /// address, and the tunnel's UDP port.
    pub fn new(
        next_hop: Mac,
        mac: Mac,
        ttl: u8,
        src: [u8; 4],
        dport: u16,
        tunnel: [u8; 8],
    ) -> Template4
        ensures { result ≡ record { next_hop = next_hop; mac = mac; ttl = ttl; src = src; dport = dport; tunnel = tunnel } }
    {
        let header = blank_ip4(ttl, src);
        let mut octets = [0; 50];
        octets[42..].copy_from_slice(&tunnel);
        octets[34..42].copy_from_slice(&blank_udp(dport));
        octets[14..34].copy_from_slice(&header);
        octets[12..14].copy_from_slice(&IP4_TYPE);
        octets[6..12].copy_from_slice(&mac.0);
        octets[..6].copy_from_slice(&next_hop.0);
        Template4 {
            ip: words(&header),
            udp: words(&src) + u64::from(UDP) + u64::from(dport) + words(&tunnel),
            octets,
        }
    }

    /// Writes the head of the packet with a frame, from this source port to an address by a next hop, over a head; with
    /// the checksum where the frame's folded sum is handed in, else with none.
    pub fn write(
        &self,
        hop: Mac,
        dst: [u8; 4],
        frame: &BridgeFrame,
        sport: u16,
        sum: Option<u16>,
        head: &mut Head,
    )
        requires fits { 48 + length frame.now.body ≤ 65535 }
        requires sum { IfSome sum (λ s. s ≡ frame_sum frame.now) }
        ensures { let t = self.now in let f = plain frame.now in
            head.new.items ++ f ≡ packet4 hop t.mac t.ttl (is_some sum) t.src dst sport t.dport (t.tunnel ++ f) }
    {
        let len = (BEFORE_BODY + frame.body.len()) as u16;
        let check = self.ip_sum(dst, IP4_HEADER + len);
        let sum = udp_sum(self.udp, &dst, frame, sport, sum);
        copy(&self.octets, head);
        fill(head.as_mut_slice(), hop, dst, len, check, sport, sum);
    }

    /// The checksum of the IPv4 header of a packet of so many octets (RFC 791, 3.1).
    fn ip_sum(&self, dst: [u8; 4], len: u16) -> u16
        ensures { let t = self.now in result ≡ check (ip4_header t.ttl t.src dst len 0) }
    {
        65535 - fold(self.ip + u64::from(len) + words(&dst))
    }
}

/// The IPv4 header whose length, checksum and destination are 0 (RFC 791, 3.1).
fn blank_ip4(ttl: u8, src: [u8; 4]) -> [u8; 20]
    ensures { result ≡ ip4_header ttl src (replicate 4 0) 0 0 }
{
    let [a, b, c, d] = src;
    [
        FIRST, 0, 0, 0, 0, 0, DF, 0, ttl, UDP, 0, 0, a, b, c, d, 0, 0, 0, 0,
    ]
}

/// Fills what differs into the octets of a head, the last first.
fn fill(text: &mut [u8], hop: Mac, dst: [u8; 4], len: u16, check: u16, sport: u16, sum: u16)
    requires long { length text.old ≡ 50 }
    requires fits { 20 + len ≤ 65535 }
    ensures long { length text.new ≡ 50 }
    ensures filled { let t = text.old in text.new
        ≡ hop ++ (part 6 10 t ++ (octets 2 (20 + len) ++ (part 18 6 t ++ (octets 2 check ++ (part 26 4 t ++ (dst
        ++ (octets 2 sport ++ (part 36 2 t ++ (octets 2 len ++ (octets 2 sum ++ part 42 8 t)))))))))) }
{
    text[40..42].copy_from_slice(&sum.to_be_bytes());
    text[38..40].copy_from_slice(&len.to_be_bytes());
    text[34..36].copy_from_slice(&sport.to_be_bytes());
    text[30..34].copy_from_slice(&dst);
    text[24..26].copy_from_slice(&check.to_be_bytes());
    text[16..18].copy_from_slice(&(IP4_HEADER + len).to_be_bytes());
    text[..6].copy_from_slice(&hop.0);
}
