//! Frames, packets in tunnels, and captures of them.

use crate::draws::Draws;
use std::alloc::{AllocError, Global};
use wire::octets::folded;

/// The sizes of frames: of twelve, seven are short, four middling and one long.
const SIZES: [usize; 12] = [60, 60, 60, 60, 60, 60, 60, 590, 590, 590, 590, 1400];

/// How many bodies there are of each of them.
const BODIES: usize = 32;

/// The endpoint's own address, and its next hop's.
const OWN: [u8; 6] = [2, 0, 0, 0, 0xAA, 1];

const HOP: [u8; 6] = [2, 0, 0, 0, 0xAA, 0xFE];

pub const EVERYBODY: [u8; 6] = [0xFF; 6];

/// What stands behind the addresses of a frame: a type and an IPv4 datagram.
#[derive(Drop)]
pub struct Body {
    pub octets: Vec<u8>,
    /// The folded sum of its words.
    sum: u16,
}

/// Bodies of each size.
#[derive(Drop)]
pub struct Bodies {
    bodies: Vec<Body>,
    /// One without octets.
    none: Body,
}

impl Bodies {
    /// Bodies of random octets, 384 of them, by size.
    pub fn new(alloc: Global, draws: &mut Draws) -> Result<Bodies, AllocError> {
        let mut bodies = Vec::new(alloc);
        for size in SIZES {
            for _body in 0..BODIES {
                bodies.push(drawn_body(alloc, draws, size.saturating_sub(12))?)?;
            }
        }
        Ok(Bodies {
            bodies,
            none: Body {
                octets: Vec::new(alloc),
                sum: 0,
            },
        })
    }

    /// The one of this number.
    pub fn at(&self, number: u32) -> &Body {
        match self.bodies.get(number as usize) {
            Some(body) => body,
            None => &self.none,
        }
    }
}

/// A type and an IPv4 datagram with UDP, of so many octets in all.
fn drawn_body(alloc: Global, draws: &mut Draws, size: usize) -> Result<Body, AllocError> {
    let mut octets = Vec::with_capacity(alloc, size)?;
    octets.extend_from_slice(&[8, 0, 0x45, 0])?;
    octets.extend_from_slice(&length_of(size.saturating_sub(2)))?;
    octets.extend_from_slice(&[0, 0, 0x40, 0, 64, 17, 0, 0])?;
    octets.extend_from_slice(&draws.word().to_be_bytes())?;
    octets.extend_from_slice(&draws.word().to_be_bytes()[..4])?;
    octets.extend_from_slice(&length_of(size.saturating_sub(22)))?;
    for _octet in octets.len()..size {
        octets.push(draws.octet())?;
    }
    let sum = folded(octets.as_slice());
    Ok(Body { octets, sum })
}

/// What stands behind the addresses of another frame.
pub fn body_of(alloc: Global, text: &[u8]) -> Result<Body, AllocError> {
    let mut octets = Vec::with_capacity(alloc, text.len())?;
    octets.extend_from_slice(text)?;
    let sum = folded(text);
    Ok(Body { octets, sum })
}

/// A length in two octets.
fn length_of(length: usize) -> [u8; 2] {
    u16::try_from(length).unwrap_or(u16::MAX).to_be_bytes()
}

/// The address of a station of a group.
pub fn station(group: u32, number: u32) -> [u8; 6] {
    let [_, _, _, group] = group.to_be_bytes();
    let [a, b, c, d] = number.to_be_bytes();
    [2, group, a, b, c, d]
}

/// A tunnel in which a packet comes.
#[derive(Clone, Copy)]
pub struct Tunnel {
    pub is_geneve: bool,
    pub vni: u32,
    /// The remote endpoint: one with an even number has an IPv4 address, one with an odd one an IPv6 address.
    pub remote: u8,
    /// How many octets of Geneve options there are, in fours.
    pub options: u8,
}

/// The head of packets in a tunnel, from Ethernet to the tunnel's header, with lengths, source port and sums of 0.
#[derive(Drop)]
pub struct Head {
    octets: Vec<u8>,
    /// Where the IP header ends.
    datagram: usize,
    /// The sum of the words of the IPv4 header; None for IPv6.
    ip4_sum: Option<u16>,
    /// The sum of the addresses and the protocol, of UDP's destination port and of what stands behind UDP's header.
    sum: u32,
}

/// The address of an endpoint in either family.
fn put_address(octets: &mut Vec<u8>, is_ip4: bool, number: u8) -> Result<(), AllocError> {
    if is_ip4 {
        octets.extend_from_slice(&[192, 0, 2, number])
    } else {
        octets.extend_from_slice(&[0x20, 1, 0x0D, 0xB8, 0, 0, 0, 0])?;
        octets.extend_from_slice(&[0, 0, 0, 0, 0, 0, 0, number])
    }
}

/// The head of packets in a tunnel to the endpoint of this number.
pub fn head_of(alloc: Global, tunnel: Tunnel, to: u8) -> Result<Head, AllocError> {
    let is_ip4 = tunnel.remote % 2 == 0;
    let mut octets = Vec::new(alloc);
    octets.extend_from_slice(&OWN)?;
    octets.extend_from_slice(&HOP)?;
    if is_ip4 {
        octets.extend_from_slice(&[8, 0, 0x45, 0, 0, 0, 0, 0, 0x40, 0, 64, 17, 0, 0])?;
    } else {
        octets.extend_from_slice(&[0x86, 0xDD, 0x60, 0, 0, 0, 0, 0, 17, 64])?;
    }
    put_address(&mut octets, is_ip4, tunnel.remote)?;
    put_address(&mut octets, is_ip4, to)?;
    let datagram = octets.len();
    let port: u16 = if tunnel.is_geneve { 6081 } else { 4789 };
    let [high, low] = port.to_be_bytes();
    octets.extend_from_slice(&[0, 0, high, low, 0, 0, 0, 0])?;
    let [_, a, b, c] = tunnel.vni.to_be_bytes();
    if tunnel.is_geneve {
        let options = tunnel.options & 15;
        octets.extend_from_slice(&[options, 0, 0x65, 0x58, a, b, c, 0])?;
        for option in 0..options {
            octets.extend_from_slice(&[1, option, 7, 0])?;
        }
    } else {
        octets.extend_from_slice(&[8, 0, 0, 0, a, b, c, 0])?;
    }
    let addresses = if is_ip4 { 26 } else { 22 };
    let text = octets.as_slice();
    let sum = u32::from(folded(text.get(addresses..).unwrap_or(&[]))).saturating_add(17);
    let ip4_sum = if is_ip4 {
        Some(folded(text.get(14..34).unwrap_or(&[])))
    } else {
        None
    };
    Ok(Head {
        octets,
        datagram,
        ip4_sum,
        sum,
    })
}

/// Writes two octets at a place.
#[inline(always)]
fn put_two(octets: &mut [u8], at: usize, number: u16) {
    let [high, low] = number.to_be_bytes();
    if at < octets.len() && octets.len() - at >= 2 {
        octets[at] = high;
        octets[at + 1] = low;
    }
}

/// A number of 16 bits with the same remainder of 65,535; 0 for 0 alone.
#[inline(always)]
fn fold(sum: u32) -> u16 {
    let once = (sum & 0xFFFF).wrapping_add(sum >> 16);
    let twice = (once & 0xFFFF).wrapping_add(once >> 16);
    (twice & 0xFFFF) as u16
}

impl Head {
    /// Puts the head of a packet and the addresses of the frame in it to the front of a room, and says how many octets they
    /// are.
    #[inline(always)]
    pub fn put(
        &self,
        room: &mut [u8; 160],
        addresses: &[u8; 12],
        body: &Body,
        source_port: u16,
        is_summed: bool,
    ) -> usize {
        let length = self.octets.len();
        let end = length.saturating_add(12);
        let whole = end.saturating_add(body.octets.len());
        let datagram = u16::try_from(whole.saturating_sub(self.datagram)).unwrap_or(u16::MAX);
        let Some(front) = room.as_mut_slice().get_mut(..end) else {
            return 0;
        };
        let (own, behind) = front.split_at_mut(length.min(front.len()));
        if own.len() == length && behind.len() == 12 {
            own.copy_from_slice(self.octets.as_slice());
            behind.copy_from_slice(addresses);
        }
        match self.ip4_sum {
            Some(sum) => {
                let total = datagram.saturating_add(20);
                put_two(own, 16, total);
                put_two(
                    own,
                    24,
                    !fold(u32::from(sum).wrapping_add(u32::from(total))),
                );
            }
            None => put_two(own, 18, datagram),
        }
        put_two(own, self.datagram, source_port);
        put_two(own, self.datagram.saturating_add(4), datagram);
        if is_summed {
            let sum = self
                .sum
                .wrapping_add(u32::from(source_port))
                .wrapping_add(u32::from(datagram).wrapping_mul(2))
                .wrapping_add(u32::from(folded(addresses)))
                .wrapping_add(u32::from(body.sum));
            let sum = match !fold(sum) {
                0 => u16::MAX,
                sum => sum,
            };
            put_two(own, self.datagram.saturating_add(6), sum);
        }
        end
    }
}
