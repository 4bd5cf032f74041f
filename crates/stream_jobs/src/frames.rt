//! Frames of stations, and packets in tunnels, as records of captures.

use crate::draws::{Draws, part_of};
use crate::tape::Tape;
use std::alloc::{AllocError, Global};

/// The sizes of frames: of twelve, seven are short, four middling and one long.
const SIZES: [usize; 12] = [60, 60, 60, 60, 60, 60, 60, 590, 590, 590, 590, 1400];

/// How many octets of a frame stand before its body, and how many a tag has.
const HEAD: usize = 22;

const TAG: usize = 4;

/// How many octets there are that bodies are taken of, and how many of them a body may begin behind.
const POOL: usize = 4096;

const BEGINS: u32 = 2048;

/// The VNI of packets of one segment.
pub const VNI: u32 = 5000;

/// The number of the station that stands for everybody.
pub const EVERYBODY: u32 = u32::MAX;

/// A frame: to which station, from which one, its number, and what was drawn for its size and its body.
#[derive(Clone, Copy)]
pub struct Frame {
    pub to: u32,
    pub from: u32,
    pub number: u64,
    pub drawn: u64,
}

impl Frame {
    /// How many octets it has.
    fn size(self) -> usize {
        let number = part_of(self.drawn, 0, 12) as usize;
        SIZES.as_slice().get(number).copied().unwrap_or(60)
    }

    /// Its addresses.
    fn addresses(self) -> [u8; 12] {
        let [a, b, c, d, e, f] = station(self.to);
        let [g, h, i, j, k, l] = station(self.from);
        [a, b, c, d, e, f, g, h, i, j, k, l]
    }

    /// Its type and its number.
    fn after_addresses(self) -> [u8; 10] {
        let [a, b, c, d, e, f, g, h] = self.number.to_le_bytes();
        [8, 0, a, b, c, d, e, f, g, h]
    }
}

/// The address of a station.
fn station(number: u32) -> [u8; 6] {
    if number == EVERYBODY {
        return [0xFF; 6];
    }
    let [a, b, c, d] = number.to_be_bytes();
    [2, 0, a, b, c, d]
}

/// What the sender of a packet writes outside its frame.
#[derive(Clone, Copy)]
pub struct Outer {
    /// Geneve over IPv6; else VXLAN over IPv4.
    pub is_geneve: bool,
    pub vni: u32,
    /// The last octets of the addresses of the sender and of the receiver.
    pub from: u8,
    pub to: u8,
    /// TTL or hop limit.
    pub limit: u8,
    /// Identification of IPv4.
    pub number: u16,
    pub source_port: u16,
}

impl Outer {
    /// The head of a packet of VXLAN over IPv4 with a frame of so many octets.
    fn vxlan_head(self, size: usize) -> [u8; 50] {
        let datagram = u16::try_from(size.saturating_add(16)).unwrap_or(u16::MAX);
        let whole = datagram.saturating_add(20);
        let sum = 0x4500_u32
            .wrapping_add(u32::from(whole))
            .wrapping_add(u32::from(self.number))
            .wrapping_add(u32::from(self.limit).wrapping_mul(256))
            .wrapping_add(u32::from(self.from))
            .wrapping_add(u32::from(self.to))
            .wrapping_add(0x4000 + 17 + 2 * 0xC000 + 2 * 0x0200);
        let [a, b] = whole.to_be_bytes();
        let [c, d] = self.number.to_be_bytes();
        let [e, f] = (!folded(sum)).to_be_bytes();
        let [g, h] = self.source_port.to_be_bytes();
        let [i, j] = datagram.to_be_bytes();
        let [_, k, l, m] = self.vni.to_be_bytes();
        let (limit, from, to) = (self.limit, self.from, self.to);
        [
            2, 0, 0, 0, 0xAA, 1, 2, 0, 0, 0, 0xAA, 2, 8, 0, 0x45, 0, a, b, c, d, 0x40, 0, limit,
            17, e, f, 192, 0, 2, from, 192, 0, 2, to, g, h, 0x12, 0xB5, i, j, 0, 0, 8, 0, 0, 0, k,
            l, m, 0,
        ]
    }

    /// The head of a packet of Geneve over IPv6, with an option, with a frame of so many octets.
    fn geneve_head(self, size: usize) -> [u8; 74] {
        let [a, b] = u16::try_from(size.saturating_add(20))
            .unwrap_or(u16::MAX)
            .to_be_bytes();
        let [c, d] = self.source_port.to_be_bytes();
        let [_, e, f, g] = self.vni.to_be_bytes();
        let (limit, from, to) = (self.limit, self.from, self.to);
        [
            2, 0, 0, 0, 0xAA, 1, 2, 0, 0, 0, 0xAA, 2, 0x86, 0xDD, 0x60, 0, 0, 0, a, b, 17, limit,
            0x20, 1, 0x0D, 0xB8, 0, 0, 0, 0, 0, 0, 0, 0, 0, 0, 0, from, 0x20, 1, 0x0D, 0xB8, 0, 0,
            0, 0, 0, 0, 0, 0, 0, 0, 0, to, c, d, 0x17, 0xC1, a, b, 0, 0, 1, 0, 0x65, 0x58, e, f, g,
            0, 1, 2, 7, 0,
        ]
    }
}

/// A number of 16 bits with the same remainder of 65,535; 0 for 0 alone.
fn folded(sum: u32) -> u16 {
    let once = (sum & 0xFFFF).wrapping_add(sum >> 16);
    let twice = (once & 0xFFFF).wrapping_add(once >> 16);
    (twice & 0xFFFF) as u16
}

/// Octets that bodies are taken of.
#[derive(Drop)]
pub struct Bodies {
    pool: Vec<u8>,
}

impl Bodies {
    /// Random ones.
    pub fn new(alloc: Global, draws: &mut Draws) -> Result<Bodies, AllocError> {
        let mut pool = Vec::with_capacity(alloc, POOL)?;
        for _octet in 0..POOL {
            pool.push(draws.octet())?;
        }
        Ok(Bodies { pool })
    }

    /// Puts a frame as a record.
    pub fn put_frame(&self, tape: &mut Tape, moment: u64, frame: Frame) {
        let size = frame.size();
        tape.begin_record(moment, size);
        self.put_octets(tape, frame, size);
    }

    /// Puts a packet with a frame in it as a record.
    pub fn put_packet(&self, tape: &mut Tape, moment: u64, outer: Outer, frame: Frame) {
        let size = frame.size();
        if outer.is_geneve {
            tape.begin_record(moment, size.saturating_add(74));
            tape.put(&outer.geneve_head(size));
        } else {
            tape.begin_record(moment, size.saturating_add(50));
            tape.put(&outer.vxlan_head(size));
        }
        self.put_octets(tape, frame, size);
    }

    /// Puts a frame with the tag of a VLAN as a record.
    pub fn put_tagged(&self, tape: &mut Tape, moment: u64, vid: u16, frame: Frame) {
        let size = frame.size();
        let [high, low] = vid.to_be_bytes();
        tape.begin_record(moment, size);
        tape.put(&frame.addresses());
        tape.put(&[0x81, 0, high, low]);
        self.put_rest(tape, frame, size.saturating_sub(TAG));
    }

    /// Puts the octets of a frame, so many.
    fn put_octets(&self, tape: &mut Tape, frame: Frame, size: usize) {
        tape.put(&frame.addresses());
        self.put_rest(tape, frame, size);
    }

    /// Puts what stands behind the addresses of a frame, and behind its tag where it has one, of so many octets without it.
    fn put_rest(&self, tape: &mut Tape, frame: Frame, size: usize) {
        tape.put(&frame.after_addresses());
        let begin = part_of(frame.drawn, 48, BEGINS) as usize;
        let end = begin.saturating_add(size.saturating_sub(HEAD));
        tape.put(self.pool.as_slice().get(begin..end).unwrap_or(&[]));
    }
}
