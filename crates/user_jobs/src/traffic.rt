//! What comes to an endpoint in an hour of a switch: settings, and captures.

use crate::draws::{Draws, part_of};
use crate::packets::{Bodies, Body, EVERYBODY, Head, Tunnel, head_of, station};
use crate::tape::Tape;
use std::alloc::{AllocError, Global};
use std::fmt::Write;

/// How many ports the switch has, and how many remote endpoints there are.
pub const PORTS: usize = 8;

const REMOTES: u32 = 8;

/// How many segments there are, of VIDs from this one on, and VNIs from that.
pub const SEGMENTS: u32 = 64;

pub const FIRST_VID: u32 = 100;

pub const FIRST_VNI: u32 = 5000;

/// How many octets a record takes at most on average, with its header.
const RECORD: usize = 440;

/// Settings of a switch, whose tables take so many entries a segment.
pub fn switch_settings(alloc: Global, limit: u32) -> Result<String, AllocError> {
    let mut text = String::new(alloc);
    text.push_str("version = 1\n[underlay]\nmac = \"02:00:00:00:aa:01\"\n")?;
    text.push_str("next_hop = \"02:00:00:00:aa:fe\"\n")?;
    text.push_str("ip4 = \"192.0.2.1\"\nip6 = \"2001:db8::1\"\nsum4 = true\n")?;
    for _port in 0..PORTS {
        text.push_str("[[port]]\npvid = 1\n")?;
    }
    for segment in 0..SEGMENTS {
        let vid = FIRST_VID.saturating_add(segment);
        let vni = FIRST_VNI.saturating_add(segment);
        let kind = if segment % 2 == 0 { "vxlan" } else { "geneve" };
        write!(
            text,
            "[[segment]]\nvid = {vid}\nvni = {vni}\ntunnel = \"{kind}\"\n"
        )?;
        write!(
            text,
            "limit = {limit}\ntagged = [1, 2, 3, 4, 5, 6, 7, 8]\nflood = ["
        )?;
        for remote in 0..REMOTES {
            let number = remote.saturating_add(10);
            if remote % 2 == 0 {
                write!(text, "\"192.0.2.{number}\", ")?;
            } else {
                write!(text, "\"2001:db8::{number:x}\", ")?;
            }
        }
        text.push_str("]\n")?;
    }
    Ok(text)
}

/// Where records go: a classic capture for each port and for the underlay, or one pcapng text with an interface for each.
#[derive(Drop)]
pub struct Captures {
    pub tapes: Vec<Tape>,
    is_one: bool,
}

impl Captures {
    /// Room for so many events at so many ports.
    pub fn new(alloc: Global, ports: usize, events: u32) -> Result<Captures, AllocError> {
        let room = (events as usize)
            .saturating_mul(RECORD)
            .saturating_add(100_000);
        let mut tapes = Vec::new(alloc);
        for _port in 0..ports {
            tapes.push(Tape::new(alloc, room / ports.max(1))?)?;
        }
        tapes.push(Tape::new(alloc, room)?)?;
        Ok(Captures {
            tapes,
            is_one: false,
        })
    }

    /// Room for so many in one file.
    pub fn in_one(alloc: Global, events: u32) -> Result<Captures, AllocError> {
        let room = (events as usize)
            .saturating_mul(RECORD + 16)
            .saturating_add(100_000);
        let mut tapes = Vec::new(alloc);
        tapes.push(Tape::new(alloc, room)?)?;
        Ok(Captures {
            tapes,
            is_one: true,
        })
    }

    /// Begins anew.
    pub fn begin(&mut self) {
        for tape in &mut self.tapes {
            if self.is_one {
                tape.begin_interfaces(PORTS + 1);
            } else {
                tape.begin_capture();
            }
        }
    }

    /// The capture of this number; the first one where there is none.
    pub fn text(&self, number: usize) -> &[u8] {
        match self.tapes.get(number) {
            Some(tape) => tape.text(),
            None => &[],
        }
    }

    /// The underlay's capture.
    pub fn underlay(&self) -> &[u8] {
        match self.tapes.last() {
            Some(tape) => tape.text(),
            None => &[],
        }
    }

    /// Puts a record of a head and a body that comes at a place.
    #[inline(always)]
    pub fn put(&mut self, place: usize, moment: u64, head: &[u8], body: &[u8]) {
        let size = head.len().saturating_add(body.len());
        let number = if self.is_one { 0 } else { place };
        let Some(tape) = self.tapes.get_mut(number) else {
            return;
        };
        if self.is_one {
            tape.begin_block(u32::try_from(place).unwrap_or(0), moment, size);
        } else {
            tape.begin_record(moment, size);
        }
        tape.put(head);
        tape.put(body);
        if self.is_one {
            tape.end_block(size);
        }
    }
}

/// What comes to a switch, event by event.
#[derive(Drop)]
pub struct Traffic {
    draws: Draws,
    bodies: Bodies,
    /// For each segment, remote endpoint and number of Geneve options the head of a packet.
    heads: Vec<Head>,
    /// The moment of the last event.
    moment: u64,
    /// How many stations each segment has.
    stations: u32,
}

/// How many numbers of options there are.
const OPTIONS: u32 = 4;

impl Traffic {
    /// That of a seed, with so many stations in each segment.
    pub fn new(alloc: Global, draws: Draws, stations: u32) -> Result<Traffic, AllocError> {
        let mut draws = draws;
        let bodies = Bodies::new(alloc, &mut draws)?;
        let mut heads = Vec::new(alloc);
        for segment in 0..SEGMENTS {
            for remote in 10..10 + REMOTES as u8 {
                for options in 0..OPTIONS as u8 {
                    let tunnel = Tunnel {
                        is_geneve: segment % 2 == 1,
                        vni: FIRST_VNI.saturating_add(segment),
                        remote,
                        options,
                    };
                    heads.push(head_of(alloc, tunnel, 1)?)?;
                }
            }
        }
        Ok(Traffic {
            draws,
            bodies,
            heads,
            moment: 0,
            stations,
        })
    }

    /// The moment of the last event.
    pub fn moment(&self) -> u64 {
        self.moment
    }

    /// Begins captures anew and puts so many events: half of them from stations behind ports, half from stations behind remote
    /// endpoints, to stations of the same segment, one in fifty to everybody. Some segments have more of it than others.
    pub fn put(&mut self, captures: &mut Captures, events: u32) {
        captures.begin();
        self.moment = 1_000_000_000;
        for _event in 0..events {
            let first = self.draws.word();
            let second = self.draws.word();
            let segment = part_of(first, 0, SEGMENTS).min(part_of(first, 16, SEGMENTS));
            let from = part_of(second, 0, self.stations);
            let to = if part_of(first, 32, 50) == 0 {
                EVERYBODY
            } else {
                station(segment, part_of(second, 16, self.stations))
            };
            let step = u64::from(part_of(second, 32, 2000)).saturating_add(500);
            self.moment = self.moment.saturating_add(step);
            let body = self.bodies.at(part_of(first, 48, 384));
            self.put_event(captures, second, segment, from, to, body);
        }
    }
}

impl Traffic {
    /// Puts a frame of a station of a segment: the lower half of sixteen homes are ports, the upper remote endpoints.
    fn put_event(
        &self,
        captures: &mut Captures,
        drawn: u64,
        segment: u32,
        from: u32,
        to: [u8; 6],
        body: &Body,
    ) {
        let source = station(segment, from);
        let home = from.wrapping_mul(7).wrapping_add(segment.wrapping_mul(3)) % 16;
        let [a, b, c, d, e, f] = to;
        let [g, h, i, j, k, l] = source;
        if home < 8 {
            let [high, low] = u16::try_from(FIRST_VID.saturating_add(segment))
                .unwrap_or(1)
                .to_be_bytes();
            let head = [a, b, c, d, e, f, g, h, i, j, k, l, 0x81, 0, high, low];
            captures.put(home as usize, self.moment, &head, body.octets.as_slice());
            return;
        }
        let options = part_of(drawn, 48, OPTIONS);
        let number = segment
            .wrapping_mul(REMOTES)
            .wrapping_add(home.wrapping_sub(8))
            .wrapping_mul(OPTIONS)
            .wrapping_add(options);
        if let Some(head) = self.heads.get(number as usize) {
            let is_summed = drawn & 0x8000 == 0;
            let port = part_of(drawn, 40, 16_384).wrapping_add(0xC000);
            let mut room = [0; 160];
            let length = head.put(
                &mut room,
                &[a, b, c, d, e, f, g, h, i, j, k, l],
                body,
                u16::try_from(port).unwrap_or(0xC000),
                is_summed,
            );
            let head = room.as_slice().get(..length).unwrap_or(&[]);
            captures.put(PORTS, self.moment, head, body.octets.as_slice());
        }
    }
}
