//! A run of a leaf switch of many ports and segments, each of which floods to many other leaves.

use crate::devices::written;
use crate::digest::Digest;
use crate::draws::{Draws, part_of};
use crate::fault::JobFault;
use crate::frames::{Bodies, EVERYBODY, Frame, Outer};
use crate::tape::{Tape, tapes};
use std::alloc::{AllocError, Global};
use std::fmt::Write;

/// How many ports there are, and how many of them a segment has.
const PORTS: u32 = 64;

const MEMBERS: u32 = 8;

/// How many segments there are, of VIDs from this one on, and VNIs from that.
const SEGMENTS: u32 = 1000;

const FIRST_VID: u32 = 2;

const FIRST_VNI: u32 = 10_000;

/// How many other leaves there are, and the last octet of the first one's address.
const LEAVES: u32 = 128;

const FIRST_LEAF: u32 = 2;

/// How many stations a segment has at most: as many as it has entries.
const STATIONS: u32 = 256;

/// How many octets there is room for in the capture of each port, and of the underlay, for each event: some twice and one and a
/// half times what comes there.
const PORT_ROOM: usize = 12;

const UNDERLAY_ROOM: usize = 320;

/// What the settings begin with.
fn limits<'a>() -> &'a str {
    "version = 3\n[limits]\nports = 64\nsegments = 1000\nflood = 128\naddresses = 256000\n"
}

/// What they say of the underlay.
fn underlay<'a>() -> &'a str {
    "[underlay]\nmac = \"02:00:00:00:aa:01\"\nnext_hop = \"02:00:00:00:aa:02\"\nip4 = \"192.0.2.1\"\n"
}

/// Settings of the leaf.
fn settings_of(alloc: Global) -> Result<String, AllocError> {
    let leaves = other_leaves(alloc)?;
    let mut text = String::new(alloc);
    text.push_str(limits())?;
    text.push_str(underlay())?;
    for _port in 0..PORTS {
        text.push_str("[[port]]\npvid = 1\naccept = \"tagged\"\n")?;
    }
    for segment in 0..SEGMENTS {
        put_segment(&mut text, segment, leaves.as_str())?;
    }
    Ok(text)
}

/// The addresses of the other leaves.
fn other_leaves(alloc: Global) -> Result<String, AllocError> {
    let mut text = String::new(alloc);
    for leaf in 0..LEAVES {
        let number = leaf.saturating_add(FIRST_LEAF);
        write!(text, "\"192.0.2.{number}\", ")?;
    }
    Ok(text)
}

/// Puts what the settings say of a segment.
fn put_segment(text: &mut String, segment: u32, leaves: &str) -> Result<(), AllocError> {
    let vid = FIRST_VID.saturating_add(segment);
    let vni = FIRST_VNI.saturating_add(segment);
    write!(text, "[[segment]]\nvid = {vid}\ntagged = [")?;
    for number in 0..MEMBERS {
        let port = member(segment, number).saturating_add(1);
        write!(text, "{port}, ")?;
    }
    write!(
        text,
        "]\n[[segment.tunnel]]\nkind = \"vxlan\"\nvni = {vni}\n"
    )?;
    text.push_str("flood = [")?;
    text.push_str(leaves)?;
    text.push_str("]\n")
}

/// The port, counted from 0, that is a segment's member of this number. A port's segments are 125 side by side, and so are their
/// VIDs; behind the last segment stands the first.
fn member(segment: u32, number: u32) -> u32 {
    let first = segment.wrapping_mul(PORTS) / SEGMENTS;
    first.wrapping_add(number) % PORTS
}

/// Whether a segment's station of this number is behind another leaf, and not at a port.
fn is_remote(station: u32) -> bool {
    station % 2 == 0
}

/// Which station of a segment sends to which.
#[derive(Clone, Copy)]
struct Pair {
    from: u32,
    to: u32,
}

/// Who sends in a segment in which so many stations were heard: of a hundred frames, two are to everybody, from a station at a
/// port that was heard; ninety are from one that was heard to one that was heard, but not from behind a leaf to behind a leaf;
/// and with eight, and the first two of each segment, a station is heard first: behind another leaf it greets everybody, and at a
/// port it sends to one that was heard.
fn pair_of(heard: u32, drawn: u64) -> Pair {
    let kind = part_of(drawn, 32, 100);
    if heard < 2 || kind >= 92 && heard < STATIONS {
        let old = part_of(drawn, 16, heard);
        return Pair {
            from: heard,
            to: if is_remote(heard) { EVERYBODY } else { old },
        };
    }
    if kind < 2 {
        return Pair {
            from: port_station(heard, drawn, 0),
            to: EVERYBODY,
        };
    }
    let from = part_of(drawn, 0, heard);
    let to = if is_remote(from) {
        port_station(heard, drawn, 16)
    } else {
        part_of(drawn, 16, heard)
    };
    Pair {
        from,
        to: if to == from { from.wrapping_sub(1) } else { to },
    }
}

/// One of the stations at ports among those that were heard.
fn port_station(heard: u32, drawn: u64, place: u32) -> u32 {
    part_of(drawn, place, heard / 2)
        .wrapping_mul(2)
        .wrapping_add(1)
}

/// How many octets a capture of so many events has room for, where each takes so many.
fn room_of(events: u32, each: usize) -> usize {
    (events as usize)
        .saturating_mul(each)
        .saturating_add(100_000)
}

/// A capture of each port, and behind them that of the underlay.
#[derive(Drop)]
struct Traffic {
    bodies: Bodies,
    draws: Draws,
    tapes: Vec<Tape>,
    /// For each segment how many of its stations were heard.
    heard: Vec<u32>,
}

impl Traffic {
    /// Room for so many events.
    fn new(alloc: Global, draws: Draws, events: u32) -> Result<Traffic, AllocError> {
        let mut draws = draws;
        let bodies = Bodies::new(alloc, &mut draws)?;
        let mut tapes = tapes(alloc, PORTS as usize, room_of(events, PORT_ROOM))?;
        tapes.push(Tape::new(alloc, room_of(events, UNDERLAY_ROOM))?)?;
        Ok(Traffic {
            bodies,
            draws,
            tapes,
            heard: vec![in alloc; 0u32; SEGMENTS as usize]?,
        })
    }

    /// Makes so many events, in place of those before. Some segments have more of them than others.
    fn make(&mut self, events: u32) {
        for tape in &mut self.tapes {
            tape.begin_capture();
        }
        for heard in &mut self.heard {
            *heard = 0;
        }
        let mut moment: u64 = 1_000_000_000;
        for number in 0..events {
            let drawn = self.draws.word();
            let second = self.draws.word();
            let step = u64::from(part_of(drawn, 32, 2000)).saturating_add(500);
            moment = moment.saturating_add(step);
            let segment = part_of(drawn, 16, SEGMENTS).min(part_of(second, 48, SEGMENTS));
            let pair = self.next_pair(segment, second);
            let first = segment.wrapping_mul(STATIONS);
            let frame = Frame {
                to: if pair.to == EVERYBODY {
                    EVERYBODY
                } else {
                    first.wrapping_add(pair.to)
                },
                from: first.wrapping_add(pair.from),
                number: u64::from(number),
                drawn,
            };
            self.put(moment, segment, pair.from, frame);
        }
    }

    /// Who sends next in a segment. The sender counts as heard.
    fn next_pair(&mut self, segment: u32, drawn: u64) -> Pair {
        let Some(heard) = self.heard.get_mut(segment as usize) else {
            return pair_of(0, drawn);
        };
        let pair = pair_of(*heard, drawn);
        *heard = (*heard).max(pair.from.saturating_add(1));
        pair
    }

    /// Puts a frame of a segment that comes from the place of this station of it.
    fn put(&mut self, moment: u64, segment: u32, station: u32, frame: Frame) {
        let number = (station / 2).wrapping_add(segment);
        let place = if is_remote(station) {
            PORTS
        } else {
            member(segment, number % MEMBERS)
        };
        let Some(tape) = self.tapes.get_mut(place as usize) else {
            return;
        };
        if is_remote(station) {
            let outer = Outer {
                is_geneve: false,
                vni: FIRST_VNI.saturating_add(segment),
                from: octet_of(FIRST_LEAF.wrapping_add(number % LEAVES)),
                to: 1,
                limit: 64,
                number: 0,
                source_port: 0xC001,
            };
            self.bodies.put_packet(tape, moment, outer, frame);
        } else {
            let vid = u16::try_from(FIRST_VID.saturating_add(segment)).unwrap_or(1);
            self.bodies.put_tagged(tape, moment, vid, frame);
        }
    }
}

/// A number as an octet.
fn octet_of(number: u32) -> u8 {
    u8::try_from(number).unwrap_or(u8::MAX)
}

/// Runs over captures of the leaf, made anew in each round, from the text of its settings on.
pub fn leaf(
    alloc: Global,
    digest: &mut Digest,
    draws: Draws,
    rounds: u32,
    events: u32,
) -> Result<(), JobFault> {
    let settings = settings_of(alloc)?;
    let mut traffic = Traffic::new(alloc, draws, events)?;
    for _round in 0..rounds {
        traffic.make(events);
        let tapes = traffic.tapes.as_slice();
        let word = written(alloc, settings.as_bytes(), tapes, PORTS as usize, false)?;
        digest.add_number(word);
    }
    Ok(())
}
