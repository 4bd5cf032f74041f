//! A run over captures that come through pipes.

use crate::devices::written;
use crate::digest::Digest;
use crate::draws::{Draws, part_of};
use crate::fault::{JobFault, Stage};
use crate::frames::{Bodies, EVERYBODY, Frame, Outer, VNI};
use crate::tape::{Tape, tapes};
use std::alloc::{AllocError, Global};

/// How many ports there are.
const PORTS: usize = 8;

/// How many stations there are, at the ports and behind the peer.
const STATIONS: u32 = 180;

/// How many octets a record takes at most on average, with its header.
const RECORD: usize = 480;

/// Settings of one segment at the ports.
fn settings_of(alloc: Global) -> Result<String, AllocError> {
    let mut text = String::new(alloc);
    text.push_str("version = 1\n[underlay]\nmac = \"02:00:00:00:aa:01\"\n")?;
    text.push_str(
        "next_hop = \"02:00:00:00:aa:02\"\nip4 = \"192.0.2.1\"\nip6 = \"2001:db8::1\"\n",
    )?;
    for _port in 0..PORTS {
        text.push_str("[[port]]\npvid = 10\n")?;
    }
    text.push_str("[[segment]]\nvid = 10\nvni = 5000\ntunnel = \"vxlan\"\n")?;
    text.push_str("untagged = [1, 2, 3, 4, 5, 6, 7, 8]\nflood = [\"192.0.2.2\"]\n")?;
    Ok(text)
}

/// A capture of each port, and behind them that of the underlay.
#[derive(Drop)]
struct Traffic {
    bodies: Bodies,
    draws: Draws,
    tapes: Vec<Tape>,
}

impl Traffic {
    /// Room for so many events.
    fn new(alloc: Global, draws: Draws, events: u32) -> Result<Traffic, AllocError> {
        let mut draws = draws;
        let bodies = Bodies::new(alloc, &mut draws)?;
        let room = (events as usize)
            .saturating_mul(RECORD / 4)
            .saturating_add(100_000);
        Ok(Traffic {
            bodies,
            draws,
            tapes: tapes(alloc, PORTS + 1, room)?,
        })
    }

    /// Makes so many events, in place of those before: frames of stations at the ports and behind the peer to one another, and one in
    /// fifty to everybody.
    fn make(&mut self, events: u32) {
        for tape in &mut self.tapes {
            tape.begin_capture();
        }
        let mut moment: u64 = 1_000_000_000;
        for number in 0..events {
            let drawn = self.draws.word();
            let second = self.draws.word();
            let step = u64::from(part_of(drawn, 32, 2000)).saturating_add(500);
            moment = moment.saturating_add(step);
            let is_for_all = part_of(second, 32, 50) == 0;
            let to = part_of(second, 16, STATIONS);
            let frame = Frame {
                to: if is_for_all { EVERYBODY } else { to },
                from: part_of(second, 0, STATIONS),
                number: u64::from(number),
                drawn,
            };
            self.put(moment, frame);
        }
    }

    /// Puts a frame that comes from its station's place.
    fn put(&mut self, moment: u64, frame: Frame) {
        let place = (frame.from % 9) as usize;
        let Some(tape) = self.tapes.get_mut(place) else {
            return;
        };
        if place < PORTS {
            self.bodies.put_frame(tape, moment, frame);
            return;
        }
        let outer = Outer {
            is_geneve: false,
            vni: VNI,
            from: 2,
            to: 1,
            limit: 64,
            number: 0,
            source_port: 0xC001,
        };
        self.bodies.put_packet(tape, moment, outer, frame);
    }
}

/// Runs over pipes, each of which is full. What the first one writes is what a run over the same as files does.
pub fn piped(
    alloc: Global,
    digest: &mut Digest,
    draws: Draws,
    rounds: u32,
    events: u32,
) -> Result<(), JobFault> {
    let settings = settings_of(alloc)?;
    let mut traffic = Traffic::new(alloc, draws, events)?;
    for round in 0..rounds {
        traffic.make(events);
        let tapes = traffic.tapes.as_slice();
        let word = written(alloc, settings.as_bytes(), tapes, PORTS, true)?;
        if round == 0 && written(alloc, settings.as_bytes(), tapes, PORTS, false)? != word {
            return Err(JobFault::Failed(Stage::Outputs));
        }
        digest.add_number(word);
    }
    Ok(())
}
