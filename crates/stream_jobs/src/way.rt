//! Two captures of one way, what was sent and what was received, made of a seed with loss, doubling, changed octets and delay, and
//! how many of their records are of one or both.

use crate::draws::{Draws, part_of};
use crate::frames::{Bodies, Frame, Outer, VNI};
use crate::tape::Tape;
use std::alloc::{AllocError, Global};

/// How many nanoseconds later a record may be received.
pub const WITHIN: u64 = 2_000_000;

/// How many nanoseconds the way takes, and how many more it takes for a record that is late.
const DELAY: u64 = 20_000;

const MORE: u64 = 50_000;

/// How many octets a record takes at most on average, with its header.
const RECORD: usize = 480;

/// Where the captures are made.
#[derive(Clone, Copy)]
pub enum Place {
    /// At a port: frames.
    Port,
    /// At the underlay: packets in tunnels, in which the way changes what isn't compared.
    Underlay,
}

/// What happens to a record on its way.
#[derive(Clone, Copy)]
enum Fate {
    InTime,
    Lost,
    Doubled,
    Changed,
    Late,
    TooLate,
}

/// The fate of this number, of 1,024.
fn fate_of(number: u32) -> Fate {
    match number {
        0..16 => Fate::Lost,
        16..24 => Fate::Doubled,
        24..28 => Fate::Changed,
        28..36 => Fate::Late,
        36..38 => Fate::TooLate,
        _ => Fate::InTime,
    }
}

/// A record that is on its way until a moment.
#[derive(Clone, Copy)]
struct Held {
    frame: Frame,
    due: u64,
}

/// How many records were sent, were received, and are both.
#[derive(Clone, Copy)]
pub struct Counts {
    pub sent: u64,
    pub received: u64,
    pub both: u64,
}

/// Two captures of one way.
#[derive(Drop)]
pub struct Way {
    bodies: Bodies,
    draws: Draws,
    sent: Tape,
    received: Tape,
    counts: Counts,
    /// The moment of the last record that was sent.
    moment: u64,
    late: Option<Held>,
    too_late: Option<Held>,
}

impl Way {
    /// Room for captures of so many records that are sent.
    pub fn new(alloc: Global, draws: Draws, records: u32) -> Result<Way, AllocError> {
        let mut draws = draws;
        let bodies = Bodies::new(alloc, &mut draws)?;
        let room = (records as usize)
            .saturating_mul(RECORD)
            .saturating_add(100_000);
        Ok(Way {
            bodies,
            draws,
            sent: Tape::new(alloc, room)?,
            received: Tape::new(alloc, room)?,
            counts: Counts {
                sent: 0,
                received: 0,
                both: 0,
            },
            moment: 0,
            late: None,
            too_late: None,
        })
    }

    /// What was sent.
    pub fn sent(&self) -> &[u8] {
        self.sent.text()
    }

    /// What was received.
    pub fn received(&self) -> &[u8] {
        self.received.text()
    }

    /// How many records these captures have, and how many are both.
    pub fn counts(&self) -> Counts {
        self.counts
    }

    /// Makes captures of so many records that are sent, in place of those before.
    pub fn make(&mut self, place: Place, records: u32) {
        self.sent.begin_capture();
        self.received.begin_capture();
        self.counts = Counts {
            sent: 0,
            received: 0,
            both: 0,
        };
        self.moment = 1_000_000_000;
        self.late = None;
        self.too_late = None;
        for number in 0..records {
            let drawn = self.draws.word();
            let step = u64::from(part_of(drawn, 32, 2000)).saturating_add(500);
            self.moment = self.moment.saturating_add(step);
            let frame = Frame {
                to: part_of(drawn, 16, 200),
                from: part_of(drawn, 48, 200),
                number: u64::from(number),
                drawn,
            };
            let fate = fate_of(part_of(self.draws.word(), 0, 1024));
            self.send(place, frame);
            self.go(place, frame, fate);
            self.catch_up(place);
        }
    }

    /// Puts a record that is sent.
    fn send(&mut self, place: Place, frame: Frame) {
        let outer = Outer {
            is_geneve: frame.number % 2 == 1,
            vni: VNI,
            from: 1,
            to: 2,
            limit: 64,
            number: 0,
            source_port: 0xC001,
        };
        match place {
            Place::Port => self.bodies.put_frame(&mut self.sent, self.moment, frame),
            Place::Underlay => self
                .bodies
                .put_packet(&mut self.sent, self.moment, outer, frame),
        }
        self.counts.sent = self.counts.sent.saturating_add(1);
    }

    /// Puts a record that is received now. At the underlay another sender wrote it, and a router passed it on.
    fn receive(&mut self, place: Place, frame: Frame) {
        let moment = self.moment.saturating_add(DELAY);
        let [a, b, _, _, _, _, _, _] = frame.number.to_le_bytes();
        let outer = Outer {
            is_geneve: frame.number % 2 == 1,
            vni: VNI,
            from: 1,
            to: 2,
            limit: 61,
            number: u16::from_le_bytes([a, b]),
            source_port: 0xD002,
        };
        match place {
            Place::Port => self.bodies.put_frame(&mut self.received, moment, frame),
            Place::Underlay => self
                .bodies
                .put_packet(&mut self.received, moment, outer, frame),
        }
        self.counts.received = self.counts.received.saturating_add(1);
    }

    /// Puts a record that is received and both.
    fn receive_both(&mut self, place: Place, frame: Frame) {
        self.receive(place, frame);
        self.counts.both = self.counts.both.saturating_add(1);
    }

    /// Lets a record meet its fate. One can be late, and one too late, at a time: others are in time.
    fn go(&mut self, place: Place, frame: Frame, fate: Fate) {
        match fate {
            Fate::Lost => {}
            Fate::Late if self.late.is_none() => {
                self.late = Some(Held {
                    frame,
                    due: self.moment.saturating_add(MORE),
                });
            }
            Fate::TooLate if self.too_late.is_none() => {
                self.too_late = Some(Held {
                    frame,
                    due: self.moment.saturating_add(WITHIN),
                });
            }
            Fate::Changed => {
                let number = frame.number ^ (1 << 40);
                self.receive(place, Frame { number, ..frame });
            }
            Fate::Doubled => {
                self.receive_both(place, frame);
                self.receive(place, frame);
            }
            _ => self.receive_both(place, frame),
        }
    }

    /// Puts those that were on their way until now.
    fn catch_up(&mut self, place: Place) {
        if let Some(held) = self.late {
            if held.due <= self.moment {
                self.late = None;
                self.receive_both(place, held.frame);
            }
        }
        if let Some(held) = self.too_late {
            if held.due <= self.moment {
                self.too_late = None;
                self.receive(place, held.frame);
            }
        }
    }
}
