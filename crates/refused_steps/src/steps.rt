//! Steps of every kind.
ghost use Rattle.std.specs.Prelude.{◌≤◌, length};
ghost use Rattle.endpoint_core.specs.Kept.{state_of};
ghost use Rattle.endpoint_core.specs.Outlets.{HasFewOutlets};

use crate::events::{frame_of, packet_of, place_of, renumbered};
use crate::summary::{mixed, with_decision};
use endpoint_core::{Change, Endpoint};
use overlay_config::{NewSegment, TimedChange};

/// How many rounds there are of changes of every kind.
const ROUNDS: u16 = 20;

/// How often a segment comes and goes at an endpoint and at its twin, and how often at the endpoint alone.
const COMES: u16 = 100;

const COMES_ALONE: u16 = 900;

/// How many changes are made at both: 20 in each round, 253 segments come and stay, and 5 each time that one comes and
/// goes; and how many at the endpoint alone.
const MADE: u32 = 1_153;

const MADE_ALONE: u32 = 4_500;

/// What came of steps.
#[derive(Clone, Copy)]
pub(crate) struct Tally {
    /// How many frames came, over and over from 0 to 255.
    n: u8,
    /// How many changes were made.
    made: u32,
    /// A number made of all that was decided, and of why changes were refused.
    number: u64,
}

impl Tally {
    /// Before the first step.
    fn new() -> Tally {
        Tally {
            n: 0,
            made: 0,
            number: 0,
        }
    }

    /// Whether as much came of other steps, and all changes were made that can be.
    pub(crate) fn is_as(&self, other: Tally) -> bool {
        self.number == other.number && self.made == other.made && self.made == MADE
    }
}

/// The endpoint's moment and a second more.
pub(crate) fn later(endpoint: &Endpoint) -> u64
    ensures { (state_of endpoint.now).moment ≤ result }
{
    let now = endpoint.now();
    match now.checked_add(1_000_000_000) {
        Some(later) => later,
        None => now,
    }
}

/// A number with what is decided of a frame mixed in.
fn decided_at(endpoint: &mut Endpoint, now: u64, port: u8, octets: &[u8], number: u64) -> u64
    requires moment { (state_of endpoint.old).moment ≤ now }
    requires low { 1 ≤ port }
    requires high { port ≤ length (state_of endpoint.old).bridges.settings.ports.ports }
    requires few { HasFewOutlets (state_of endpoint.old).bridges.settings }
{
    with_decision(number, &endpoint.frame(now, port, 18, octets))
}

/// A number with what is decided of a packet mixed in.
fn decided_by(endpoint: &mut Endpoint, now: u64, octets: &[u8], number: u64) -> u64
    requires moment { (state_of endpoint.old).moment ≤ now }
    requires few { HasFewOutlets (state_of endpoint.old).bridges.settings }
{
    with_decision(number, &endpoint.packet(now, 110, octets))
}

/// Makes a change or refuses it.
fn change(endpoint: &mut Endpoint, now: u64, change: Change, tally: &mut Tally)
    requires { (state_of endpoint.old).moment ≤ now }
{
    match endpoint.change(now, change) {
        Ok(()) => tally.made = tally.made.saturating_add(1),
        Err(fault) => tally.number = mixed(tally.number, u64::from(fault.number())),
    }
}

/// A frame comes a second later.
fn frame(endpoint: &mut Endpoint, port: u8, octets: &[u8], number: u64) -> u64 {
    if port == 0 || port > endpoint.ports() || !endpoint.has_few_outlets() {
        return number;
    }
    let now = later(endpoint);
    decided_at(endpoint, now, port, octets, number)
}

/// A packet comes a second later.
fn packet(endpoint: &mut Endpoint, octets: &[u8], number: u64) -> u64 {
    if !endpoint.has_few_outlets() {
        return number;
    }
    let now = later(endpoint);
    decided_by(endpoint, now, octets, number)
}

/// A change is asked for a second later.
fn ask(endpoint: &mut Endpoint, asked: Change, tally: &mut Tally) {
    let now = later(endpoint);
    change(endpoint, now, asked, tally);
}

/// The next frame and the next packet come.
fn come(endpoint: &mut Endpoint, tally: &mut Tally) {
    let n = tally.n;
    let (port, vid) = place_of(n);
    tally.number = frame(endpoint, port, &frame_of(n, vid), tally.number);
    tally.number = packet(endpoint, &packet_of(n), tally.number);
    tally.n = n.wrapping_add(1);
}

/// Changes, with a frame and a packet in front of each.
fn round(endpoint: &mut Endpoint, changes: &[TimedChange], tally: &mut Tally) {
    for timed in changes {
        come(endpoint, tally);
        ask(endpoint, timed.change, tally);
    }
}

/// So many rounds of changes.
fn rounds(endpoint: &mut Endpoint, changes: &[TimedChange], count: u16, tally: &mut Tally) {
    for _ in 0..count {
        round(endpoint, changes, tally);
    }
}

/// Adds segments like this one, of the VIDs 1 to 256 but 10 and 20, which are there, and its own.
fn fill(endpoint: &mut Endpoint, segment: &NewSegment, tally: &mut Tally) {
    for vid in 1..=256u16 {
        if let Some(other) = renumbered(segment, vid) {
            ask(endpoint, Change::AddSegment(other), tally);
        }
    }
}

/// The segment that the first change adds.
fn added(changes: &[TimedChange]) -> Option<NewSegment> {
    match changes.first()?.change {
        Change::AddSegment(segment) => Some(segment),
        _ => None,
    }
}

/// Takes steps of every kind, then adds segments until there are 255, and then has one more come and go.
pub(crate) fn taken(
    endpoint: &mut Endpoint,
    kinds: &[TimedChange],
    segment: &[TimedChange],
) -> Tally {
    let mut tally = Tally::new();
    rounds(endpoint, kinds, ROUNDS, &mut tally);
    if let Some(new) = added(segment) {
        fill(endpoint, &new, &mut tally);
    }
    rounds(endpoint, segment, COMES, &mut tally);
    tally
}

/// Has the segment come and go at an endpoint from then on. Whether all changes were made.
pub(crate) fn taken_alone(endpoint: &mut Endpoint, segment: &[TimedChange]) -> bool {
    let mut tally = Tally::new();
    rounds(endpoint, segment, COMES_ALONE, &mut tally);
    tally.made == MADE_ALONE
}
