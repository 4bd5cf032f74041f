//! Where a run put frames, held against the echoes that are met.
ghost use Rattle.std.specs.Prelude.{◌≡◌, ◌<◌, ◌≤◌, IfOk, length, slice_index};
ghost use Rattle.std.specs.List.{list_any};
ghost use Rattle.both_ways.specs.Placed.{echo_met, is_put_by, met, no_puts, ports_in, put_behind, with_put, with_room};
ghost use Rattle.both_ways.specs.Told.{place_of};

use crate::left_out::{Cause, LeftOut, place_in};
use crate::place::place_of;
use crate::sieve::{PLACES, count};
use echo_window::{Origin, PlaceSet};
use filter_db::Place;
use std::alloc::{AllocError, Global};
use std::collections::VecDeque;
use std::marker::Model;
use timeline::{Event, Tap};

/// How many frames are known at most: as many as may be met again.
const MOST_FRAMES: usize = 4_096;

/// A frame that a run put at ports.
#[derive(Drop)]
pub struct Put {
    /// Where it came in, and the number of its record there.
    place: u8,
    number: u64,
    ports: PlaceSet,
}

/// Where a run put the latest frames that it put at ports, at most 4,096 of them, and how many echoes were met where it put none.
/// Only [`Placed::new`] takes memory.
#[derive(Drop)]
pub struct Placed {
    /// The earliest first.
    puts: VecDeque<Put>,
    /// By the numbers of the places.
    unplaced: [u64; PLACES],
}

impl Model for Placed {
    ghost use Rattle.std.specs.Prelude.{◌≤◌, length};
    ghost use Rattle.std.specs.VecDeque.{deque_capacity};
    ghost use Rattle.both_ways.specs.Placed.{Placements};

    ghost Value = { Placements };

    ghost view = { λ p. record { puts = p.puts.items; counts = p.unplaced } };

    ghost invariant = { λ p. (length p.puts.items ≤ 4096) × (4096 ≤ deque_capacity p.puts) };
}

impl Placed {
    /// The run put no frame yet. `AllocError`: there was no memory for those that it may know.
    pub fn new(alloc: Global) -> Result<Placed, AllocError>
        ensures { IfOk result (λ placed. placed ≡ no_puts) }
    {
        Ok(Placed {
            puts: VecDeque::with_capacity(alloc, MOST_FRAMES)?,
            unplaced: [0; PLACES],
        })
    }

    /// The run puts the frame of an event at these places.
    #[inline]
    pub fn put(&mut self, event: &Event, places: &[Place])
        ensures { self.new ≡ put_behind self.old event.now places.now }
    {
        let ports = ports_in(places);
        if ports.is_empty() {
            return;
        }
        self.make_room();
        self.keep(Put {
            place: place_in(&event.happening),
            number: event.number,
            ports,
        });
    }

    /// A record that isn't input is met: an echo is counted where the run didn't put its frame.
    pub fn meet(&mut self, left: &LeftOut)
        ensures { self.new ≡ met self.old left.now }
    {
        if let Cause::Echo(origin) = left.cause {
            self.meet_echo(origin, left.place);
        }
    }

    /// How many echoes were met at a place where the run didn't put their frames, up to 2^64 - 1.
    pub fn unplaced(&self, tap: Tap) -> u64
        ensures { result ≡ slice_index self.now.counts (place_of tap) }
    {
        self.unplaced[usize::from(place_of(tap))]
    }

    /// Counts an echo at a place, where the run didn't put the frame that this record brought.
    fn meet_echo(&mut self, origin: Origin, place: u8)
        ensures { self.new ≡ echo_met self.old origin place }
    {
        if !is_put(&self.puts, origin, place) {
            count(&mut self.unplaced, place);
        }
    }

    /// Forgets the earliest frame where there is no room for another.
    #[inline]
    fn make_room(&mut self)
        ensures puts { self.new ≡ record self.old { puts = with_room self.old.puts } }
        ensures room { length self.new.puts < 4096 }
    {
        if self.puts.len() >= MOST_FRAMES {
            let _ = self.puts.pop_front();
        }
    }

    /// Keeps one more, for which there is room.
    #[inline]
    fn keep(&mut self, put: Put)
        requires { length self.old.puts < 4096 }
        ensures { self.new ≡ record self.old { puts = with_put self.old.puts put } }
    {
        self.puts.push_back_reserved(put);
    }
}

/// Whether one of these frames is that which a record brought, and was put at a place. The latest is looked at first.
fn is_put(puts: &VecDeque<Put>, origin: Origin, place: u8) -> bool
    ensures { result ≡ list_any (is_put_by origin place) puts.now.items }
{
    let mut left = puts.len();
    while left > 0 {
        left -= 1;
        if is_put_by(&puts[left], origin, place) {
            return true;
        }
    }
    false
}

/// Whether a frame is that which a record brought, and was put at a place.
fn is_put_by(put: &Put, origin: Origin, place: u8) -> bool
    ensures { result ≡ is_put_by origin place put.now }
{
    put.place == origin.place && put.number == origin.number && put.ports.has(place)
}

/// The local ports among some places.
#[inline]
fn ports_in(places: &[Place]) -> PlaceSet
    ensures { result ≡ ports_in places.now }
{
    let mut ports = PlaceSet::new();
    for place in places {
        if let Place::Local(port) = place {
            ports.add(*port);
        }
    }
    ports
}
