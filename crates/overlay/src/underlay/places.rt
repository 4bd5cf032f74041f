//! The segments by their VIDs.
//!
//! The large rows (712 octets) stand behind an index. What else an endpoint keeps for each VID stands in lists of 4,096:
//! members (16 octets a VID for each 64 ports), shares of the tables (48), learning (1) and counts (328). These and the rows
//! here have no type of their own in common: it would put the index's load before each look-up of a step, and share some twenty
//! lines of look-ups.
ghost use Rattle.std.specs.Prelude.{◌≡◌, ◌≤◌, ◌<◌, ◌||◌, ◌++◌, ◌∷◌, [], get_or, IfOk, IsTrue, None, is_ok, is_some, length, OnOk, OnErr};
ghost use Rattle.std.specs.Option.{option_copied, option_map};
ghost use Rattle.std.specs.FinMap.{empty, get, insert, remove, len};
ghost use Rattle.overlay.specs.UnderlayFlood.{first, fault_of, add_faults, holds, without};
ghost use Rattle.overlay.specs.Overlay.{flood_in, flooding};
ghost use Rattle.overlay.specs.Seats.{occupied, is_wide_at, gives};

use crate::flood::{FloodFault, NotThere, Own, Room};
use crate::underlay::heads::SegmentHeads;
use crate::underlay::rooms::rooms;
use crate::underlay::{Segment, Tunnels};
use std::alloc::{AllocError, Global};
use std::marker::Model;
use wire::ether::Vid;
use wire::ip_udp::{Addr, Tunnel};

/// The numbers of 12 bits, of which VIDs are some.
const NUMBERS: usize = 4096;

/// A segment, its VID and the heads of its packets.
#[derive(Drop)]
struct Row {
    vid: Vid,
    segment: Segment,
    heads: SegmentHeads,
}

/// The segments with the heads of their packets, as many as it was opened for at most, seen by contracts as finite maps
/// from VIDs. One is found by one index. Only [`SegmentPlaces::open`] takes memory: each place has a room of its own, where
/// flood lists may have more entries than stand in them.
#[derive(Drop)]
pub(crate) struct SegmentPlaces {
    /// For each number of 12 bits the place in `rows` of the segment with this VID.
    index: Vec<Option<u16>>,
    /// The places of all segments, each with one or free.
    rows: Vec<Option<Row>>,
    /// The place behind the one that was taken last. Where it is free, the next segment gets it.
    next: usize,
    /// The most entries of a flood list.
    flood: u16,
    /// For each place of `rows` the room that its segment's flood list takes beyond 16 entries. Where the list has it, or such
    /// lists are none, there is none.
    rooms: Vec<Option<Room>>,
}

impl Model for SegmentPlaces {
    ghost use Rattle.std.specs.Prelude.{◌≡◌, ◌<◌, length};
    ghost use Rattle.std.specs.FinMap.{len};
    ghost use Rattle.overlay.specs.OverlayCode.{seats_code};
    ghost use Rattle.overlay.specs.Seats.{Seats, seated, occupied, Leads, HasRooms};

    ghost Value = { Seats };

    ghost coded = { seats_code };

    ghost view = { λ s. record {
      segments = seated (λ row. row.segment) s.rows.items s.index.items;
      heads = seated (λ row. row.heads) s.rows.items s.index.items;
      most = length s.rows.items;
      flood = s.flood;
    } };

    ghost invariant = { λ s. (4094 < length s.index.items)
        × (length s.rows.items < 65536)
        × Leads (λ row. row.vid) s.rows.items s.index.items
        × (occupied s.rows.items ≡ len (seated (λ row. row.segment) s.rows.items s.index.items))
        × HasRooms (λ row. row.segment.flood) s.flood s.rows.items s.rooms.items };
}

impl SegmentPlaces {
    /// No segment, and the places of so many, with flood lists of so many entries at most.
    pub(crate) fn open(alloc: Global, most: u16, flood: u16) -> Result<SegmentPlaces, AllocError>
        ensures { IfOk result (λ places. places ≡ record { segments = empty; heads = empty; most = most; flood = flood }) }
    {
        let mut index = Vec::with_capacity(alloc, NUMBERS)?;
        for _number in 0..NUMBERS {
            index.push(None)?;
        }
        let mut rows = Vec::with_capacity(alloc, usize::from(most))?;
        for _place in 0..usize::from(most) {
            rows.push(None)?;
        }
        Ok(SegmentPlaces {
            index,
            rows,
            next: 0,
            flood,
            rooms: rooms(alloc, most, flood)?,
        })
    }

    /// The row of the segment with this VID.
    fn row(&self, vid: Vid) -> Option<&Row>
        ensures segment { option_map (λ r. r.segment) (option_copied result) ≡ get self.now.segments vid }
        ensures heads { option_map (λ r. r.heads) (option_copied result) ≡ get self.now.heads vid }
    {
        match self.index[usize::from(vid.get())] {
            Some(place) => self.rows[usize::from(place)].as_ref(),
            None => None,
        }
    }

    /// The segment with this VID.
    pub(crate) fn get(&self, vid: Vid) -> Option<&Segment>
        ensures { option_copied result ≡ get self.now.segments vid }
    {
        Some(&self.row(vid)?.segment)
    }

    /// The heads of the packets of the segment with this VID.
    pub(crate) fn heads(&self, vid: Vid) -> Option<&SegmentHeads>
        ensures { option_copied result ≡ get self.now.heads vid }
    {
        Some(&self.row(vid)?.heads)
    }

    /// How many segments there are.
    pub(crate) fn len(&self) -> usize
        ensures { result ≡ len self.now.segments }
    {
        occupied(&self.rows)
    }

    /// Puts a segment that isn't there at a free place, of which there is one.
    pub(crate) fn put(&mut self, vid: Vid, segment: Segment, heads: SegmentHeads)
        requires new { get self.old.segments vid ≡ None }
        requires room { len self.old.segments < self.old.most }
        ensures { self.new ≡ record self.old { segments = insert self.old.segments vid segment; heads = insert self.old.heads vid heads } }
    {
        let place = free_place(&self.rows, self.next);
        self.rows[place] = Some(Row {
            vid,
            segment,
            heads,
        });
        self.index[usize::from(vid.get())] = Some(place as u16);
        self.next = place + 1;
    }

    /// Takes the segment with this VID from its place, which is free then, and answers its tunnels.
    pub(crate) fn take(&mut self, vid: Vid) -> Option<Tunnels>
        ensures taken { result ≡ option_map (λ g. g.tunnels) (get self.old.segments vid) }
        ensures left { self.new ≡ record self.old { segments = remove self.old.segments vid; heads = remove self.old.heads vid } }
    {
        match self.index[usize::from(vid.get())].take() {
            Some(place) => {
                let row = self.rows[usize::from(place)].take();
                emptied(row, &mut self.rooms[usize::from(place)])
            }
            None => None,
        }
    }

    /// Puts an entry last on the flood list of a segment that is there. A list that refuses stays as it was.
    pub(crate) fn add_flood(
        &mut self,
        vid: Vid,
        kind: Tunnel,
        addr: Addr,
        own: &Own,
    ) -> Result<(), FloodFault>
        requires there { IsTrue (is_some (get self.old.segments vid)) }
        ensures fault { fault_of result ≡ first (add_faults own.now self.old.flood (flood_in self.old.segments vid) kind addr) }
        ensures added { OnOk result
            (self.new.segments
            ≡ flooding self.old.segments vid (flood_in self.old.segments vid ++ record { tunnel = kind; addr = addr } ∷ [])) }
        ensures refused { OnErr result (self.new.segments ≡ self.old.segments) }
        ensures heads { self.new.heads ≡ self.old.heads }
        ensures most { self.new.most ≡ self.old.most }
        ensures lists { self.new.flood ≡ self.old.flood }
    {
        let place = usize::from(self.index[usize::from(vid.get())].unwrap());
        let row = self.rows[place].as_mut().unwrap();
        let room = &mut self.rooms[place];
        row.segment.flood.add(kind, addr, own, self.flood, room)
    }

    /// Takes an entry from the flood list of a segment that is there. A list that refuses stays as it was.
    pub(crate) fn remove_flood(
        &mut self,
        vid: Vid,
        kind: Tunnel,
        addr: Addr,
    ) -> Result<(), NotThere>
        requires there { IsTrue (is_some (get self.old.segments vid)) }
        ensures there { is_ok result ≡ holds (flood_in self.old.segments vid) kind addr }
        ensures removed { OnOk result
            (self.new.segments ≡ flooding self.old.segments vid (without (flood_in self.old.segments vid) kind addr)) }
        ensures refused { OnErr result (self.new.segments ≡ self.old.segments) }
        ensures heads { self.new.heads ≡ self.old.heads }
        ensures most { self.new.most ≡ self.old.most }
        ensures lists { self.new.flood ≡ self.old.flood }
    {
        let place = usize::from(self.index[usize::from(vid.get())].unwrap());
        let row = self.rows[place].as_mut().unwrap();
        let removed = row.segment.flood.remove(kind, addr);
        given_back(removed, &mut self.rooms[place])
    }
}

/// The tunnels of a row's segment. The room of its flood list goes back to its place.
fn emptied(row: Option<Row>, room: &mut Option<Room>) -> Option<Tunnels>
    ensures tunnels { result ≡ option_map (λ r. r.segment.tunnels) row }
    ensures room { is_some room.new ≡ is_some room.old || is_wide_at (λ r. r.segment.flood) row }
{
    let Segment { tunnels, flood, .. } = row?.segment;
    keep(flood.into_room(), room);
    Some(tunnels)
}

/// Keeps the room that a list gave back, and answers whether the list gave up an entry.
fn given_back(
    removed: Result<Option<Room>, NotThere>,
    room: &mut Option<Room>,
) -> Result<(), NotThere>
    ensures there { is_ok result ≡ is_ok removed }
    ensures room { is_some room.new ≡ is_some room.old || gives removed }
{
    keep(removed?, room);
    Ok(())
}

/// Keeps a room that was given back, where there is none.
fn keep(given: Option<Room>, room: &mut Option<Room>)
    ensures { is_some room.new ≡ is_some room.old || is_some given }
{
    if room.is_none() {
        *room = given;
    }
}

/// How many places have a segment.
fn occupied(rows: &[Option<Row>]) -> usize
    ensures { result ≡ occupied rows.now }
{
    let mut count = 0;
    for row in rows {
        if row.is_some() {
            count += 1;
        }
    }
    count
}

/// A free place: the likely one, or else the first. So where segments only come, as at the opening, none is searched for.
fn free_place(rows: &[Option<Row>], likely: usize) -> usize
    requires { occupied rows.now < length rows.now }
    ensures there { result < length rows.now }
    ensures free { get_or rows.now result None ≡ None }
{
    if likely < rows.len() && rows[likely].is_none() {
        return likely;
    }
    for place in 0..rows.len() {
        if rows[place].is_none() {
            return place;
        }
    }
    unreachable!()
}
