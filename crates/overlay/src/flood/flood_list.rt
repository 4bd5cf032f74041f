//! A flood list.
ghost use Rattle.std.specs.Prelude.{◌≡◌, ◌≤◌, ◌==◌, ◌&&◌, ◌||◌, [], ◌∷◌, ◌++◌, IsTrue, None, length, if◌then◌else◌};
ghost use Rattle.std.specs.Prelude.{is_ok, is_some, IfOk, OnOk, OnErr};
ghost use Rattle.std.specs.List.{position};
ghost use Rattle.overlay.specs.First.{first, fault_of};
ghost use Rattle.overlay.specs.Flood.{IsWithoutRepeats, is_entry, is_wide, holds, add_faults, has_room, without};

use crate::flood::stored::Stored;
use crate::flood::{FloodFault, NotThere, Own, Remote, Room};
use std::marker::Model;
use wire::ip_udp::{Addr, Tunnel};

/// The most entries of a list, whatever its limit.
const MOST_ENTRIES: u16 = 512;

/// At most 512 remote endpoints, none of them twice, in the order in which they were added; seen by contracts as their
/// list. Up to 16 stand in the list itself; with the 17th it takes a [`Room`], and gives it back with it.
#[derive(Debug, Drop)]
pub struct FloodList {
    entries: Stored,
}

impl Model for FloodList {
    ghost use Rattle.overlay.specs.Flood.{Entries, IsWithoutRepeats};

    ghost Value = { Entries };

    ghost view = { λ l. l.entries };

    ghost invariant = { λ l. IsWithoutRepeats l.entries };
}

impl FloodList {
    /// An empty list.
    pub fn new() -> FloodList
        ensures { result ≡ [] }
    {
        FloodList {
            entries: Stored::new(),
        }
    }

    /// Puts an entry last, where there are fewer than so many, and than 512. The 17th takes the room, which is there then. A
    /// list that refuses stays as it was.
    pub fn add(
        &mut self,
        tunnel: Tunnel,
        addr: Addr,
        own: &Own,
        most: u16,
        room: &mut Option<Room>,
    ) -> Result<(), FloodFault>
        requires { IsTrue (has_room most self.old room.old) }
        ensures fault { fault_of result ≡ first (add_faults own.now most self.old tunnel addr) }
        ensures added { OnOk result (self.new ≡ self.old ++ record { tunnel = tunnel; addr = addr } ∷ []) }
        ensures refused { OnErr result (self.new ≡ self.old) }
        ensures room { room.new ≡ (if is_ok result && length self.old == 16 then None else room.old) }
        ensures kept { (is_some room.new || is_wide self.new) ≡ (is_some room.old || is_wide self.old) }
    {
        if !addr.is_usable() {
            return Err(FloodFault::OutOfRange);
        }
        if !own.has_family(addr) {
            return Err(FloodFault::NoFamily);
        }
        if own.is_own(addr) {
            return Err(FloodFault::OwnAddress);
        }
        if self.holds(tunnel, addr) {
            return Err(FloodFault::AlreadyThere);
        }
        if self.targets().len() >= usize::from(most.min(MOST_ENTRIES)) {
            return Err(FloodFault::FloodFull);
        }
        self.entries.push(Remote { tunnel, addr }, room);
        Ok(())
    }

    /// Takes an entry out; those behind it move up. Where 16 are left of 17, the room comes back. `NotThere`: it isn't on the
    /// list, which stays as it was.
    pub fn remove(&mut self, tunnel: Tunnel, addr: Addr) -> Result<Option<Room>, NotThere>
        ensures there { is_ok result ≡ holds self.old tunnel addr }
        ensures removed { OnOk result (self.new ≡ without self.old tunnel addr) }
        ensures refused { OnErr result (self.new ≡ self.old) }
        ensures room { IfOk result (λ room. is_some room ≡ (length self.old == 17)) }
        ensures kept { IfOk result (λ room. (is_some room || is_wide self.new) ≡ is_wide self.old) }
    {
        let Some(place) = self.place(tunnel, addr) else {
            return Err(NotThere);
        };
        Ok(self.entries.remove(place))
    }

    /// The room of the list, which one of more than 16 entries has.
    pub fn into_room(self) -> Option<Room>
        ensures { is_some result ≡ is_wide self }
    {
        self.entries.into_room()
    }

    /// Whether an entry is on the list.
    pub fn holds(&self, tunnel: Tunnel, addr: Addr) -> bool
        ensures { result ≡ holds self.now tunnel addr }
    {
        self.place(tunnel, addr).is_some()
    }

    /// The entries, in the order in which they were added.
    pub fn targets(&self) -> &[Remote]
        ensures value { result.now ≡ self.now }
        ensures few { length result.now ≤ 512 }
        ensures no_repeats { IsWithoutRepeats result.now }
    {
        self.entries.as_slice()
    }

    /// The place of an entry, from 0.
    fn place(&self, tunnel: Tunnel, addr: Addr) -> Option<usize>
        ensures { result ≡ position (is_entry tunnel addr) self.now }
    {
        self.targets()
            .iter()
            .position(|entry| entry.tunnel == tunnel && entry.addr == addr)
    }
}
