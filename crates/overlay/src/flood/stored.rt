//! Where the entries of a list stand.
ghost use Rattle.std.specs.Prelude.{◌≡◌, ◌≤◌, ◌<◌, ◌==◌, ◌||◌, [], ◌∷◌, ◌++◌, IsTrue, None, length, nat_le, not, if◌then◌else◌, is_some};
ghost use Rattle.std.specs.Prelude.{take, vec_capacity};
ghost use Rattle.std.specs.List.{remove};
ghost use Rattle.overlay.specs.Flood.{is_wide, room_for_one};

use crate::flood::{Remote, Room};
use arrayvec::ArrayVec;
use std::marker::Model;

/// The most entries that stand in the list itself.
const FEW: usize = 16;

/// At most 512 entries: up to 16 in place, more in a room. Seen by contracts as their list.
#[derive(Debug, Drop)]
pub(crate) struct Stored {
    /// The entries, where they are 16 at most.
    few: ArrayVec<Remote, FEW>,
    /// The entries, where they are more.
    many: Option<Vec<Remote>>,
}

impl Model for Stored {
    ghost use Rattle.std.specs.Prelude.{◌≡◌, ◌≤◌, ◌<◌, [], IfSome, length, vec_capacity};
    ghost use Rattle.std.specs.Option.{option_map_or};
    ghost use Rattle.overlay.specs.Flood.{Entries};

    ghost Value = { Entries };

    ghost view = { λ s. option_map_or (λ many. many.items) s.many s.few.items };

    ghost invariant = { λ s. (length s.few.items ≤ 16)
        × IfSome s.many (λ many. (s.few.items ≡ [])
        × (16 < length many.items) × (length many.items ≤ 512) × (512 ≤ vec_capacity many)) };
}

impl Stored {
    /// No entry.
    pub(crate) fn new() -> Stored
        ensures { result ≡ [] }
    {
        Stored {
            few: ArrayVec::new(),
            many: None,
        }
    }

    /// The entries.
    pub(crate) fn as_slice(&self) -> &[Remote]
        ensures value { result.now ≡ self.now }
        ensures few { length result.now ≤ 512 }
    {
        match &self.many {
            Some(many) => many.as_slice(),
            None => self.few.as_slice(),
        }
    }

    /// Puts an entry last. The 17th takes the room, which is there.
    pub(crate) fn push(&mut self, remote: Remote, room: &mut Option<Room>)
        requires few { length self.old < 512 }
        requires room { IsTrue (room_for_one self.old room.old) }
        ensures entries { self.new ≡ self.old ++ remote ∷ [] }
        ensures room { room.new ≡ (if length self.old == 16 then None else room.old) }
        ensures kept { (is_some room.new || is_wide self.new) ≡ (is_some room.old || is_wide self.old) }
    {
        if let Some(many) = &mut self.many {
            // There is room: nothing is taken.
            let _ = many.push(remote);
            return;
        }
        if self.few.len() < FEW {
            self.few.push(remote);
            return;
        }
        if let Some(room) = room.take() {
            let mut many = room.into_places();
            let _ = many.extend_from_slice(self.few.as_slice());
            let _ = many.push(remote);
            self.few.clear();
            self.many = Some(many);
        }
    }

    /// Takes the entry at a place out; those behind it move up. Where 16 are left of 17, the room is given back.
    pub(crate) fn remove(&mut self, place: usize) -> Option<Room>
        requires { place < length self.old }
        ensures entries { self.new ≡ remove self.old place }
        ensures room { is_some result ≡ (length self.old == 17) }
        ensures kept { (is_some result || is_wide self.new) ≡ is_wide self.old }
    {
        let Some(mut many) = self.many.take() else {
            self.few.remove(place);
            return None;
        };
        many.remove(place);
        if many.len() > FEW {
            self.many = Some(many);
            return None;
        }
        let _ = self.few.try_extend_from_slice(many.as_slice());
        Some(Room::of(many))
    }

    /// The room of the entries, where they stand in one.
    pub(crate) fn into_room(self) -> Option<Room>
        ensures { is_some result ≡ is_wide self }
    {
        match self.many {
            Some(many) => Some(Room::of(many)),
            None => None,
        }
    }
}
