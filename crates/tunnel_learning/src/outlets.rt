//! A list of the places that a frame leaves by.
//!
//! It is a type of its own and no `ArrayVec`, since `clear` of that overwrites what stood there.
ghost use Rattle.std.specs.Prelude.{◌≡◌, ◌≤◌, ◌<◌, ◌+◌, ◌++◌, ◌==◌, [], ◌∷◌, length};

use filter_db::Place;
use std::marker::Model;

/// The most places that a frame leaves by.
const MOST: usize = 767;

/// The places that a frame leaves by, in order, none of them twice: at most 255 local ports and 512 remotes. It is emptied and
/// put together again for each frame, and what stood there isn't overwritten when it is emptied.
#[derive(Debug, Drop)]
pub struct Outlets {
    places: [Place; MOST],
    len: usize,
}

impl Model for Outlets {
    ghost use Rattle.std.specs.Prelude.{◌≤◌, take};
    ghost use Rattle.tunnel_learning.specs.Outlets.{Outlets};

    ghost Value = { Outlets };

    ghost view = { λ o. record { items = take o.len o.places } };

    ghost invariant = { λ o. o.len ≤ 767 };
}

impl Outlets {
    /// No place.
    pub fn new() -> Outlets
        ensures { result.items ≡ [] }
    {
        Outlets {
            places: [Place::Local(0); MOST],
            len: 0,
        }
    }

    /// Empties the list.
    #[inline]
    pub fn clear(&mut self)
        ensures { self.new.items ≡ [] }
    {
        self.len = 0;
    }

    /// Puts a place behind the others, of which there are less than 767.
    #[inline]
    pub fn push(&mut self, place: Place)
        requires room { length self.old.items < 767 }
        ensures items { self.new.items ≡ self.old.items ++ place ∷ [] }
        ensures len { length self.new.items ≡ length self.old.items + 1 }
    {
        let len = self.len;
        self.places[len] = place;
        self.len = len + 1;
    }

    /// Whether there is none.
    #[inline]
    pub fn is_empty(&self) -> bool
        ensures { result ≡ (length self.now.items == 0) }
    {
        self.as_slice().is_empty()
    }

    /// The places, in order.
    #[inline]
    pub fn as_slice(&self) -> &[Place]
        ensures value { result.now ≡ self.now.items }
        ensures fits { length result.now ≤ 767 }
    {
        &self.places[..self.len]
    }
}
