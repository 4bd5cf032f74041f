//! Room for a list of more than 16 entries.
ghost use Rattle.std.specs.Prelude.{◌≡◌, ◌≤◌, [], IfOk, vec_capacity};

use crate::flood::Remote;
use std::alloc::{AllocError, Global};
use std::marker::Model;

/// The most entries that a list may have, whatever its limit.
const MOST_ENTRIES: usize = 512;

/// The memory of a list of up to 512 entries, seen by contracts as that number. A list takes it with its 17th entry and gives
/// it back with it.
#[derive(Debug, Drop)]
pub struct Room {
    places: Vec<Remote>,
}

impl Model for Room {
    ghost use Rattle.std.specs.Prelude.{◌≡◌, ◌≤◌, ℕ, [], vec_capacity};

    ghost Value = { ℕ };

    ghost view = { λ _. 512 };

    ghost invariant = { λ r. (r.places.items ≡ []) × (512 ≤ vec_capacity r.places) };
}

impl Room {
    /// The memory of 512 entries, asked for at once. `AllocError`: there was none.
    pub fn new(alloc: Global) -> Result<Room, AllocError>
        ensures { IfOk result (λ room. room ≡ 512) }
    {
        Ok(Room {
            places: Vec::with_capacity(alloc, MOST_ENTRIES)?,
        })
    }

    /// The room that a list of entries had.
    pub(crate) fn of(places: Vec<Remote>) -> Room
        requires { 512 ≤ vec_capacity places }
        ensures { result ≡ 512 }
    {
        let mut places = places;
        places.clear();
        Room { places }
    }

    /// The places, with no entry.
    pub(crate) fn into_places(self) -> Vec<Remote>
        ensures none { result.items ≡ [] }
        ensures room { 512 ≤ vec_capacity result }
    {
        self.places
    }
}
