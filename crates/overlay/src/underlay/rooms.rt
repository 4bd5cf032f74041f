//! The rooms of flood lists.
ghost use Rattle.std.specs.Prelude.{◌≡◌, ◌<◌, ◌||◌, ℕ, IsTrue, IfOk, None, get_or, is_some, length, nat_le};

use crate::flood::Room;
use std::alloc::{AllocError, Global};

/// The most entries that stand in a flood list itself.
const IN_PLACE: u16 = 16;

/// A room for each of so many places, where flood lists of so many entries need one, or else none.
pub(crate) fn rooms(alloc: Global, most: u16, flood: u16) -> Result<Vec<Option<Room>>, AllocError>
    ensures size { IfOk result (λ rooms. length rooms.items ≡ most) }
    ensures each { IfOk result (λ rooms. (k : ℕ) → k < most → IsTrue (nat_le flood 16 || is_some (get_or rooms.items k None))) }
{
    let mut rooms = Vec::with_capacity(alloc, usize::from(most))?;
    for _place in 0..usize::from(most) {
        rooms.push(room_for(alloc, flood)?)?;
    }
    Ok(rooms)
}

/// A room, where a flood list of so many entries needs one.
fn room_for(alloc: Global, flood: u16) -> Result<Option<Room>, AllocError>
    ensures { IfOk result (λ room. IsTrue (nat_le flood 16 || is_some room)) }
{
    if flood <= IN_PLACE {
        return Ok(None);
    }
    Ok(Some(Room::new(alloc)?))
}
