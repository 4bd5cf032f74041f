//! Rooms that grow.
ghost use Rattle.std.specs.Prelude.{◌≡◌, ◌≤◌, ◌<◌, ℕ, length, max, take, vec_capacity, OnErr, OnOk};

use std::alloc::AllocError;

/// Makes a room as long as `size` where it is shorter, and asks for no more memory than that. What stands in it stays.
pub fn lengthen(room: &mut Vec<u8>, size: usize) -> Result<(), AllocError>
    ensures length { OnOk result (length room.new.items ≡ max (length room.old.items) size) }
    ensures front { (n : ℕ) → n ≤ length room.old.items → take n room.new.items ≡ take n room.old.items }
    ensures err { OnErr result (room.new.items ≡ room.old.items) }
    ensures refused { OnErr result (vec_capacity room.old < size) }
    ensures capacity { OnErr result (vec_capacity room.new ≡ vec_capacity room.old) }
{
    let have = room.len();
    if size > have {
        room.reserve_exact(size - have)?;
        room.resize(size, 0)?;
    }
    Ok(())
}
