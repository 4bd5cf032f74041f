//! The live entries of a segment, listed.
ghost use Rattle.std.specs.Prelude.{◌≡◌, ◌<◌, ◌+◌, ◌*◌, ◌^◌, ◌++◌, IfSome, IsSome, OnOk, Some, length};
ghost use Rattle.std.specs.Option.{option_to_list};
ghost use Rattle.shared_tables.specs.Pool.{entry_at};
ghost use Rattle.shared_tables.specs.Slots.{entry_in};
ghost use Rattle.shared_tables.specs.Listing.{live_row, live_rows, rows_in, row_of, word_of, number_of, IsAddress, IsWord, AreWords};

use super::{Kind, Slot, Slots, is_dead};
use crate::bucket::{mac_of, vid_of};
use crate::links::SlotId;
use filter_db::Entry;
use std::alloc::AllocError;
use wire::ether::{Mac, Vid};

impl Slots {
    /// What a slot holds, with its address.
    pub fn row(&self, slot: SlotId) -> (Mac, Entry)
        requires in_pool { slot < length self.now.entries }
        requires held { IsSome (entry_at self.now.entries slot) }
        ensures { Some result ≡ row_of (entry_at self.now.entries slot) }
    {
        row(&self.slots[slot.number as usize])
    }

    /// What a slot holds with its address, if that is of the segment, and live at a moment under an ageing in nanoseconds.
    /// What is told here isn't counted.
    pub fn live_row(&self, slot: SlotId, vid: Vid, ageing: u64, now: u64) -> Option<(Mac, Entry)>
        requires in_pool { slot < length self.now.entries }
        requires held { IsSome (entry_at self.now.entries slot) }
        ensures { result ≡ live_row vid ageing now (entry_at self.now.entries slot) }
    {
        live_row(&self.slots[slot.number as usize], vid, ageing, now)
    }

    /// A word of what a slot holds, the slot's number in its lowest 20 bits and the address in the 48 above, if that is of the
    /// segment, and live at a moment under an ageing in nanoseconds. What is told here isn't counted.
    pub fn live_word(&self, slot: SlotId, vid: Vid, ageing: u64, now: u64) -> Option<u128>
        requires in_pool { slot < length self.now.entries }
        requires held { IsSome (entry_at self.now.entries slot) }
        ensures word { result ≡ word_of slot (live_row vid ageing now (entry_at self.now.entries slot)) }
        ensures is_word { IfSome result (λ word. IsWord self.now.entries vid ageing now word) }
        ensures few { slot < 1048576 }
    {
        live_word(
            &self.slots[slot.number as usize],
            slot.number,
            vid,
            ageing,
            now,
        )
    }

    /// Puts the words of the live entries of a segment behind these, in the order of their slots, under an ageing in
    /// nanoseconds. What is told here isn't counted. `AllocError`: there was no room for them.
    pub fn put_live(
        &self,
        words: &mut Vec<u128>,
        vid: Vid,
        ageing: u64,
        now: u64,
    ) -> Result<(), AllocError>
        ensures rows { let es = self.now.entries in
            OnOk result (rows_in es vid ageing now words.new.items
            ≡ rows_in es vid ageing now words.old.items ++ live_rows vid ageing now es) }
        ensures words { let es = self.now.entries in
            OnOk result (AreWords es vid ageing now words.old.items → AreWords es vid ageing now words.new.items) }
    {
        for number in 0..self.slots.len() {
            let slot = &self.slots[number];
            put_word(words, live_word(slot, number as u32, vid, ageing, now))?;
        }
        Ok(())
    }
}

/// Puts a word behind these, where there is one.
pub fn put_word(words: &mut Vec<u128>, word: Option<u128>) -> Result<(), AllocError>
    ensures { OnOk result (words.new.items ≡ words.old.items ++ option_to_list word) }
{
    if let Some(word) = word {
        words.push(word)?;
    }
    Ok(())
}

/// Its entry with its address.
fn row(slot: &Slot) -> (Mac, Entry)
    requires { IsSome (entry_in slot.now) }
    ensures { Some result ≡ row_of (entry_in slot.now) }
{
    let last = match slot.kind {
        Kind::Free | Kind::Fixed => None,
        Kind::Learned => Some(slot.last),
    };
    let entry = Entry {
        place: slot.place,
        last,
    };
    (mac_of(slot.key), entry)
}

/// Its entry with its address, if that is of the segment and live.
fn live_row(slot: &Slot, vid: Vid, ageing: u64, now: u64) -> Option<(Mac, Entry)>
    ensures { result ≡ live_row vid ageing now (entry_in slot.now) }
{
    if vid_of(slot.key) != vid.get() || is_dead(slot, ageing, now) {
        return None;
    }
    let last = match slot.kind {
        Kind::Free => return None,
        Kind::Learned => Some(slot.last),
        Kind::Fixed => None,
    };
    let entry = Entry {
        place: slot.place,
        last,
    };
    Some((mac_of(slot.key), entry))
}

/// The word of its entry from a slot of this number, if that is of the segment and live.
fn live_word(slot: &Slot, number: u32, vid: Vid, ageing: u64, now: u64) -> Option<u128>
    requires { number < 1048576 }
    ensures word { result ≡ word_of number (live_row vid ageing now (entry_in slot.now)) }
    ensures address { IfSome (live_row vid ageing now (entry_in slot.now)) (λ row. IsAddress row.0) }
{
    match live_row(slot, vid, ageing, now) {
        Some(row) => Some(joined(row.0, number)),
        None => None,
    }
}

/// An address and the number of a slot, side by side.
fn joined(mac: Mac, number: u32) -> u128
    requires { number < 1048576 }
    ensures { result ≡ number_of mac * 1048576 + number }
{
    u128::from(number_of(mac)) * 0x10_0000 + u128::from(number)
}

/// An address as a number, its first octet the highest.
fn number_of(mac: Mac) -> u64
    ensures value { result ≡ number_of mac }
    ensures fits { result < 2 ^ 48 }
{
    let [a, b, c, d, e, f] = mac.0;
    u64::from_be_bytes([0, 0, a, b, c, d, e, f])
}
