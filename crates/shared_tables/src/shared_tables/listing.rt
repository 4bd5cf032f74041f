//! The live entries of a segment, listed.
//!
//! A listing sorts words of 128 bits: in the lowest 20 a slot, of which a pool has at most 1,048,576, and in the 48 above its
//! address. Addresses are in order as the numbers of their octets, which is proved, and no two rows have the same. Room for
//! the words is asked for by the count of the segment's entries, dead ones too, and room for the rows by what is live.
ghost use Rattle.std.specs.Prelude.{◌≡◌, ◌≤◌, ◌%◌, ℕ, [], IfOk, OnOk};
ghost use Rattle.std.specs.FinMap.{entries};
ghost use Rattle.filter_db.specs.Table.{nanoseconds};
ghost use Rattle.filter_db.specs.Segment.{aged_all, segment_at};
ghost use Rattle.shared_tables.specs.Listing.{held_rows, rows_in, AreHeld, AreWords, HasLive, ListsLine};
ghost use Rattle.shared_tables.specs.Segments.{segments_of};
ghost use Rattle.shared_tables.specs.Shared.{IsUnique};
ghost use Rattle.shared_tables.specs.SlotsOfSegments.{IsLines, line_at};

use super::known::span_of;
use crate::links::{Link, SlotId};
use crate::share::{Share, share_at};
use crate::shared_tables::SharedTables;
use crate::slots::{Slots, put_word};
use filter_db::Entry;
use std::alloc::{AllocError, Global};
use wire::ether::{Mac, Vid};

/// A listing goes over the slots where a segment has more than one in so many of them: that costs as much as to go along its
/// lines and to sort what stands there in any order, and finds addresses in order that came in order.
const SLOTS_EACH: u32 = 16;

impl SharedTables {
    /// The live entries of a segment at a moment, each with its address, in the order of the addresses; none where the
    /// VID has no segment. The moment isn't before the tables' own. It goes along the two lines of the segment once, or over
    /// the slots where the segment has many of them, sorts words of the addresses and slots that it found, and takes the rows
    /// in that order; it counts nothing: no bridge asks for it. `AllocError`: there was no room for the list.
    pub fn entries(
        &self,
        alloc: Global,
        vid: Vid,
        now: u64,
    ) -> Result<Vec<(Mac, Entry)>, AllocError>
        requires { self.now.moment ≤ now }
        ensures { let s = segment_at vid (aged_all now (segments_of self.now)) in
            IfOk result (λ rows. rows.items ≡ entries s.entries) }
    {
        let Some(share) = share_at(&self.shares, vid) else {
            return Ok(Vec::new(alloc));
        };
        let mut words = Vec::with_capacity(alloc, share.count as usize)?;
        put_live(&mut words, &self.slots, vid, &share, now)?;
        words.sort_unstable();
        let rows = rows_of(alloc, &self.slots, &words)?;
        Ok(rows)
    }
}

/// Puts the words of the live entries of a segment into an empty list: in the order of the slots, in which
/// addresses stand as they came, or in that of its lines, in which they were last seen.
fn put_live(
    words: &mut Vec<u128>,
    slots: &Slots,
    vid: Vid,
    share: &Share,
    now: u64,
) -> Result<(), AllocError>
    requires lines { (moment : ℕ) × IsLines slots.now.entries slots.now.lines vid share.now moment }
    requires unique { IsUnique slots.now.entries }
    requires empty { words.old.items ≡ [] }
    ensures live { let es = slots.now.entries in let a = nanoseconds share.now.ageing in
        OnOk result (HasLive es vid a now (rows_in es vid a now words.new.items)) }
    ensures words { OnOk result (AreWords slots.now.entries vid (nanoseconds share.now.ageing) now words.new.items) }
{
    if slots.size() / SLOTS_EACH < share.count {
        slots.put_live(words, vid, span_of(share), now)?;
        return Ok(());
    }
    put_line(words, slots, vid, share, false, now)?;
    put_line(words, slots, vid, share, true, now)?;
    Ok(())
}

/// The first slot of the list of the fixed entries, or of the age queue.
fn first_of(share: &Share, fixed: bool) -> Link
    ensures { result ≡ (line_at share.now fixed).first }
{
    if fixed {
        share.fixed.first
    } else {
        share.queue.first
    }
}

/// Puts the words of the live ones among the fixed entries of a segment, or among those of its age queue, behind these.
fn put_line(
    words: &mut Vec<u128>,
    slots: &Slots,
    vid: Vid,
    share: &Share,
    fixed: bool,
    now: u64,
) -> Result<(), AllocError>
    requires { (moment : ℕ) × IsLines slots.now.entries slots.now.lines vid share.now moment }
    ensures line { let es = slots.now.entries in let a = nanoseconds share.now.ageing in
        OnOk result (ListsLine es vid fixed a now (rows_in es vid a now words.old.items) (rows_in es vid a now words.new.items)) }
    ensures words { let es = slots.now.entries in let a = nanoseconds share.now.ageing in
        OnOk result (AreWords es vid a now words.old.items → AreWords es vid a now words.new.items) }
{
    let ageing = span_of(share);
    let mut cursor = first_of(share, fixed);
    for _entry in 0..share.count {
        let Some(slot) = cursor.slot() else {
            return Ok(());
        };
        put_word(words, slots.live_word(slot, vid, ageing, now))?;
        cursor = slots.links(slot).next;
    }
    Ok(())
}

/// The rows of the slots whose numbers the words tell, in their order.
fn rows_of(alloc: Global, slots: &Slots, words: &[u128]) -> Result<Vec<(Mac, Entry)>, AllocError>
    requires { AreHeld slots.now.entries words.now }
    ensures { IfOk result (λ rows. rows.items ≡ held_rows slots.now.entries words.now) }
{
    let mut rows = Vec::with_capacity(alloc, words.len())?;
    for word in words {
        rows.push_reserved(slots.row(slot_of(*word)));
    }
    Ok(rows)
}

/// The slot whose number a word tells.
fn slot_of(word: u128) -> SlotId
    ensures { result ≡ word % 1048576 }
{
    SlotId {
        number: (word % 0x10_0000) as u32,
    }
}
