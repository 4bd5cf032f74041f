//! How entries come, stay and go: each step over the slots of one segment.
//!
//! A learn or a fix that finds its own address dead replaces that one entry without a sweep: with one it would ask for one
//! age too many.
ghost use Rattle.std.specs.Prelude.{◌≡◌, ℕ, ◌+◌, ◌<◌, ◌≤◌, IsSome, Some, None, Option, false};
ghost use Rattle.shared_tables.specs.Bucket.{bucket_of, tree_of};
ghost use Rattle.shared_tables.specs.Admission.{FindsOrAdmits};
ghost use Rattle.shared_tables.specs.Pool.{entry_at, is_fixed_in};
ghost use Rattle.shared_tables.specs.LinkSteps.{IsHeld};
ghost use Rattle.shared_tables.specs.Shared.{rule_at, bucket_count, IsNow, span_of, Sweeps, IsOf, Relearns, Refreshes, Flushes};
ghost use Rattle.shared_tables.specs.Shared.{kept_count, stands_at};
ghost use Rattle.shared_tables.specs.Standing.{Empties};
ghost use Rattle.shared_tables.specs.Work.{ComparesByBits};

use crate::SharedTables;
use crate::admission::Outcome;
use crate::links::SlotId;
use filter_db::{Learned, Place};
use wire::ether::{Mac, Vid};

/// Lets the dead entries of a segment go, from the front of its age queue.
pub fn sweep(tables: &mut SharedTables, vid: Vid)
    requires { IsSome (rule_at tables.old.rules vid) }
    ensures { Sweeps tables.old tables.new vid (span_of (rule_at tables.old.rules vid)) }
{
    let ageing = tables.span(vid);
    while let Some(slot) = tables.oldest(vid) {
        if !tables.dead(slot, ageing) {
            return;
        }
        tables.release(vid, slot);
    }
}

/// Lets all learned entries of a segment go.
pub fn flush(tables: &mut SharedTables, vid: Vid)
    requires { IsSome (rule_at tables.old.rules vid) }
    ensures { Flushes tables.old tables.new vid }
{
    while let Some(slot) = tables.oldest(vid) {
        tables.release(vid, slot);
    }
}

/// Lets all entries of a segment go, fixed ones too.
pub fn empty(tables: &mut SharedTables, vid: Vid)
    requires { IsSome (rule_at tables.old.rules vid) }
    ensures { Empties tables.old tables.new vid }
{
    flush(tables, vid);
    while let Some(slot) = tables.first_fixed(vid) {
        tables.release(vid, slot);
    }
}

/// Lets all entries of a segment go, if more of them are kept than a limit.
pub fn fit(tables: &mut SharedTables, vid: Vid, limit: u32)
    requires { IsSome (rule_at tables.old.rules vid) }
    ensures within { kept_count vid tables.old.entries ≤ limit → tables.new ≡ tables.old }
    ensures above { limit < kept_count vid tables.old.entries → Empties tables.old tables.new vid }
{
    if tables.kept(vid) > limit {
        empty(tables, vid);
    }
}

/// The slot of an address in this tree; where no slot holds it, an entry comes, if there is room for it.
#[inline(always)]
pub fn find_or_admit(
    tables: &mut SharedTables,
    tree: usize,
    vid: Vid,
    mac: &Mac,
    place: &Place,
    last: Option<u64>,
) -> Outcome
    requires tree { tree ≡ tree_of vid mac.now }
    requires in_range { tree < 262144 }
    requires rule { IsSome (rule_at tables.old.rules vid) }
    requires now { IsNow last tables.old.moment }
    ensures outcome { let span = span_of (rule_at tables.old.rules vid) in
        FindsOrAdmits (record tables.old { compared = tables.new.compared }) tables.new span
        (record { vid = vid; mac = mac.now; place = place.now; last = last }) result }
    ensures counted { tables.old.compared ≤ tables.new.compared }
    ensures compared { tables.new.compared ≤ tables.old.compared + bucket_count (bucket_of vid mac.now) tables.old.entries }
    ensures bits { ComparesByBits tables.old tables.new }
{
    let outcome = tables.find_or_enter(tree, vid, mac, place, last);
    if let Outcome::Entered = outcome {
        sweep(tables, vid);
    }
    outcome
}

/// Gives a learned entry a place, at which it may stand already, and the tables' moment as its last one.
#[inline(always)]
fn see_at(tables: &mut SharedTables, vid: Vid, slot: SlotId, place: &Place, stays: bool)
    requires held { IsOf (entry_at tables.old.entries slot) vid }
    requires learned { is_fixed_in (entry_at tables.old.entries slot) ≡ false }
    requires rule { IsSome (rule_at tables.old.rules vid) }
    requires stays { stays ≡ stands_at place.now (entry_at tables.old.entries slot) }
    ensures { Refreshes tables.old tables.new slot place.now (Some tables.old.moment) }
{
    if stays {
        tables.see(vid, slot);
    } else {
        let now = tables.moment();
        tables.refresh(vid, slot, place, Some(now));
    }
}

/// Learns an address that a slot holds.
pub fn relearn(tables: &mut SharedTables, vid: Vid, slot: SlotId, place: &Place) -> Learned
    requires held { IsOf (entry_at tables.old.entries slot) vid }
    requires in_pool { IsHeld tables.old.entries slot }
    requires rule { IsSome (rule_at tables.old.rules vid) }
    ensures { Relearns tables.old tables.new slot (span_of (rule_at tables.old.rules vid)) place.now result }
{
    if tables.is_fixed(slot) {
        return Learned::Fixed;
    }
    let ageing = tables.span(vid);
    let stays = tables.stands_at(slot, place);
    let dead = tables.dead(slot, ageing);
    see_at(tables, vid, slot, place, stays);
    if dead {
        Learned::New
    } else if stays {
        Learned::Refreshed
    } else {
        Learned::Moved
    }
}
