//! How often each thing was decided.
//!
//! There is a row of 41 numbers for each VID that there may be, and one for none, reserved when the endpoint is opened. A row
//! is put there when its VID first counts something, with those before it; one that isn't there counts nothing.
ghost use Rattle.std.specs.Prelude.{◌≡◌, ◌≤◌, ◌<◌, ℕ, length, [], slice_index_or, vec_capacity, IfOk, IsSome, Some, map};
ghost use Rattle.endpoint_core.specs.Counts.{no_counts, one_more, counted, counted_all, marks_all};
ghost use Rattle.endpoint_core.specs.Cells.{count_in, bumped};
ghost use Rattle.endpoint_core.specs.Forwarding.{decision_of, IsThere};
ghost use Rattle.endpoint_core.specs.Step.{sent_at};
ghost use Rattle.endpoint_core.specs.Held.{settings_of};
ghost use Rattle.endpoint_core.specs.Settings.{segment_at};

use crate::Forwarding;
use crate::emit::number_at;
use crate::state::EndpointState;
use filter_db::Place;
use std::alloc::{AllocError, Global};
use std::marker::Model;
use wire::ether::{BridgeFrame, Vid};

/// The numbers of a segment: 0 for what was sent, and 1 to 40 for the reasons.
const NUMBERS: usize = 41;

/// One row for each number below 4095.
const ROWS: usize = 4095;

/// The counts of one segment, by their numbers.
type Row = [u64; NUMBERS];

/// The counts of each segment and of none.
///
/// Room for a row of each VID is reserved from `open` on. A VID's row is put there once something is counted in it, with those
/// of the VIDs below that aren't there yet.
#[derive(Drop)]
pub(crate) struct Counts {
    /// In no segment.
    nowhere: Row,
    /// The row of each VID, from 0 on. One that isn't there is as one of zeros.
    segments: Vec<Row>,
}

impl Model for Counts {
    ghost use Rattle.std.specs.Prelude.{◌<◌, vec_capacity};
    ghost use Rattle.endpoint_core.specs.Cells.{Cells};

    ghost Value = { Cells };

    ghost view = { λ c. record { nowhere = c.nowhere; segments = c.segments.items } };

    ghost invariant = { λ c. 4094 < vec_capacity c.segments };
}

impl Counts {
    /// Nothing was decided yet. It reserves the room of all counts, and `AllocError` says that there was no room for them.
    pub(crate) fn open(alloc: Global) -> Result<Counts, AllocError>
        ensures { IfOk result (λ counts. count_in counts ≡ no_counts) }
    {
        Ok(Counts {
            nowhere: no_row(),
            segments: Vec::with_capacity(alloc, ROWS)?,
        })
    }

    /// How often a number was decided in a segment, or in none.
    pub(crate) fn get(&self, segment: Option<Vid>, number: u8) -> u64
        ensures { result ≡ count_in self.now segment number }
    {
        match segment {
            None => count_at(&self.nowhere, number),
            Some(vid) => match self.segments.get(usize::from(vid.get())) {
                Some(row) => count_at(row, number),
                None => 0,
            },
        }
    }

    /// Counts a drop, or what is sent at each place.
    pub(crate) fn tally(&mut self, state: &EndpointState, forwarding: &Forwarding, places: &[Place])
        requires { IsThere (settings_of state.now) forwarding.now }
        ensures { count_in self.new ≡ counted (count_in self.old) (decision_of (settings_of state.now) forwarding.now places.now) }
    {
        match forwarding {
            Err(refused) => self.add(refused.segment, refused.reason.number()),
            Ok(came) => self.tally_places(state, came.vid, &came.frame, places),
        }
    }

    /// Counts what is sent at each place.
    fn tally_places(
        &mut self,
        state: &EndpointState,
        vid: Vid,
        frame: &BridgeFrame,
        places: &[Place],
    )
        requires { IsSome (segment_at (settings_of state.now) vid) }
        ensures { let S = settings_of state.now in
            count_in self.new ≡ counted_all (count_in self.old) (marks_all (Some vid) (map (sent_at S vid frame.now) places.now)) }
    {
        self.reach(vid);
        for place in places {
            self.add_there(vid, number_at(state, vid, frame, *place));
        }
    }

    /// Counts one more.
    fn add(&mut self, segment: Option<Vid>, number: u8)
        requires { number ≤ 40 }
        ensures { count_in self.new ≡ one_more (count_in self.old) (record { segment = segment; number = number }) }
    {
        match segment {
            None => add_in(&mut self.nowhere, number),
            Some(vid) => {
                self.reach(vid);
                self.add_there(vid, number);
            }
        }
    }

    /// Counts one more in a segment whose row is there.
    #[inline(always)]
    fn add_there(&mut self, vid: Vid, number: u8)
        requires small { number ≤ 40 }
        requires there { vid < length self.old.segments }
        ensures more { count_in self.new ≡ one_more (count_in self.old) (record { segment = Some vid; number = number }) }
        ensures there { vid < length self.new.segments }
    {
        add_in(&mut self.segments[usize::from(vid.get())], number);
    }

    /// Has a row of a VID; what is counted stays.
    #[inline(always)]
    fn reach(&mut self, vid: Vid)
        ensures there { vid < length self.new.segments }
        ensures same { count_in self.new ≡ count_in self.old }
    {
        let place = usize::from(vid.get());
        if place >= self.segments.len() {
            widen(&mut self.segments, place);
        }
    }
}

/// How often a number was decided, by its row.
fn count_at(row: &Row, number: u8) -> u64
    ensures { result ≡ slice_index_or row.now number 0 }
{
    row.get(usize::from(number)).copied().unwrap_or(0)
}

/// Puts rows of zeros behind the others up to a place, in room that is there.
#[cold]
#[inline(never)]
fn widen(rows: &mut Vec<Row>, place: usize)
    requires short { length rows.old.items ≤ place }
    requires room { place < vec_capacity rows.old }
    ensures there { place < length rows.new.items }
    ensures same { (vid k : ℕ) → slice_index_or (slice_index_or rows.new.items vid []) k 0
        ≡ slice_index_or (slice_index_or rows.old.items vid []) k 0 }
    ensures capacity { vec_capacity rows.new ≡ vec_capacity rows.old }
{
    for _row in rows.len()..place + 1 {
        rows.push_reserved(no_row());
    }
}

/// One more of a number.
fn add_in(row: &mut Row, number: u8)
    requires { number ≤ 40 }
    ensures more { row.new ≡ bumped row.old number }
    ensures there { number < length row.old }
{
    let count = row[number as usize];
    row[number as usize] = count.saturating_add(1);
}

/// A row of zeros.
fn no_row() -> Row
    ensures { (k : ℕ) → slice_index_or result k 0 ≡ 0 }
{
    [0; NUMBERS]
}
