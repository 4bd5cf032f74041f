//! The endpoint.
ghost use Rattle.std.specs.Prelude.{◌≡◌, ◌≤◌, ◌+◌, IfOk, length};
ghost use Rattle.std.specs.FinMap.{entries};
ghost use Rattle.wire.specs.First.{fault_of};
ghost use Rattle.endpoint_core.specs.Held.{moment_of};
ghost use Rattle.endpoint_core.specs.Opened.{settings_told};
ghost use Rattle.endpoint_core.specs.StateWork.{most_calls, most_compared_by};
ghost use Rattle.endpoint_core.specs.Event.{change_at};
ghost use Rattle.endpoint_core.specs.Step.{Replied, opened, answer, after, passed};

use crate::counts::Counts;
use crate::state::{Change, ChangeFault, EndpointState};
use filter_db::Entry;
use overlay::settings::Settings;
use overlay::underlay::Overlay;
use std::alloc::{AllocError, Global};
use std::marker::Model;
use wire::ether::{Mac, Vid};

mod ahead;
mod coming;
mod decisions;
mod leaving;

/// A tunnel endpoint, seen by contracts as what it keeps: the settings in force and the tables, the counts, and the moment
/// of its last step. Moments are handed in, in nanoseconds, and never fall.
#[derive(Drop)]
pub struct Endpoint {
    state: EndpointState,
    counts: Counts,
    moment: u64,
}

impl Model for Endpoint {
    ghost use Rattle.std.specs.Prelude.{◌≤◌};
    ghost use Rattle.endpoint_core.specs.Held.{moment_of};
    ghost use Rattle.endpoint_core.specs.Kept.{Kept, kept_code};

    ghost Value = { Kept };

    ghost coded = { kept_code };

    ghost view = { λ e. record { held = e.state; cells = e.counts; moment = e.moment } };

    ghost invariant = { λ e. moment_of e.state ≤ e.moment };
}

impl Endpoint {
    ghost use Rattle.endpoint_core.specs.Kept.{state_of};

    /// An endpoint with these settings, whose tables are empty, at moment 0. It reserves all memory that its steps need,
    /// and `AllocError` says that there was no room for it.
    pub fn open(alloc: Global, settings: Settings) -> Result<Endpoint, AllocError>
        ensures { IfOk result (λ endpoint. state_of endpoint ≡ opened (settings_told settings)) }
    {
        let state = EndpointState::open(alloc, settings)?;
        let counts = Counts::open(alloc)?;
        Ok(Endpoint {
            state,
            counts,
            moment: 0,
        })
    }

    /// The number of local ports, 255 at most.
    pub fn ports(&self) -> u8
        ensures { result ≡ length (state_of self.now).bridges.settings.ports.ports }
    {
        self.state.ports().ports()
    }

    /// The moment of the last step, 0 before the first.
    pub fn now(&self) -> u64
        ensures { result ≡ (state_of self.now).moment }
    {
        self.moment
    }

    /// The underlay, and the tunnels and the flood list of each segment, as they are in force.
    pub fn under(&self) -> &Overlay
        ensures { result.now ≡ (state_of self.now).bridges.settings.overlay }
    {
        self.state.under()
    }

    /// What it holds: ports, underlay and tables, whose moment isn't behind that of the last step.
    pub fn state(&self) -> &EndpointState
        ensures value { result.now ≡ self.now.held }
        ensures time { moment_of result.now ≤ (state_of self.now).moment }
    {
        &self.state
    }

    /// The live entries of a segment at the moment of the last step, each with its address, in the order of the
    /// addresses; none where the VID has no segment. `AllocError`: there was no room for the list.
    pub fn entries(&self, alloc: Global, vid: Vid) -> Result<Vec<(Mac, Entry)>, AllocError>
        ensures { IfOk result (λ rows. rows.items ≡ entries ((state_of self.now).bridges.tables vid)) }
    {
        self.state.entries(alloc, vid, self.moment)
    }

    /// The live entries of a segment at a moment, in nanoseconds, up to which nothing more comes, each with its address, in the
    /// order of the addresses; none where the VID has no segment. The moment isn't before `self.now()`. `AllocError`: there was
    /// no room for the list.
    pub fn entries_at(
        &self,
        alloc: Global,
        vid: Vid,
        moment: u64,
    ) -> Result<Vec<(Mac, Entry)>, AllocError>
        requires { (state_of self.now).moment ≤ moment }
        ensures { IfOk result (λ rows. rows.items ≡ entries ((passed moment (state_of self.now)).bridges.tables vid)) }
    {
        self.state.entries(alloc, vid, moment)
    }

    /// How often an outcome was decided in a segment, or in none: number 0 for what was sent, and a reason's number for
    /// the drops and the outcomes that weren't sent for that reason; 0 for any other number. Each count ends at
    /// 2^64 - 1.
    pub fn count(&self, segment: Option<Vid>, number: u8) -> u64
        ensures { result ≡ (state_of self.now).counts segment number }
    {
        self.counts.get(segment, number)
    }

    /// Time passes up to a moment, in nanoseconds: nothing is decided or learned, and nothing is counted. `now` isn't
    /// before `self.now()`.
    #[inline]
    pub fn pass(&mut self, now: u64)
        requires { (state_of self.old).moment ≤ now }
        ensures { state_of self.new ≡ passed now (state_of self.old) }
    {
        self.moment = now;
    }

    /// Makes a change of the settings at a moment, in nanoseconds, or refuses it: then nothing but the moment is another.
    /// `now` isn't before `self.now()`.
    pub fn change(&mut self, now: u64, change: Change) -> Result<(), ChangeFault>
        requires { (state_of self.old).moment ≤ now }
        ensures answer { Replied (fault_of result) ≡ answer (state_of self.old) (change_at now change) }
        ensures after { state_of self.new ≡ after (state_of self.old) (change_at now change) }
        ensures calls_stay_counted { self.old.held.tables.calls ≤ self.new.held.tables.calls }
        ensures calls { self.new.held.tables.calls ≤ self.old.held.tables.calls + most_calls change }
        ensures comparisons_stay_counted { self.old.held.tables.compared ≤ self.new.held.tables.compared }
        ensures compared { self.new.held.tables.compared ≤ self.old.held.tables.compared + most_compared_by change }
    {
        let answer = self.state.change(now, change);
        self.moment = now;
        answer
    }
}
