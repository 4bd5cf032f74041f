//! Changes of ports and memberships.
//!
//! A port that goes down goes through all VIDs: it is a rare call, and work for a frame stays constant in the number of
//! segments.
ghost use Rattle.std.specs.Prelude.{◌≡◌, ◌≤◌, ◌+◌, ℕ, is_some, true};
ghost use Rattle.std.specs.Option.{option_map};
ghost use Rattle.wire.specs.First.{fault_of};
ghost use Rattle.filter_db.specs.Segment.{aged_all, adjusted, flush_place_in};
ghost use Rattle.overlay.specs.declared.settings.change.Change.TheVariants.{SetMember, PortUp, PortDown};
ghost use Rattle.endpoint_core.specs.Sound.{IsSound, StaysReached};
ghost use Rattle.endpoint_core.specs.State.{state_of, fault, after_change};
ghost use Rattle.endpoint_core.specs.StateWork.{most_calls, most_compared_by};

use crate::state::ChangeFault;
use crate::state::checks::check_port;
use crate::state::parts::Parts;
use filter_db::{Place, Tables};
use overlay::ports::Egress;
use wire::ether::Vid;

/// All VIDs are below this number.
const VIDS: u16 = 4095;

impl<T: Tables> Parts<T> {
    /// Makes a port a member of a segment whose frames leave so, or no member; then what was learned there is forgotten.
    pub(crate) fn set_member(
        &mut self,
        now: u64,
        vid: Vid,
        port: u8,
        egress: Option<Egress>,
    ) -> Result<(), ChangeFault>
        requires sound { IsSound T.segments self.old }
        requires time { T.moment self.old.tables ≤ now }
        ensures fault { fault_of result ≡ fault (state_of T.segments T.pool now self.old) (SetMember vid port egress) }
        ensures after { state_of T.segments T.pool now self.new
            ≡ after_change now (SetMember vid port egress) (state_of T.segments T.pool now self.old) }
        ensures sound { IsSound T.segments self.new }
        ensures time { T.moment self.new.tables ≤ now }
        ensures calls_stay_counted { T.calls self.old.tables ≤ T.calls self.new.tables }
        ensures calls { T.calls self.new.tables ≤ T.calls self.old.tables + most_calls (SetMember vid port egress) }
        ensures comparisons_stay_counted { T.compared self.old.tables ≤ T.compared self.new.tables }
        ensures compared { T.compared self.new.tables ≤ T.compared self.old.tables + most_compared_by (SetMember vid port egress) }
    {
        self.check_segment(vid)?;
        check_port(&self.ports, port)?;
        self.ports.set_member(vid, port, egress);
        if egress.is_none() {
            self.tables.flush_place(vid, Place::Local(port), now);
        }
        Ok(())
    }

    /// Takes a port up.
    pub(crate) fn port_up(&mut self, port: u8) -> Result<(), ChangeFault>
        requires sound { IsSound T.segments self.old }
        ensures fault { (t : ℕ) → fault_of result ≡ fault (state_of T.segments T.pool t self.old) (PortUp port) }
        ensures after { (t : ℕ) → state_of T.segments T.pool t self.new
            ≡ after_change t (PortUp port) (state_of T.segments T.pool t self.old) }
        ensures sound { IsSound T.segments self.new }
        ensures moment { T.moment self.new.tables ≡ T.moment self.old.tables }
        ensures calls_stay_counted { T.calls self.old.tables ≤ T.calls self.new.tables }
        ensures calls { T.calls self.new.tables ≤ T.calls self.old.tables + most_calls (PortUp port) }
        ensures comparisons_stay_counted { T.compared self.old.tables ≤ T.compared self.new.tables }
        ensures compared { T.compared self.new.tables ≤ T.compared self.old.tables + most_compared_by (PortUp port) }
    {
        check_port(&self.ports, port)?;
        self.ports.set_up(port, true);
        Ok(())
    }

    /// Takes a port down, and forgets in every segment what was learned there.
    pub(crate) fn port_down(&mut self, now: u64, port: u8) -> Result<(), ChangeFault>
        requires sound { IsSound T.segments self.old }
        requires time { T.moment self.old.tables ≤ now }
        ensures fault { fault_of result ≡ fault (state_of T.segments T.pool now self.old) (PortDown port) }
        ensures after { state_of T.segments T.pool now self.new
            ≡ after_change now (PortDown port) (state_of T.segments T.pool now self.old) }
        ensures sound { IsSound T.segments self.new }
        ensures time { T.moment self.new.tables ≤ now }
        ensures calls_stay_counted { T.calls self.old.tables ≤ T.calls self.new.tables }
        ensures calls { T.calls self.new.tables ≤ T.calls self.old.tables + most_calls (PortDown port) }
        ensures comparisons_stay_counted { T.compared self.old.tables ≤ T.compared self.new.tables }
        ensures compared { T.compared self.new.tables ≤ T.compared self.old.tables + most_compared_by (PortDown port) }
    {
        check_port(&self.ports, port)?;
        self.ports.set_up(port, false);
        flush_everywhere(&mut self.tables, Place::Local(port), now);
        Ok(())
    }
}

/// Forgets in every segment what was learned at a place.
fn flush_everywhere<T: Tables>(tables: &mut T, place: Place, now: u64)
    requires vids { (vid : ℕ) → is_some (T.segments tables.old vid) ≡ true → (1 ≤ vid) × (vid ≤ 4094) }
    requires time { T.moment tables.old ≤ now }
    ensures after { (vid : ℕ) → aged_all now (T.segments tables.new) vid
        ≡ option_map (flush_place_in place) (aged_all now (T.segments tables.old) vid) }
    ensures reached { StaysReached (T.segments tables.old) (T.segments tables.new) }
    ensures pool { T.pool tables.new ≡ T.pool tables.old }
    ensures time { T.moment tables.new ≤ now }
    ensures calls_stay_counted { T.calls tables.old ≤ T.calls tables.new }
    ensures calls { T.calls tables.new ≤ T.calls tables.old + 4094 }
    ensures compared { T.compared tables.new ≡ T.compared tables.old }
{
    for number in 1..VIDS {
        if let Some(vid) = Vid::new(number) {
            flush_at(tables, vid, place, now);
        }
    }
}

/// Forgets what the segment of a VID, where it has one, learned at a place.
fn flush_at<T: Tables>(tables: &mut T, vid: Vid, place: Place, now: u64)
    requires time { T.moment tables.old ≤ now }
    ensures after { aged_all now (T.segments tables.new) ≡ adjusted vid (flush_place_in place) (aged_all now (T.segments tables.old)) }
    ensures reached { StaysReached (T.segments tables.old) (T.segments tables.new) }
    ensures pool { T.pool tables.new ≡ T.pool tables.old }
    ensures time { T.moment tables.new ≤ now }
    ensures calls_stay_counted { T.calls tables.old ≤ T.calls tables.new }
    ensures calls { T.calls tables.new ≤ T.calls tables.old + 1 }
    ensures compared { T.compared tables.new ≡ T.compared tables.old }
{
    if tables.has(vid) {
        tables.flush_place(vid, place, now);
    }
}
