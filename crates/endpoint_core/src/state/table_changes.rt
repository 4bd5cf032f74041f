//! Changes of a segment's table.
ghost use Rattle.std.specs.Prelude.{◌≡◌, ◌≤◌, ◌+◌, ℕ, IfOk, IsSome, true};
ghost use Rattle.wire.specs.First.{fault_of};
ghost use Rattle.overlay.specs.declared.settings.change.Change.TheVariants.{Fix, Unfix, SetAgeing, SetLearning, Flush};
ghost use Rattle.overlay.specs.declared.settings.change.Target.TheVariants.{Remote};
ghost use Rattle.endpoint_core.specs.Change.{refused, fault_at, is_ageing, IsPlaceOf};
ghost use Rattle.endpoint_core.specs.Sound.{IsSound, is_reached};
ghost use Rattle.endpoint_core.specs.State.{settings_of, state_of, fault, after_change};
ghost use Rattle.endpoint_core.specs.StateWork.{most_calls, most_compared_by};

use crate::state::checks::{check_addr, check_port};
use crate::state::parts::Parts;
use crate::state::{ChangeFault, Target};
use filter_db::{Place, Tables};
use wire::ether::{Mac, Vid};
use wire::ip_udp::{Addr, Tunnel};

/// The shortest ageing, in seconds (IEEE 802.1Q, 8.8.3).
const SHORTEST_AGEING: u32 = 10;

/// The longest ageing, in seconds.
const LONGEST_AGEING: u32 = 1_000_000;

/// Whether learned entries may be live for so many seconds: 10 to 1,000,000 (IEEE 802.1Q, 8.8.3).
pub fn is_ageing(seconds: u32) -> bool
    ensures { result ≡ is_ageing seconds }
{
    seconds >= SHORTEST_AGEING && seconds <= LONGEST_AGEING
}

impl<T: Tables> Parts<T> {
    /// Where a fixed entry of a segment is to stand.
    fn place_for(&self, vid: Vid, mac: Mac, target: Target) -> Result<Place, ChangeFault>
        requires sound { IsSound T.segments self.now }
        ensures fault { fault_of result ≡ refused (settings_of T.segments T.pool self.now) (Fix vid mac target) }
        ensures place { IfOk result (IsPlaceOf (settings_of T.segments T.pool self.now) vid target) }
        ensures there { IfOk result (λ place. IsSome (T.segments self.now.tables vid)) }
        ensures reached { IfOk result (λ place. is_reached self.now.under vid place ≡ true) }
    {
        self.check_segment(vid)?;
        if mac.is_group() {
            return Err(ChangeFault::GroupAddress);
        }
        match target {
            Target::Local(port) => {
                check_port(&self.ports, port)?;
                Ok(Place::Local(port))
            }
            Target::Remote(addr, tunnel) => self.remote_place(vid, addr, tunnel),
        }
    }

    /// The remote endpoint at which a fixed entry of a segment is to stand.
    fn remote_place(
        &self,
        vid: Vid,
        addr: Addr,
        tunnel: Option<Tunnel>,
    ) -> Result<Place, ChangeFault>
        requires sound { IsSound T.segments self.now }
        ensures fault { fault_of result ≡ fault_at (settings_of T.segments T.pool self.now) vid (Remote addr tunnel) }
        ensures place { IfOk result (IsPlaceOf (settings_of T.segments T.pool self.now) vid (Remote addr tunnel)) }
        ensures reached { IfOk result (λ place. is_reached self.now.under vid place ≡ true) }
    {
        let kind = self.kind_named(vid, tunnel)?;
        check_addr(&self.under.own(), addr)?;
        Ok(Place::Remote(kind, addr))
    }

    /// Fixes an address of a segment at a place, in place of any earlier entry.
    pub(crate) fn fix(
        &mut self,
        now: u64,
        vid: Vid,
        mac: Mac,
        target: Target,
    ) -> Result<(), ChangeFault>
        requires sound { IsSound T.segments self.old }
        requires time { T.moment self.old.tables ≤ now }
        ensures fault { fault_of result ≡ fault (state_of T.segments T.pool now self.old) (Fix vid mac target) }
        ensures after { state_of T.segments T.pool now self.new
            ≡ after_change now (Fix vid mac target) (state_of T.segments T.pool now self.old) }
        ensures sound { IsSound T.segments self.new }
        ensures time { T.moment self.new.tables ≤ now }
        ensures calls_stay_counted { T.calls self.old.tables ≤ T.calls self.new.tables }
        ensures calls { T.calls self.new.tables ≤ T.calls self.old.tables + most_calls (Fix vid mac target) }
        ensures comparisons_stay_counted { T.compared self.old.tables ≤ T.compared self.new.tables }
        ensures compared { T.compared self.new.tables ≤ T.compared self.old.tables + most_compared_by (Fix vid mac target) }
    {
        let place = self.place_for(vid, mac, target)?;
        self.tables
            .fix(vid, mac, place, now)
            .or(Err(ChangeFault::TableFull))
    }

    /// Takes the fixed entry of an address of a segment away.
    pub(crate) fn unfix(&mut self, now: u64, vid: Vid, mac: Mac) -> Result<(), ChangeFault>
        requires sound { IsSound T.segments self.old }
        requires time { T.moment self.old.tables ≤ now }
        ensures fault { fault_of result ≡ fault (state_of T.segments T.pool now self.old) (Unfix vid mac) }
        ensures after { state_of T.segments T.pool now self.new
            ≡ after_change now (Unfix vid mac) (state_of T.segments T.pool now self.old) }
        ensures sound { IsSound T.segments self.new }
        ensures time { T.moment self.new.tables ≤ now }
        ensures calls_stay_counted { T.calls self.old.tables ≤ T.calls self.new.tables }
        ensures calls { T.calls self.new.tables ≤ T.calls self.old.tables + most_calls (Unfix vid mac) }
        ensures comparisons_stay_counted { T.compared self.old.tables ≤ T.compared self.new.tables }
        ensures compared { T.compared self.new.tables ≤ T.compared self.old.tables + most_compared_by (Unfix vid mac) }
    {
        self.check_segment(vid)?;
        self.tables
            .unfix(vid, mac, now)
            .or(Err(ChangeFault::NotThere))
    }

    /// Sets for how many seconds a segment's learned entries are live.
    pub(crate) fn set_ageing(&mut self, now: u64, vid: Vid, seconds: u32) -> Result<(), ChangeFault>
        requires sound { IsSound T.segments self.old }
        requires time { T.moment self.old.tables ≤ now }
        ensures fault { fault_of result ≡ fault (state_of T.segments T.pool now self.old) (SetAgeing vid seconds) }
        ensures after { state_of T.segments T.pool now self.new
            ≡ after_change now (SetAgeing vid seconds) (state_of T.segments T.pool now self.old) }
        ensures sound { IsSound T.segments self.new }
        ensures time { T.moment self.new.tables ≤ now }
        ensures calls_stay_counted { T.calls self.old.tables ≤ T.calls self.new.tables }
        ensures calls { T.calls self.new.tables ≤ T.calls self.old.tables + most_calls (SetAgeing vid seconds) }
        ensures comparisons_stay_counted { T.compared self.old.tables ≤ T.compared self.new.tables }
        ensures compared { T.compared self.new.tables ≤ T.compared self.old.tables + most_compared_by (SetAgeing vid seconds) }
    {
        self.check_segment(vid)?;
        if !is_ageing(seconds) {
            return Err(ChangeFault::OutOfRange);
        }
        self.tables.set_ageing(vid, seconds, now);
        Ok(())
    }

    /// Sets whether a segment learns. Its entries stay.
    pub(crate) fn set_learning(&mut self, vid: Vid, on: bool) -> Result<(), ChangeFault>
        requires sound { IsSound T.segments self.old }
        ensures fault { (t : ℕ) → fault_of result ≡ fault (state_of T.segments T.pool t self.old) (SetLearning vid on) }
        ensures after { (t : ℕ) → state_of T.segments T.pool t self.new
            ≡ after_change t (SetLearning vid on) (state_of T.segments T.pool t self.old) }
        ensures sound { IsSound T.segments self.new }
        ensures moment { T.moment self.new.tables ≡ T.moment self.old.tables }
        ensures calls_stay_counted { T.calls self.old.tables ≤ T.calls self.new.tables }
        ensures calls { T.calls self.new.tables ≤ T.calls self.old.tables + most_calls (SetLearning vid on) }
        ensures comparisons_stay_counted { T.compared self.old.tables ≤ T.compared self.new.tables }
        ensures compared { T.compared self.new.tables ≤ T.compared self.old.tables + most_compared_by (SetLearning vid on) }
    {
        self.check_segment(vid)?;
        self.learning.set(vid, on);
        Ok(())
    }

    /// Forgets all that a segment learned.
    pub(crate) fn flush(&mut self, now: u64, vid: Vid) -> Result<(), ChangeFault>
        requires sound { IsSound T.segments self.old }
        requires time { T.moment self.old.tables ≤ now }
        ensures fault { fault_of result ≡ fault (state_of T.segments T.pool now self.old) (Flush vid) }
        ensures after { state_of T.segments T.pool now self.new ≡ after_change now (Flush vid) (state_of T.segments T.pool now self.old) }
        ensures sound { IsSound T.segments self.new }
        ensures time { T.moment self.new.tables ≤ now }
        ensures calls_stay_counted { T.calls self.old.tables ≤ T.calls self.new.tables }
        ensures calls { T.calls self.new.tables ≤ T.calls self.old.tables + most_calls (Flush vid) }
        ensures comparisons_stay_counted { T.compared self.old.tables ≤ T.compared self.new.tables }
        ensures compared { T.compared self.new.tables ≤ T.compared self.old.tables + most_compared_by (Flush vid) }
    {
        self.check_segment(vid)?;
        self.tables.flush(vid, now);
        Ok(())
    }
}
