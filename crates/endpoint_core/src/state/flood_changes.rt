//! Changes of flood lists.
ghost use Rattle.std.specs.Prelude.{◌≡◌, ◌≤◌, ◌+◌, ℕ};
ghost use Rattle.wire.specs.First.{fault_of};
ghost use Rattle.overlay.specs.declared.settings.change.Change.TheVariants.{AddFlood, RemoveFlood};
ghost use Rattle.endpoint_core.specs.Sound.{IsSound};
ghost use Rattle.endpoint_core.specs.State.{state_of, fault, after_change};
ghost use Rattle.endpoint_core.specs.StateWork.{most_calls, most_compared_by};

use crate::state::ChangeFault;
use crate::state::parts::Parts;
use filter_db::{Place, Tables};
use wire::ether::Vid;
use wire::ip_udp::{Addr, Tunnel};

impl<T: Tables> Parts<T> {
    /// Puts an address last on a segment's flood list.
    pub(crate) fn add_flood(
        &mut self,
        vid: Vid,
        addr: Addr,
        tunnel: Option<Tunnel>,
    ) -> Result<(), ChangeFault>
        requires sound { IsSound T.segments self.old }
        ensures fault { (t : ℕ) → fault_of result ≡ fault (state_of T.segments T.pool t self.old) (AddFlood vid addr tunnel) }
        ensures after { (t : ℕ) → state_of T.segments T.pool t self.new
            ≡ after_change t (AddFlood vid addr tunnel) (state_of T.segments T.pool t self.old) }
        ensures sound { IsSound T.segments self.new }
        ensures moment { T.moment self.new.tables ≡ T.moment self.old.tables }
        ensures calls_stay_counted { T.calls self.old.tables ≤ T.calls self.new.tables }
        ensures calls { T.calls self.new.tables ≤ T.calls self.old.tables + most_calls (AddFlood vid addr tunnel) }
        ensures comparisons_stay_counted { T.compared self.old.tables ≤ T.compared self.new.tables }
        ensures compared { T.compared self.new.tables ≤ T.compared self.old.tables + most_compared_by (AddFlood vid addr tunnel) }
    {
        let kind = self.kind_named(vid, tunnel)?;
        self.under.add_flood(vid, kind, addr)?;
        Ok(())
    }

    /// Takes an address from a segment's flood list, and forgets what was learned there.
    pub(crate) fn remove_flood(
        &mut self,
        now: u64,
        vid: Vid,
        addr: Addr,
        tunnel: Option<Tunnel>,
    ) -> Result<(), ChangeFault>
        requires sound { IsSound T.segments self.old }
        requires time { T.moment self.old.tables ≤ now }
        ensures fault { fault_of result ≡ fault (state_of T.segments T.pool now self.old) (RemoveFlood vid addr tunnel) }
        ensures after { state_of T.segments T.pool now self.new
            ≡ after_change now (RemoveFlood vid addr tunnel) (state_of T.segments T.pool now self.old) }
        ensures sound { IsSound T.segments self.new }
        ensures time { T.moment self.new.tables ≤ now }
        ensures calls_stay_counted { T.calls self.old.tables ≤ T.calls self.new.tables }
        ensures calls { T.calls self.new.tables ≤ T.calls self.old.tables + most_calls (RemoveFlood vid addr tunnel) }
        ensures comparisons_stay_counted { T.compared self.old.tables ≤ T.compared self.new.tables }
        ensures compared { T.compared self.new.tables ≤ T.compared self.old.tables + most_compared_by (RemoveFlood vid addr tunnel) }
    {
        let kind = self.kind_named(vid, tunnel)?;
        self.under.remove_flood(vid, kind, addr)?;
        self.tables.flush_place(vid, Place::Remote(kind, addr), now);
        Ok(())
    }
}
