//! The parts of an endpoint, over any tables.
ghost use Rattle.std.specs.Prelude.{◌≡◌, ◌≤◌, ◌+◌};
ghost use Rattle.wire.specs.First.{fault_of};
ghost use Rattle.endpoint_core.specs.Sound.{IsSound};
ghost use Rattle.endpoint_core.specs.State.{state_of, fault, after_change};
ghost use Rattle.endpoint_core.specs.StateWork.{most_calls, most_compared_by};

use crate::state::learning::Learning;
use crate::state::{Change, ChangeFault};
use filter_db::PoolTables;
use overlay::ports::PortSet;
use overlay::underlay::Overlay;

/// What an endpoint holds. Limits and ageings of segments stand with the tables alone, flood lists and tunnels with the
/// underlay, members with the ports.
#[derive(Drop)]
pub(crate) struct Parts<T> {
    pub(crate) ports: PortSet,
    pub(crate) under: Overlay,
    pub(crate) tables: T,
    pub(crate) learning: Learning,
}

impl<T: PoolTables> Parts<T> {
    /// Makes a change at a moment, or refuses it.
    pub(crate) fn change(&mut self, now: u64, change: Change) -> Result<(), ChangeFault>
        requires sound { IsSound T.segments self.old }
        requires time { T.moment self.old.tables ≤ now }
        ensures fault { fault_of result ≡ fault (state_of T.segments T.pool now self.old) change }
        ensures after { state_of T.segments T.pool now self.new ≡ after_change now change (state_of T.segments T.pool now self.old) }
        ensures sound { IsSound T.segments self.new }
        ensures time { T.moment self.new.tables ≤ now }
        ensures calls_stay_counted { T.calls self.old.tables ≤ T.calls self.new.tables }
        ensures calls { T.calls self.new.tables ≤ T.calls self.old.tables + most_calls change }
        ensures comparisons_stay_counted { T.compared self.old.tables ≤ T.compared self.new.tables }
        ensures compared { T.compared self.new.tables ≤ T.compared self.old.tables + most_compared_by change }
    {
        match change {
            Change::AddFlood { vid, addr, tunnel } => self.add_flood(vid, addr, tunnel),
            Change::RemoveFlood { vid, addr, tunnel } => self.remove_flood(now, vid, addr, tunnel),
            Change::Fix { vid, mac, target } => self.fix(now, vid, mac, target),
            Change::Unfix { vid, mac } => self.unfix(now, vid, mac),
            Change::SetAgeing { vid, seconds } => self.set_ageing(now, vid, seconds),
            Change::SetLearning { vid, on } => self.set_learning(vid, on),
            Change::SetMember { vid, port, egress } => self.set_member(now, vid, port, egress),
            Change::PortUp { port } => self.port_up(port),
            Change::PortDown { port } => self.port_down(now, port),
            Change::Flush { vid } => self.flush(now, vid),
            Change::AddSegment(new) => self.add_segment(now, new),
            Change::RemoveSegment { vid } => self.remove_segment(now, vid),
            Change::SetLimit { vid, limit } => self.set_limit(now, vid, limit),
        }
    }
}
