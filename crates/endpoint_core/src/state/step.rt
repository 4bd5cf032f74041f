//! A frame at the bridge of a segment.
ghost use Rattle.std.specs.Prelude.{◌≡◌, ◌≤◌, ◌+◌, ◌*◌, ◌∷◌, [], IfOk, OnErr, IsSome, IsTrue, true};
ghost use Rattle.std.specs.List.{list_all};
ghost use Rattle.wire.specs.declared.ip_udp.addr.Tunnel.TheVariants.{Vxlan, Geneve};
ghost use Rattle.filter_db.specs.Work.{most_compared};
ghost use Rattle.tunnel_learning.specs.Verdict.{put_or};
ghost use Rattle.endpoint_core.specs.Sound.{IsSound, is_reached};
ghost use Rattle.endpoint_core.specs.State.{settings_of, state_of};
ghost use Rattle.endpoint_core.specs.StateStep.{can_leave, group_in, after_frame, verdict};

use crate::state::parts::Parts;
use filter_db::{Place, Tables};
use overlay::underlay::Tunnels;
use tunnel_learning::{Bridge, Outlets, bridge_step_into};
use wire::ether::{BridgeFrame, Reason, Vid};
use wire::ip_udp::Tunnel;

impl<T: Tables> Parts<T> {
    /// A frame came to a segment from a place, one that it can send to: learns where the source stands, and answers where
    /// the frame goes.
    pub(crate) fn step(
        &mut self,
        now: u64,
        vid: Vid,
        from: &Place,
        frame: &BridgeFrame,
        places: &mut Outlets,
    ) -> Result<(), Reason>
        requires sound { IsSound T.segments self.old }
        requires time { T.moment self.old.tables ≤ now }
        requires there { IsSome (T.segments self.old.tables vid) }
        requires reached { is_reached self.old.under vid from.now ≡ true }
        ensures verdict { put_or places.new.items result ≡ verdict now vid from.now frame.now (state_of T.segments T.pool now self.old) }
        ensures after { state_of T.segments T.pool now self.new
            ≡ after_frame now vid from.now frame.now (state_of T.segments T.pool now self.old) }
        ensures leaves { IfOk (put_or places.new.items result)
            (λ places. IsTrue (list_all (can_leave (settings_of T.segments T.pool self.old) vid) places)) }
        ensures empty { OnErr result (places.new.items ≡ []) }
        ensures sound { IsSound T.segments self.new }
        ensures time { T.moment self.new.tables ≤ now }
        ensures calls_stay_counted { T.calls self.old.tables ≤ T.calls self.new.tables }
        ensures calls { T.calls self.new.tables ≤ T.calls self.old.tables + 2 }
        ensures comparisons_stay_counted { T.compared self.old.tables ≤ T.compared self.new.tables }
        ensures compared { T.compared self.new.tables ≤ T.compared self.old.tables + 2 * most_compared }
    {
        let segment = self.under.segment(vid);
        let bridge = Bridge {
            vid,
            learning: self.learning.get(vid),
            groups: groups_of(&segment.tunnels),
            ports: &self.ports,
            flood: &segment.flood,
        };
        bridge_step_into(&mut self.tables, &bridge, now, from, frame, places)
    }
}

/// The horizon groups of the VXLAN and the Geneve tunnel, 0 for a kind that isn't there.
pub(crate) fn groups_of(tunnels: &Tunnels) -> [u8; 2]
    ensures { result ≡ group_in Vxlan tunnels.now ∷ group_in Geneve tunnels.now ∷ [] }
{
    [
        tunnels.of(Tunnel::Vxlan).map_or(0, |tunnel| tunnel.group),
        tunnels.of(Tunnel::Geneve).map_or(0, |tunnel| tunnel.group),
    ]
}
