//! What the bridge of a segment goes by, for whoever looks on.
ghost use Rattle.std.specs.Prelude.{◌≡◌, ◌+◌, IsSome, IfSome};
ghost use Rattle.filter_db.specs.Standing.{segment_count, sum_of_limits};
ghost use Rattle.filter_db.specs.Table.{nanoseconds};
ghost use Rattle.tunnel_learning.specs.Bridge as bridge;
ghost use Rattle.endpoint_core.specs.Held.{settings_of};
ghost use Rattle.endpoint_core.specs.Settings.{segment_at, tables_asked};
ghost use Rattle.endpoint_core.specs.StateStep.{config_of};

use crate::state::EndpointState;
use crate::state::step::groups_of;
use filter_db::PoolTables;
use tunnel_learning::Bridge;
use wire::ether::Vid;

impl EndpointState {
    /// The configuration of the bridge of a segment that is there, as a step asks it.
    pub fn bridge(&self, vid: Vid) -> Bridge<'_>
        requires there { IsSome (segment_at (settings_of self.now) vid) }
        ensures segment { result.vid ≡ vid }
        ensures config { let S = settings_of self.now in
            IfSome (segment_at S vid) (λ s. bridge.config_of result ≡ config_of S.ports s) }
    {
        let segment = self.parts.under.segment(vid);
        Bridge {
            vid,
            learning: self.parts.learning.get(vid),
            groups: groups_of(&segment.tunnels),
            ports: &self.parts.ports,
            flood: &segment.flood,
        }
    }

    /// The most entries that the table of a segment that is there may have.
    pub fn limit(&self, vid: Vid) -> u32
        requires there { IsSome (segment_at (settings_of self.now) vid) }
        ensures { IfSome (segment_at (settings_of self.now) vid) (λ s. result ≡ s.limit) }
    {
        self.parts.tables.limit(vid)
    }

    /// For how long a learned entry of a segment that is there is live, in nanoseconds (IEEE 802.1Q, 8.8.3).
    pub fn ageing(&self, vid: Vid) -> u64
        requires there { IsSome (segment_at (settings_of self.now) vid) }
        ensures { IfSome (segment_at (settings_of self.now) vid) (λ s. result ≡ nanoseconds s.ageing) }
    {
        self.parts.tables.ageing(vid)
    }

    /// How many segments there are.
    pub fn segment_count(&self) -> u32
        ensures { result ≡ segment_count (tables_asked (settings_of self.now)) }
    {
        self.parts.segment_count()
    }

    /// What is left of the pool: the most that the limit of another segment may be.
    pub fn room(&self) -> u32
        ensures { let S = settings_of self.now in
            result + sum_of_limits (tables_asked S) ≡ S.pool }
    {
        self.parts.room()
    }
}
