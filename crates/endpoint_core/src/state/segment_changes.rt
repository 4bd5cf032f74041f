//! Changes of which segments there are, and of their limits.
//!
//! Whether a segment can come, or get another limit, is decided by the settings in force: by the limits that are promised,
//! and never by what tables hold. So such a change has the same answer whatever was learned, and the limits of other segments
//! are all that a segment feels of them. That VNIs have 24 bits stands in the refusal of a segment that comes, as its limit
//! and its ageing do, since a change is data and may name any number. In code the type of VNIs has no others, so nothing is
//! asked; the mesh law needs no premise for it.
ghost use Rattle.std.specs.Prelude.{◌≡◌, ◌+◌, ◌<◌, ◌≤◌, IfOk, IsSome, IsTrue, None, true};
ghost use Rattle.wire.specs.First.{fault_of};
ghost use Rattle.filter_db.specs.Segment.{segment_at as table_of};
ghost use Rattle.filter_db.specs.Standing.{segment_count, sum_of_limits};
ghost use Rattle.std.specs.Option.{option_map};
ghost use Rattle.overlay.specs.Overlay.{are_free};
ghost use Rattle.overlay.specs.Tunnels.{of_kind};
ghost use Rattle.overlay.specs.declared.settings.change.Change.TheVariants.{AddSegment, RemoveSegment, SetLimit};
ghost use Rattle.endpoint_core.specs.Change.{refused, is_ageing, is_limit, is_taken, is_vni_of, are_vnis};
ghost use Rattle.endpoint_core.specs.Settings.{segment_at, tables_asked};
ghost use Rattle.endpoint_core.specs.Sound.{IsSound};
ghost use Rattle.endpoint_core.specs.State.{settings_of, state_of, fault, after_change};
ghost use Rattle.endpoint_core.specs.StateWork.{most_calls, most_compared_by};

use crate::state::ChangeFault;
use crate::state::parts::Parts;
use crate::state::table_changes::is_ageing;
use filter_db::{PoolTables, TableRule, Tables};
use overlay::flood::FloodList;
use overlay::settings::NewSegment;
use overlay::underlay::{TunnelRule, Tunnels};
use wire::ether::Vid;
use wire::ip_udp::Tunnel;

/// Whether a table may have this limit, in entries: 1 to the most that one may have.
pub fn is_limit(most: u32, limit: u32) -> bool
    ensures { result ≡ is_limit most limit }
{
    limit >= 1 && limit <= most
}

/// The VNI of the tunnel of a kind, where there is one.
fn vni_of(tunnels: &Tunnels, kind: Tunnel) -> Option<u32>
    ensures value { result ≡ option_map (λ t. t.vni) (of_kind kind tunnels.now) }
    ensures range { is_vni_of kind tunnels.now ≡ true }
{
    let tunnel = tunnels.of(kind)?;
    Some(tunnel.vni.get())
}

/// The VID and the VNIs of a new segment. Nothing else is asked of their ranges: their types have no other numbers.
fn numbers_of(new: &NewSegment) -> (u16, Option<u32>, Option<u32>)
    ensures vid { (1 ≤ new.now.vid) × (new.now.vid ≤ 4094) }
    ensures vnis { are_vnis new.now.tunnels ≡ true }
{
    (
        new.vid.get(),
        vni_of(&new.tunnels, Tunnel::Vxlan),
        vni_of(&new.tunnels, Tunnel::Geneve),
    )
}

impl<T: PoolTables> Parts<T> {
    /// Whether there is a segment of this one's VID, or one with a tunnel of the kind and VNI of one of its own.
    fn is_taken(&self, new: &NewSegment) -> bool
        requires sound { IsSound T.segments self.now }
        ensures { result ≡ is_taken (settings_of T.segments T.pool self.now) new.now }
    {
        self.check_segment(new.vid).is_ok() || !self.under.are_free(&new.tunnels)
    }

    /// How many segments there are.
    pub(crate) fn segment_count(&self) -> u32
        ensures settings { result ≡ segment_count (tables_asked (settings_of T.segments T.pool self.now)) }
        ensures tables { result ≡ segment_count (T.segments self.now.tables) }
    {
        self.tables.segment_count()
    }

    /// The most segments that there may be.
    fn most_segments(&self) -> u32
        ensures { result ≡ self.now.under.underlay.limits.segments }
    {
        u32::from(self.under.settings().limits.segments)
    }

    /// The most entries that a segment's table may have.
    fn most_entries(&self) -> u32
        ensures { result ≡ self.now.under.underlay.limits.entries }
    {
        self.under.settings().limits.entries
    }

    /// What is left of the pool: the most that the limit of another segment may be.
    pub(crate) fn room(&self) -> u32
        ensures settings { result + sum_of_limits (tables_asked (settings_of T.segments T.pool self.now)) ≡ T.pool self.now.tables }
        ensures tables { result + sum_of_limits (T.segments self.now.tables) ≡ T.pool self.now.tables }
    {
        self.tables.room()
    }

    /// Why a segment can't come.
    fn check_new(&self, new: &NewSegment) -> Result<(), ChangeFault>
        requires sound { IsSound T.segments self.now }
        ensures fault { fault_of result ≡ refused (settings_of T.segments T.pool self.now) (AddSegment new.now) }
        ensures vid { (1 ≤ new.now.vid) × (new.now.vid ≤ 4094) }
        ensures absent { IfOk result (λ done. T.segments self.now.tables new.now.vid ≡ None) }
        ensures free { IfOk result (λ done. IsTrue (are_free self.now.under new.now.tunnels)) }
        ensures few { IfOk result (λ done. segment_count (T.segments self.now.tables) < self.now.under.underlay.limits.segments) }
        ensures limit { IfOk result (λ done. (1 ≤ new.now.limit) × (new.now.limit ≤ self.now.under.underlay.limits.entries)) }
        ensures ageing { IfOk result (λ done. (10 ≤ new.now.ageing) × (new.now.ageing ≤ 1000000)) }
        ensures room { IfOk result (λ done. sum_of_limits (T.segments self.now.tables) + new.now.limit ≤ T.pool self.now.tables) }
    {
        // In range by their types.
        let _numbers = numbers_of(new);
        if !is_limit(self.most_entries(), new.limit) || !is_ageing(new.ageing) {
            return Err(ChangeFault::OutOfRange);
        }
        if self.is_taken(new) {
            return Err(ChangeFault::SegmentThere);
        }
        if self.segment_count() >= self.most_segments() {
            return Err(ChangeFault::SegmentsFull);
        }
        if new.limit > self.room() {
            return Err(ChangeFault::PoolFull);
        }
        Ok(())
    }

    /// Adds a segment, without members, flood list and entries.
    pub(crate) fn add_segment(&mut self, now: u64, new: NewSegment) -> Result<(), ChangeFault>
        requires sound { IsSound T.segments self.old }
        requires time { T.moment self.old.tables ≤ now }
        ensures fault { fault_of result ≡ fault (state_of T.segments T.pool now self.old) (AddSegment new) }
        ensures after { state_of T.segments T.pool now self.new
            ≡ after_change now (AddSegment new) (state_of T.segments T.pool now self.old) }
        ensures sound { IsSound T.segments self.new }
        ensures time { T.moment self.new.tables ≤ now }
        ensures calls_stay_counted { T.calls self.old.tables ≤ T.calls self.new.tables }
        ensures calls { T.calls self.new.tables ≤ T.calls self.old.tables + most_calls (AddSegment new) }
        ensures comparisons_stay_counted { T.compared self.old.tables ≤ T.compared self.new.tables }
        ensures compared { T.compared self.new.tables ≤ T.compared self.old.tables + most_compared_by (AddSegment new) }
    {
        self.check_new(&new)?;
        let NewSegment {
            vid,
            tunnels,
            limit,
            ageing,
            learning,
            peers,
            tags,
        } = new;
        self.ports.add_vid(vid);
        self.under.add_segment(TunnelRule {
            vid,
            tunnels,
            flood: FloodList::new(),
            peers,
            tags,
        });
        self.learning.set(vid, learning);
        let rule = TableRule { vid, limit, ageing };
        self.tables.add(rule, now);
        Ok(())
    }

    /// Removes a segment with its members, its flood list and all its entries. The PVIDs of ports stay.
    pub(crate) fn remove_segment(&mut self, now: u64, vid: Vid) -> Result<(), ChangeFault>
        requires sound { IsSound T.segments self.old }
        requires time { T.moment self.old.tables ≤ now }
        ensures fault { fault_of result ≡ fault (state_of T.segments T.pool now self.old) (RemoveSegment vid) }
        ensures after { state_of T.segments T.pool now self.new
            ≡ after_change now (RemoveSegment vid) (state_of T.segments T.pool now self.old) }
        ensures sound { IsSound T.segments self.new }
        ensures time { T.moment self.new.tables ≤ now }
        ensures calls_stay_counted { T.calls self.old.tables ≤ T.calls self.new.tables }
        ensures calls { T.calls self.new.tables ≤ T.calls self.old.tables + most_calls (RemoveSegment vid) }
        ensures comparisons_stay_counted { T.compared self.old.tables ≤ T.compared self.new.tables }
        ensures compared { T.compared self.new.tables ≤ T.compared self.old.tables + most_compared_by (RemoveSegment vid) }
    {
        self.check_segment(vid)?;
        self.ports.remove_vid(vid);
        self.under.remove_segment(vid);
        self.tables.remove(vid, now);
        Ok(())
    }

    /// Why a segment that is there can't have this limit.
    fn check_limit(&self, vid: Vid, limit: u32) -> Result<(), ChangeFault>
        requires sound { IsSound T.segments self.now }
        ensures fault { fault_of result ≡ refused (settings_of T.segments T.pool self.now) (SetLimit vid limit) }
        ensures there { IfOk result (λ done. IsSome (T.segments self.now.tables vid)) }
        ensures limit { IfOk result (λ done. (1 ≤ limit) × (limit ≤ self.now.under.underlay.limits.entries)) }
        ensures room { IfOk result (λ done. sum_of_limits (T.segments self.now.tables) + limit
            ≤ T.pool self.now.tables + (table_of vid (T.segments self.now.tables)).limit) }
    {
        self.check_segment(vid)?;
        if !is_limit(self.most_entries(), limit) {
            return Err(ChangeFault::OutOfRange);
        }
        let room = u64::from(self.room()) + u64::from(self.tables.limit(vid));
        if u64::from(limit) > room {
            return Err(ChangeFault::PoolFull);
        }
        Ok(())
    }

    /// Gives a segment another limit. If more entries are live, all its entries go, fixed ones too.
    pub(crate) fn set_limit(&mut self, now: u64, vid: Vid, limit: u32) -> Result<(), ChangeFault>
        requires sound { IsSound T.segments self.old }
        requires time { T.moment self.old.tables ≤ now }
        ensures fault { fault_of result ≡ fault (state_of T.segments T.pool now self.old) (SetLimit vid limit) }
        ensures after { state_of T.segments T.pool now self.new
            ≡ after_change now (SetLimit vid limit) (state_of T.segments T.pool now self.old) }
        ensures sound { IsSound T.segments self.new }
        ensures time { T.moment self.new.tables ≤ now }
        ensures calls_stay_counted { T.calls self.old.tables ≤ T.calls self.new.tables }
        ensures calls { T.calls self.new.tables ≤ T.calls self.old.tables + most_calls (SetLimit vid limit) }
        ensures comparisons_stay_counted { T.compared self.old.tables ≤ T.compared self.new.tables }
        ensures compared { T.compared self.new.tables ≤ T.compared self.old.tables + most_compared_by (SetLimit vid limit) }
    {
        self.check_limit(vid, limit)?;
        self.tables.set_limit(vid, limit, now);
        Ok(())
    }
}
