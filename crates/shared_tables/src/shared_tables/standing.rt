//! Segments come, go and get other limits.
ghost use Rattle.std.specs.Prelude.{◌≡◌, ℕ, ◌+◌, ◌≤◌, IfSome, IfNone, IsSome, None, length};
ghost use Rattle.filter_db.specs.Segment.{segment_at, adjusted};
ghost use Rattle.filter_db.specs.Standing.{sum_of_limits, segment_count, added, removed};
ghost use Rattle.shared_tables.specs.Pool.{entry_at};
ghost use Rattle.shared_tables.specs.Shared.{rule_at, kept_count};
ghost use Rattle.shared_tables.specs.Segments.{segments_of};
ghost use Rattle.shared_tables.specs.Standing.{NoneFixed, IsFixedOf, with_limit};

use crate::links::SlotId;
use crate::share::{self, Share};
use crate::shared_tables::SharedTables;
use crate::standing;
use filter_db::TableRule;
use wire::ether::Vid;

impl SharedTables {
    /// How many slots no segment's limit promises.
    pub(crate) fn unpromised(&self) -> u32
        ensures { result + sum_of_limits (segments_of self.now) ≡ length self.now.entries }
    {
        self.slots.size() - standing::sum_of_limits(&self.shares)
    }

    /// How many segments there are.
    pub(crate) fn shares_there(&self) -> u32
        ensures { result ≡ segment_count (segments_of self.now) }
    {
        standing::segment_count(&self.shares)
    }

    /// Gives a new segment its share, without entries.
    pub(crate) fn begin_share(&mut self, rule: TableRule)
        requires absent { rule_at self.old.rules rule.vid ≡ None }
        requires some_time { 1 ≤ rule.ageing }
        requires room { sum_of_limits (segments_of self.old) + rule.limit ≤ length self.old.entries }
        ensures segments { segments_of self.new ≡ added rule (segments_of self.old) }
        ensures same { self.new ≡ record self.old { rules = self.new.rules } }
    {
        share::open_share(&mut self.shares, &rule);
    }

    /// Takes the share of a segment out, which has no entries left.
    pub(crate) fn end_share(&mut self, vid: Vid)
        requires none { kept_count vid self.old.entries ≡ 0 }
        ensures segments { segments_of self.new ≡ removed vid (segments_of self.old) }
        ensures same { self.new ≡ record self.old { rules = self.new.rules } }
    {
        standing::strike(&mut self.shares, vid);
    }

    /// Gives a segment another limit, which isn't below the number of its entries.
    pub(crate) fn set_most(&mut self, vid: Vid, limit: u32)
        requires rule { IsSome (rule_at self.old.rules vid) }
        requires few { kept_count vid self.old.entries ≤ limit }
        requires room { sum_of_limits (segments_of self.old) + limit
            ≤ length self.old.entries + (segment_at vid (segments_of self.old)).limit }
        ensures segments { segments_of self.new
            ≡ adjusted vid (with_limit limit) (segments_of self.old) }
        ensures same { self.new ≡ record self.old { rules = self.new.rules } }
    {
        if let Some(share) = share::share_at(&self.shares, vid) {
            share::set_share(&mut self.shares, vid, Share { limit, ..share });
        }
    }

    /// The first of a segment's fixed entries.
    pub(crate) fn first_fixed(&self, vid: Vid) -> Option<SlotId>
        requires { IsSome (rule_at self.now.rules vid) }
        ensures none { IfNone result (NoneFixed self.now.entries vid) }
        ensures some { IfSome result (IsFixedOf self.now.entries vid) }
    {
        match share::share_at(&self.shares, vid) {
            Some(share) => share.fixed.first.slot(),
            None => None,
        }
    }
}
