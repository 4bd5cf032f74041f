//! What the layers are opened with, of the rules of segments.
ghost use Rattle.std.specs.Prelude.{◌≡◌, IfOk, map};
ghost use Rattle.overlay.specs.Settings.{member_rule, table_rule, tunnel_rule};

use filter_db::TableRule;
use overlay::ports::MemberRule;
use overlay::settings::SegmentRule;
use overlay::underlay::TunnelRule;
use std::alloc::{AllocError, Global};

/// What the layers go by, each for the segments in their order.
#[derive(Drop)]
pub(crate) struct LayerRules {
    pub(crate) tables: Vec<TableRule>,
    pub(crate) members: Vec<MemberRule>,
    pub(crate) tunnels: Vec<TunnelRule>,
}

/// What the tables, the ports and the underlay go by.
pub(crate) fn layer_rules(
    alloc: Global,
    segments: Vec<SegmentRule>,
) -> Result<LayerRules, AllocError>
    ensures tables { IfOk result (λ rules. rules.tables.items ≡ map table_rule segments.items) }
    ensures members { IfOk result (λ rules. rules.members.items ≡ map member_rule segments.items) }
    ensures tunnels { IfOk result (λ rules. rules.tunnels.items ≡ map tunnel_rule segments.items) }
{
    let mut tables = Vec::new(alloc);
    let mut members = Vec::new(alloc);
    let mut tunnels = Vec::new(alloc);
    for segment in segments {
        tables.push(TableRule {
            vid: segment.vid,
            limit: segment.limit,
            ageing: segment.ageing,
        })?;
        members.push(MemberRule {
            vid: segment.vid,
            untagged: segment.untagged,
            tagged: segment.tagged,
        })?;
        tunnels.push(TunnelRule {
            vid: segment.vid,
            tunnels: segment.tunnels,
            flood: segment.flood,
            peers: segment.peers,
            tags: segment.tags,
        })?;
    }
    Ok(LayerRules {
        tables,
        members,
        tunnels,
    })
}
