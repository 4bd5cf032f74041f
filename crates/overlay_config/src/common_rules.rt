//! The keys `limit` to `tags`, which a segment of settings and one that comes later have alike.
//!
//! They are read by one function, beside the two ranges in which they differ.
ghost use Rattle.std.specs.Prelude.{◌≡◌};
ghost use Rattle.config_text.specs.Column.{range};
ghost use Rattle.config_text.specs.Reader.{place_of};
ghost use Rattle.overlay_config.specs.CommonRules.{common_of, tags_of};

use config_text::{Reader, SettingsFault, Truth, U32Range, Words};
use overlay::underlay::{PeerRule, TagRule};

const PEERS: [(&str, PeerRule); 2] = [("any", PeerRule::Any), ("listed", PeerRule::Listed)];

const TAGS: [(&str, TagRule); 2] = [("drop", TagRule::Drop), ("pass", TagRule::Pass)];

const ALL_TAGS: [(&str, TagRule); 3] = [
    ("drop", TagRule::Drop),
    ("pass", TagRule::Pass),
    ("never", TagRule::Never),
];

/// The most entries of a segment where no limit is given.
pub(crate) const USUAL_LIMIT: u32 = 256;

/// What a segment goes by, whatever its tunnels and its member ports are.
#[derive(Clone, Copy)]
pub(crate) struct CommonRules {
    pub(crate) limit: u32,
    pub(crate) ageing: u32,
    pub(crate) learning: bool,
    pub(crate) peers: PeerRule,
    pub(crate) tags: TagRule,
}

/// The rule on frames that begin with a tag. `all`: it may be `never`, as in version 3 and in changes.
fn read_tags(at: &Reader, all: bool) -> Result<TagRule, SettingsFault>
    ensures { result ≡ tags_of all (place_of at.now) }
{
    if all {
        at.defaulted("tags", &Words { words: &ALL_TAGS }, TagRule::Drop)
    } else {
        at.defaulted("tags", &Words { words: &TAGS }, TagRule::Drop)
    }
}

/// The keys from `limit` to `tags`, the first two within these ranges; this limit where none is given. `all`: tags may be
/// refused altogether.
#[tactic(auto, unfolding(crate::specs::CommonRules::common_of))]
pub(crate) fn read_common(
    at: &Reader,
    all: bool,
    usual: u32,
    limits: &U32Range,
    ageings: &U32Range,
) -> Result<CommonRules, SettingsFault>
    ensures { result ≡ common_of all usual (range limits.now.low limits.now.high) (range ageings.now.low ageings.now.high)
        (place_of at.now) }
{
    let limit = at.defaulted("limit", limits, usual)?;
    let ageing = at.defaulted("ageing", ageings, 300)?;
    let learning = at.defaulted("learn", &Truth, true)?;
    let peers = at.defaulted("peers", &Words { words: &PEERS }, PeerRule::Any)?;
    let tags = read_tags(at, all)?;
    Ok(CommonRules {
        limit,
        ageing,
        learning,
        peers,
        tags,
    })
}
