//! What is run.
use overlay_config::{Settings, TimedChange};
use segment_set::SegmentSet;

/// A run over streams, as it is asked for.
#[derive(Drop)]
pub struct Job<'a> {
    pub settings_text: &'a [u8],
    pub changes_text: &'a [u8],
    /// What the settings' text means.
    pub settings: Settings,
    /// What the changes' text means.
    pub changes: &'a [TimedChange],
    /// To which it is told: all, or some as a part.
    pub segments: &'a SegmentSet,
}
