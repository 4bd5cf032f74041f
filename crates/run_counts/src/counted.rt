//! Whoever knows counts by segments.
ghost use Rattle.std.specs.Prelude.{◌≡◌};
ghost use Rattle.endpoint_core.specs.Counts.{Counts};
ghost use Rattle.endpoint_core.specs.Kept.{state_of};

use endpoint_core::Endpoint;
use wire::ether::Vid;

/// Whoever knows how often each thing was decided, by segments.
pub trait Counted {
    /// The counts.
    ghost counts: { Self → Counts };

    /// How often it was decided in a segment, or in none: number 0 for what was sent, and a reason's number for the drops and
    /// the outcomes that weren't sent for that reason.
    fn count(&self, segment: Option<Vid>, number: u8) -> u64
        ensures { result ≡ counts self.now segment number };
}

impl Counted for Endpoint {
    ghost counts = { λ e. (state_of e).counts };

    fn count(&self, segment: Option<Vid>, number: u8) -> u64 {
        Endpoint::count(self, segment, number)
    }
}
