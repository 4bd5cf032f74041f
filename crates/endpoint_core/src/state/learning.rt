//! Which segments learn.
ghost use Rattle.std.specs.Prelude.{◌≡◌, ◌==◌, ℕ, if◌then◌else◌, IfOk, false};
ghost use Rattle.endpoint_core.specs.Learning.{learns, tells_learning};

use overlay::settings::SegmentRule;
use std::alloc::{AllocError, Global};
use std::marker::Model;
use wire::ether::Vid;

/// Whether the segment of each VID learns, seen by contracts as the list for VID 0, 1 and so on. Only
/// [`Learning::open`] takes memory.
#[derive(Drop)]
pub(crate) struct Learning {
    places: Vec<bool>,
}

impl Model for Learning {
    ghost use Rattle.std.specs.Prelude.{◌<◌, List, Bool, length};

    ghost Value = { List Bool };

    ghost view = { λ l. l.places.items };

    ghost invariant = { λ l. 4094 < length l.places.items };
}

impl Learning {
    /// Those segments learn of which a rule says so.
    pub(crate) fn open(alloc: Global, rules: &[SegmentRule]) -> Result<Learning, AllocError>
        ensures { IfOk result (λ learning. (vid : ℕ) → learns learning vid ≡ tells_learning rules.now vid) }
    {
        let mut learning = Learning::none(alloc)?;
        for rule in rules {
            if rule.learning {
                learning.set(rule.vid, true);
            }
        }
        Ok(learning)
    }

    /// No segment learns.
    fn none(alloc: Global) -> Result<Learning, AllocError>
        ensures { IfOk result (λ learning. (vid : ℕ) → learns learning vid ≡ false) }
    {
        Ok(Learning {
            places: vec![in alloc; false; place_count()]?,
        })
    }

    /// Whether the segment of a VID learns.
    pub(crate) fn get(&self, vid: Vid) -> bool
        ensures { result ≡ learns self.now vid }
    {
        self.places[vid.get() as usize]
    }

    /// Sets whether the segment of a VID learns, and leaves the others.
    pub(crate) fn set(&mut self, vid: Vid, on: bool)
        ensures { (w : ℕ) → learns self.new w ≡ (if w == vid then on else learns self.old w) }
    {
        self.places[vid.get() as usize] = on;
    }
}

ghost use Rattle.std.specs.Prelude.{◌<◌};

/// How many places there are: one for each number of 12 bits.
fn place_count() -> usize
    ensures { 4094 < result }
{
    4096
}
