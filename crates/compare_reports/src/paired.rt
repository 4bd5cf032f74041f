//! Two captures, compared.
ghost use Rattle.std.specs.Prelude.{◌≡◌, ◌≤◌, ◌<◌, ◌^◌, ℕ, List, IfOk, Some};
ghost use Rattle.pcap.specs.Source.{New, most_left};
ghost use Rattle.record_match.specs.Settled.{Shows};
ghost use Rattle.compare_reports.specs.Outcome.{IsOutcome};

use capture_compare::carried::{KeyRoom, Manner};
use capture_compare::lines::Counts;
use capture_compare::{Aside, CompareFault, compare_captures};
use pcap::stream::{Input, Source};
use record_match::{Clock, Comparison, Cut, Onlooker};
use std::alloc::{AllocError, Global};

/// What was counted of two captures, and why they weren't compared to their ends.
#[derive(Clone, Copy)]
pub(crate) struct Outcome {
    pub(crate) counts: Counts,
    /// How many records are cut.
    pub(crate) cut: Cut,
    /// How many records were left aside.
    pub(crate) aside: Aside,
    pub(crate) end: Result<(), CompareFault>,
}

/// Compares two captures of which nothing was read, by a manner, and shows it to whoever looks on. `AllocError`: there was no memory
/// for what is held.
pub(crate) fn compare_pair<R: Input, W: Onlooker>(
    alloc: Global,
    clock: Clock,
    manner: &Manner,
    sent: &mut Source<R>,
    received: &mut Source<R>,
    onlooker: &mut W,
) -> Result<Outcome, AllocError>
    requires new_sent { sent.old.standing ≡ New }
    requires new_received { received.old.standing ≡ New }
    requires most_sent { most_left sent.old < 2 ^ 64 }
    requires most_received { most_left received.old < 2 ^ 64 }
    requires sent_delay { clock.sent_delay ≤ 2000000000000000000 }
    requires received_delay { clock.received_delay ≤ 2000000000000000000 }
    ensures told { IfOk result (λ outcome. Shows W.sees onlooker.old onlooker.new (λ log. (sent_text received_text : List ℕ)
        → sent.old.supply.rest ≡ Some sent_text → received.old.supply.rest ≡ Some received_text
        → IsOutcome manner.now clock sent_text received_text log outcome)) }
{
    let mut comparison = Comparison::new(alloc, clock.within)?;
    let mut room = KeyRoom::new(alloc)?;
    let mut aside = Aside::none();
    let end = compare_captures(
        sent,
        received,
        clock,
        manner,
        &mut room,
        &mut comparison,
        &mut aside,
        onlooker,
    );
    comparison.finish(onlooker);
    Ok(Outcome {
        counts: Counts::of(&comparison),
        cut: comparison.cut(),
        aside,
        end,
    })
}
