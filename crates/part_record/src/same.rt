//! Whether two parts are of one run.
ghost use Rattle.std.specs.Prelude.{◌≡◌, ◌≢◌, ◌<◌, ◌≤◌, length, take, slice_get, IfErr, IfNone, IfSome, IsTrue, OnOk, ◌↔◌, true};
ghost use Rattle.std.specs.Option.{option_copied};
ghost use Rattle.part_record.specs.Record.{facts_of};
ghost use Rattle.part_record.specs.Same.{Agrees, AreOfOneRun, comes_before};
ghost use Rattle.part_record.specs.declared.same.Difference.{Difference};

use crate::facts::PartRecord;
use crate::steps::is_same;
use thiserror::Error;
use timeline::Tap;

/// What two parts of one run would have alike, and these have not. It prints as a sentence without its full stop.
#[derive(Clone, Copy, Debug, PartialEq, Eq, Error)]
pub enum Difference {
    /// The settings text.
    #[error("it was made with other settings than the first part")]
    Settings,
    /// The changes text, or one has none.
    #[error("it was made with other changes than the first part")]
    Changes,
    /// A capture, or one has none of this port.
    #[error("it was made from another capture {0} than the first part")]
    Capture(Tap),
    /// Whether captures hold both directions, or how long behind its frame what the switch itself sent was left out.
    #[error("it was made with another --both or --within than the first part")]
    Both,
}

/// Whether two parts are of one run: all their facts but the segments and their own events are the same. `Err`: the first that
/// isn't, in the order of their lines.
pub fn same_run(a: &PartRecord<'_>, b: &PartRecord<'_>) -> Result<(), Difference>
    ensures ok { OnOk result (AreOfOneRun (facts_of a.now) (facts_of b.now)) }
    ensures other { IfErr result (λ d. ¬ Agrees d (facts_of a.now) (facts_of b.now)) }
    ensures first { IfErr result (λ d. (e : Difference) → comes_before e d ≡ true → Agrees e (facts_of a.now) (facts_of b.now)) }
{
    if !is_same(a.settings.as_slice(), b.settings.as_slice()) {
        return Err(Difference::Settings);
    }
    if !is_same_choice(a.changes.as_ref(), b.changes.as_ref()) {
        return Err(Difference::Changes);
    }
    if let Some(index) = first_other(a.ports.as_slice(), b.ports.as_slice()) {
        return Err(Difference::Capture(Tap::Port(index as u8 + 1)));
    }
    if !is_same(a.underlay.as_slice(), b.underlay.as_slice()) {
        return Err(Difference::Capture(Tap::Underlay));
    }
    if a.both != b.both {
        return Err(Difference::Both);
    }
    Ok(())
}

/// Whether both are the same digest, or neither is one.
fn is_same_choice(a: Option<&[u8; 32]>, b: Option<&[u8; 32]>) -> bool
    ensures { IsTrue result ↔ (option_copied a.entry ≡ option_copied b.entry) }
{
    match (a, b) {
        (Some(a), Some(b)) => is_same(a.as_slice(), b.as_slice()),
        (None, None) => true,
        _ => false,
    }
}

/// The first place at which two lists differ.
fn first_other(a: &[[u8; 32]], b: &[[u8; 32]]) -> Option<usize>
    requires few { length a.now ≤ 255 }
    requires others { length b.now ≤ 255 }
    ensures none { IfNone result (a.now ≡ b.now) }
    ensures some { IfSome result (λ k. (take k a.now ≡ take k b.now) × (slice_get a.now k ≢ slice_get b.now k) × (k < 255)) }
{
    let common = a.len().min(b.len());
    for index in 0..common {
        if !is_same(a[index].as_slice(), b[index].as_slice()) {
            return Some(index);
        }
    }
    if a.len() == b.len() {
        None
    } else {
        Some(common)
    }
}
