//! The texts of a run.
ghost use Rattle.std.specs.Prelude.{◌≡◌, ℕ, List, [], Ok, Err, IfErr, IfOk, Vec as AVec};
ghost use Rattle.std.specs.declared.alloc.Global.{Global as AGlobal};
ghost use Rattle.overlay_config.specs.Change.{IsRising, changes_in};
ghost use Rattle.overlay_config.specs.Settings.{settings_in};
ghost use Rattle.overlay.specs.Rules.{EachBehind};
ghost use Rattle.capture_run.specs.Run.{Gives, run as run_of};

use capture_run::{RunFault, of_changes, of_settings};
use overlay_config::{Settings, TimedChange, changes_of, settings_of};
use std::alloc::Global;

/// What the texts of a run mean.
#[derive(Drop)]
pub struct ReadTexts {
    pub settings: Settings,
    pub changes: Vec<TimedChange>,
}

/// Reads the texts of a run. A fault of the settings comes before one of the changes, and either is what the run of these texts
/// answers, whatever its captures tell; or memory was refused.
pub fn read_texts(alloc: Global, settings: &[u8], changes: &[u8]) -> Result<ReadTexts, RunFault>
    ensures settings { IfOk result (λ read. settings_in settings.now ≡ Ok read.settings) }
    ensures told { IfOk result (λ read. changes_in changes.now ≡ Ok read.changes.items) }
    ensures rising { IfOk result (λ read. EachBehind IsRising [] read.changes.items) }
    ensures refused { IfErr result (λ fault. (texts : List (AVec ℕ AGlobal)) (text : List ℕ)
        → Gives (Err fault) (run_of (settings_in settings.now) (changes_in changes.now) texts text)) }
{
    let read = match settings_of(alloc, settings) {
        Ok(read) => read,
        Err(fault) => return Err(of_settings(fault)),
    };
    match changes_of(alloc, changes) {
        Ok(told) => Ok(ReadTexts {
            settings: read,
            changes: told,
        }),
        Err(fault) => Err(of_changes(fault)),
    }
}
