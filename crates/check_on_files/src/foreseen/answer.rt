//! What a state answers to a change, of which only what the settings say is kept.
ghost use Rattle.std.specs.Prelude.{◌≡◌};
ghost use Rattle.endpoint_core.specs.Change.{changed, refused};
ghost use Rattle.endpoint_core.specs.Held.{moment_of, settings_of};
ghost use Rattle.check_on_files.specs.Foreseen.{by_settings, is_unfix};

use endpoint_core::state::{Change, ChangeFault, EndpointState};

/// Whether a change takes a fixed entry away.
fn is_unfix(change: Change) -> bool
    ensures { result ≡ is_unfix change }
{
    matches!(change, Change::Unfix { .. })
}

/// The fault that a change is refused with, unless it is that of a table.
fn by_settings(change: Change, fault: ChangeFault) -> Option<ChangeFault>
    ensures { result ≡ by_settings change fault }
{
    match fault {
        ChangeFault::TableFull => None,
        ChangeFault::NotThere if is_unfix(change) => None,
        _ => Some(fault),
    }
}

/// Makes a change, and answers why the settings refuse it, where they do. What they say doesn't depend on the moment: all
/// changes are made at moment 0.
pub(crate) fn refuse(state: &mut EndpointState, change: Change) -> Option<ChangeFault>
    requires time { moment_of state.old ≡ 0 }
    ensures fault { result ≡ refused (settings_of state.old) change }
    ensures settings { settings_of state.new ≡ changed (settings_of state.old) change }
    ensures time { moment_of state.new ≡ 0 }
{
    let asked = change;
    match state.change(0, asked) {
        Ok(()) => None,
        Err(fault) => by_settings(change, fault),
    }
}
