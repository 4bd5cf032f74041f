//! Laws of the definitions, as contracts of functions that do nothing.
ghost use Rattle.endpoint_core.specs.Laws.{AgesOnTheWay, RefusedChangesNothing, SettingsAlone};

/// What is held is at a later moment what is left of it then.
pub fn ageing()
    ensures { AgesOnTheWay }
{}

/// A refused change changes nothing, and the settings after a change depend on the settings before it alone.
pub fn changes()
    ensures refused { RefusedChangesNothing }
    ensures settings { SettingsAlone }
{}
