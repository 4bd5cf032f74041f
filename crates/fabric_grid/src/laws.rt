//! Laws over the definitions.
ghost use Rattle.fabric_grid.specs.Holes.{HolesAreToldOnce, LinesTellHoles};

/// Each hole is told on exactly one line.
pub fn holes_are_told_once()
    ensures { HolesAreToldOnce }
{}

/// What a line tells of is a hole for the reason of that line.
pub fn lines_tell_holes()
    ensures { LinesTellHoles }
{}
