//! Laws over the definitions.
ghost use Rattle.split_on_files.specs.Pass.{TellsAsAsked};

/// In front of a text, with nothing known yet, each interface is told as it is read where it is asked for, but for the
/// capture's header.
pub fn as_asked()
    ensures { TellsAsAsked }
{}
