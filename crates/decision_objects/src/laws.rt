//! Laws over the definitions.
ghost use Rattle.decision_objects.specs.Run.{WritesRuns};

/// Behind a run of any events, or of a part of it, the objects of those that are told were written, one behind another; or the
/// front of that at which the output failed.
pub fn runs()
    ensures { WritesRuns }
{}
