//! Laws over the definitions.
ghost use Rattle.tunnel_traffic.specs.Run.{CountsRuns};

/// Behind a run of any events, or of a part of it, the tables show what those events and their answers come to.
pub fn runs()
    ensures { CountsRuns }
{}
