//! Laws of the definitions, as contracts of functions that do nothing.
ghost use Rattle.overlay.specs.Ingress.{ReadsWhereLongEnough, ReadsOneFrame, EntersExactly, RefusedExactly, InOrder};
ghost use Rattle.overlay.specs.Setters.{UpAlone, MemberAlone, MemberKeepsSegments, SegmentAlone, RemovalAlone};

/// How a text is read as a frame with a tag or without; and that a text either enters one segment or is refused for
/// one reason, by what is said of each.
pub fn one_answer()
    ensures reads { ReadsWhereLongEnough }
    ensures one_frame { ReadsOneFrame }
    ensures enters { EntersExactly }
    ensures refused { RefusedExactly }
    ensures in_order { InOrder }
{}

/// What the setters of a set of ports change, and that they change nothing else.
pub fn setters()
    ensures up { UpAlone }
    ensures member { MemberAlone }
    ensures segments { MemberKeepsSegments }
    ensures added { SegmentAlone }
    ensures removed { RemovalAlone }
{}
