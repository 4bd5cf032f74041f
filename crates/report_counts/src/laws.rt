//! Laws over the definitions.
ghost use Rattle.report_counts.specs.ReadBack.{ReadsBackDrops, ReadsBackReplies};

/// From the line of a drop come back its number, moment, source, number there, segment and reason.
pub fn drops_read_back()
    ensures { ReadsBackDrops }
{}

/// From the line of a change come back the same, and whether it was made, or the cause for which it was refused.
pub fn replies_read_back()
    ensures { ReadsBackReplies }
{}
