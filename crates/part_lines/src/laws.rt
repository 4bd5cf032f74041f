//! Laws over the definitions.
ghost use Rattle.part_lines.specs.ReadBack.{ReadsBackCuts, ReadsBackDecisions, ReadsBackReplies};

/// From the line of a decision a merge reads the number of the event, and just the places where something left, in order.
pub fn decisions_read_back()
    ensures { ReadsBackDecisions }
{}

/// From the line of a change it reads the number of the event, and no place.
pub fn replies_read_back()
    ensures { ReadsBackReplies }
{}

/// The line of a capture that ends with a cut rest is read as such.
pub fn cuts_read_back()
    ensures { ReadsBackCuts }
{}
