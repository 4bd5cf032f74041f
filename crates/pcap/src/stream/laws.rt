//! Laws over whole runs.
ghost use Rattle.pcap.specs.Block.{StandsOutside};
ghost use Rattle.pcap.specs.InTurn.{LendsAllThatIsThere, LendsWhatIsThere, SpendsTogether, WritesWhatWasPut};

/// The records that a source lends one after another are, in turn, those of its input's octets. Where it lends no more,
/// and no read failed, all were lent, and the octets end with the fault, the cut rest or the whole end that it tells.
pub fn all_in_turn()
    ensures first { LendsWhatIsThere }
    ensures all { LendsAllThatIsThere }
{}

/// The reads of all calls count together: over its life a source makes no more of them than it was given.
pub fn all_reads_count()
    ensures { SpendsTogether }
{}

/// What a sink wrote is the texts that were put, side by side, and after a fault a part of them.
pub fn all_that_was_put()
    ensures { WritesWhatWasPut }
{}

/// Where a block holds nothing, all that was written stands in the output behind it, as if there were no block.
pub fn nothing_held_back()
    ensures { StandsOutside }
{}
