//! Laws over the definitions.
ghost use Rattle.pcap.specs.Calls.{TakesAllInTurn};
ghost use Rattle.pcap.specs.Capture.{OpensNothingElse, OpensWhatIsThere};
ghost use Rattle.pcap.specs.Reading.{GoesOnBehindNext};
ghost use Rattle.pcap.specs.Written.{ReadsWhatWasWritten};

/// A capture is opened as the header, the records and the rest that its text is, and as nothing else.
pub fn one_reading()
    ensures found { OpensWhatIsThere }
    ensures only { OpensNothingElse }
{}

/// Calls of `next` until it answers `None` give the records of the capture in turn and then the fault that it ends
/// with, if any; `is_cut` says then whether it ends with a rest that is no whole record.
pub fn all_in_turn()
    ensures { TakesAllInTurn }
{}

/// The records of a text are the next one and those of the text behind it.
pub fn one_by_one()
    ensures { GoesOnBehindNext }
{}

/// A header that was written and records that were written behind it are read as those records, and nothing behind them.
pub fn round_trip()
    ensures { ReadsWhatWasWritten }
{}
