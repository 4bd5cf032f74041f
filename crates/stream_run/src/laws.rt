//! Laws over whole runs.
ghost use Rattle.stream_run.specs.HandedOn.{AsksSeldom, GoesOnOnlyThen, HandsOnSeldom};
ghost use Rattle.stream_run.specs.Over.{LeavePart, LeaveWhole};
ghost use Rattle.stream_run.specs.Waiting.{LeaveTheSame};

/// Where each event is taken in, as [`TakesAll`](crate::TakesAll) does, what [`run`](crate::run) says of some segments is what
/// comes out of a part of the run of all texts, and of all segments what comes out of the whole.
pub fn takes_all()
    ensures part { LeavePart }
    ensures whole { LeaveWhole }
{}

/// Two whole runs over the same texts that stop at no fault leave the same texts: also where the one wrote in blocks, and
/// handed them on before each read that might wait, and the other each text at once.
pub fn in_blocks_or_at_once()
    ensures { LeaveTheSame }
{}

/// An output in blocks hands on what it holds at most twice for each block of octets that are written, and once each time that it
/// is asked to: before reads that may wait, and where so many octets more might find no room. That it is asked for want of room
/// comes at most once for each block of octets but for so many. Else nothing is written to the output behind.
pub fn few_hand_overs()
    ensures seldom { HandsOnSeldom }
    ensures asks { AsksSeldom }
    ensures only_then { GoesOnOnlyThen }
{}
