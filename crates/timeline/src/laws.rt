//! Laws over the definitions.
ghost use Rattle.timeline.specs.Events.{TellsEachRecord};
ghost use Rattle.timeline.specs.Order.{CapturesRise, KeepsWhatRises, MergedIsInOrder, NothingElseIsInOrder};

/// The merged events are all events in order of moment, in which those of one moment stand as before; and no other list
/// is that.
pub fn one_order()
    ensures is { MergedIsInOrder }
    ensures only { NothingElseIsInOrder }
{}

/// The moments of a capture's events never fall, and events whose moments never fall stay in their order.
pub fn captures_in_order()
    ensures rise { CapturesRise }
    ensures stay { KeepsWhatRises }
{}

/// The events of a capture are its records, one for each and in their order: with the octets and the length of the
/// record, with its number from 1, and at the greatest moment of the records up to it.
pub fn each_record()
    ensures { TellsEachRecord }
{}
