//! Laws of the definitions, as contracts of functions that do nothing.
ghost use Rattle.wire.specs.GeneveReading.{PacketWhereNothingHolds, PacketNowhereElse, PacketSent};
ghost use Rattle.wire.specs.GeneveReading.{OptionsWhereTheyAdd, OptionsNowhereElse};

/// A text is a Geneve packet with allowed options exactly where none of the faults holds, and in one way alone: with the
/// identifier, the options and the payload that stand at their places. A header that is sent, with any text behind it,
/// is one.
pub fn one_reading()
    ensures found { PacketWhereNothingHolds }
    ensures only { PacketNowhereElse }
    ensures sent { PacketSent }
{}

/// A text is the texts of options, side by side, exactly where its lengths add up, and of one list of options alone.
pub fn one_list_of_options()
    ensures found { OptionsWhereTheyAdd }
    ensures only { OptionsNowhereElse }
{}
