//! Laws of the definitions, as contracts of functions that do nothing.
ghost use Rattle.wire.specs.VxlanReading.{PacketWhereNothingHolds, PacketNowhereElse, PacketSent};

/// A text is a VXLAN packet exactly where none of the faults holds, and in one way alone: with the identifier and the
/// payload that stand at their places. A header that is sent, with any text behind it, is one.
pub fn one_reading()
    ensures found { PacketWhereNothingHolds }
    ensures only { PacketNowhereElse }
    ensures sent { PacketSent }
{}
