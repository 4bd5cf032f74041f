//! Laws of the definitions, as contracts of functions that do nothing.
ghost use Rattle.wire.specs.SumLaws.{WordsStay, CarriesAreAdded, ChecksumsComplete};

/// Folding adds the carries of a sum to its low 16 bits until there are none (RFC 1071, 4.1), and a text with its
/// checksum put in at an even place sums up to all ones (RFC 1071, 1).
pub fn folding()
    ensures stays { WordsStay }
    ensures carries { CarriesAreAdded }
    ensures completes { ChecksumsComplete }
{}
