//! Laws of the definitions, as contracts of functions that do nothing.
ghost use Rattle.decapsulate.specs.Arrival.{BringsWhatArrives};

/// A packet brings a frame exactly where it is, as a whole text, a datagram from another endpoint to this one with the
/// header of a segment's tunnel and that frame in it, where the ports of the two kinds differ.
pub fn one_meaning()
    ensures { BringsWhatArrives }
{}
