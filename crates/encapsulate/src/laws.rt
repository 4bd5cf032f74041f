//! Laws about the definitions: each is the contract of a function that does nothing.
ghost use Rattle.encapsulate.specs.Fitting.{TooBigAboveTheMtu};

/// A frame is too big for a remote endpoint exactly where the IP packet that it would be sent in is longer than the MTU.
pub fn fitting()
    ensures { TooBigAboveTheMtu }
{}
