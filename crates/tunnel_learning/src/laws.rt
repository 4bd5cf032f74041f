//! A law over the definitions.
ghost use Rattle.tunnel_learning.specs.Once.{LeavesOnceAtEachPlace};

/// A frame leaves at most once at each place, where the flood list names none twice.
pub fn once_at_each_place()
    ensures { LeavesOnceAtEachPlace }
{}
