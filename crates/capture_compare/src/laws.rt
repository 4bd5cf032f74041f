//! A law of two captures that are compared.
ghost use Rattle.capture_compare.specs.Laws.{ItselfIsBoth};

/// All records of a capture that is compared with itself are both, and none is of one alone.
pub fn itself_is_both()
    ensures { ItselfIsBoth }
{}
