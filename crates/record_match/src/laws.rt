//! Laws of what is matched.
ghost use Rattle.record_match.specs.Laws.{EachIsTold, HeldIsEnough, ItselfIsWhole, NoneIsLeft};

/// A list that is compared with itself is received whole.
pub fn itself_is_whole()
    ensures { ItselfIsWhole }
{}

/// Each record that is received is one that was sent, or lonely; and none that is lonely is one that was sent and wasn't
/// received.
pub fn each_is_told()
    ensures each { EachIsTold }
    ensures none { NoneIsLeft }
{}

/// Only what a window holds has to be asked: what is over, and what is later than a record that is received, is none that it is.
pub fn held_is_enough()
    ensures { HeldIsEnough }
{}
