//! The first of the next events.
ghost use Rattle.std.specs.Prelude.{◌≡◌, ◌<◌, ◌+◌, ℕ, List, length, slice_index_or};
ghost use Rattle.stream_run.specs.Fetched.{IsMoment};
ghost use Rattle.stream_run.specs.Turns.{FindsFirst, IsFirstSoFar};
ghost use Rattle.stream_run.specs.declared.turn.Turn.{Turn as Stands};

use crate::turn::{First, NEVER, Turn, Upcoming};

/// The first of the next events: the earliest, and of those of one moment that of the first source in the list.
pub fn find_first(turns: &[Turn]) -> Option<First>
    requires { (t : Stands) (k : ℕ) → k < length turns.now → IsMoment (slice_index_or turns.now k t).next }
    ensures { FindsFirst turns.now (length turns.now) result }
{
    let mut first = First {
        index: 0,
        moment: NEVER,
    };
    for (index, turn) in turns.iter().enumerate() {
        first = earlier(first, index, turn.next);
    }
    if first.moment == NEVER {
        None
    } else {
        Some(first)
    }
}

/// The first of some events and of one more, that of the source behind theirs.
#[inline(always)]
fn earlier(first: First, index: usize, next: Upcoming) -> First
    requires { IsMoment next }
    ensures { (turns : List Stands) → IsFirstSoFar turns index first
        → ((t : Stands) → (slice_index_or turns index t).next ≡ next) → IsFirstSoFar turns (index + 1) result }
{
    if next.is_before(first.moment) {
        First {
            index,
            moment: next.word,
        }
    } else {
        first
    }
}
