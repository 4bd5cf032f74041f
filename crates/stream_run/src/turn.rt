//! Whose event comes next.
ghost use Rattle.std.specs.Prelude.{◌≡◌, ◌<◌, ◌+◌, ℕ, List, length, slice_index_or, None};
ghost use Rattle.stream_run.specs.Fetched.{IsMoment};
ghost use Rattle.stream_run.specs.Upcoming.{comes_before, moment_in};

use std::marker::Model;

/// Later than each moment that an event has.
pub(crate) const NEVER: u64 = u64::MAX;

/// The moment of the next event of a source, if there is one, seen by contracts as that: a word, which says by the latest
/// moment of all that there is none.
#[derive(Clone, Copy)]
pub struct Upcoming {
    pub(crate) word: u64,
}

impl Model for Upcoming {
    ghost use Rattle.std.specs.Prelude.{Option, ℕ};
    ghost use Rattle.stream_run.specs.Upcoming.{moment_in, word_of};

    ghost Value = { Option ℕ };

    ghost view = { λ u. moment_in u.word };

    ghost inverse = { λ next. record { word = word_of next } };
}

impl Upcoming {
    /// No event.
    pub fn none() -> Upcoming
        ensures { result ≡ None }
    {
        Upcoming { word: NEVER }
    }

    /// One at this moment, if there is one.
    #[inline(always)]
    pub fn at(moment: Option<u64>) -> Upcoming
        requires { IsMoment moment }
        ensures { result ≡ moment }
    {
        Upcoming {
            word: moment.unwrap_or(NEVER),
        }
    }

    /// Whether there is one, before a moment.
    #[inline(always)]
    pub fn is_before(self, moment: u64) -> bool
        ensures { result ≡ comes_before self moment }
    {
        self.word < moment
    }
}

/// Where the changes or a capture stand in a run.
#[derive(Clone, Copy)]
pub struct Turn {
    /// How many of its events came.
    pub done: u64,
    /// The moment of the next one, if there is one.
    pub next: Upcoming,
}

/// The event that comes first: where its source stands in the list, and its moment.
#[derive(Clone, Copy)]
pub struct First {
    pub index: usize,
    pub moment: u64,
}
