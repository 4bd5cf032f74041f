//! Links to slots: a slot's number, and its neighbours.
//!
//! Such a number has 32 bits, in slots and in the ends of lines, and says by its greatest value that there is none. An
//! `Option` of a number would be a tag and a number wherever it is stored or chosen between: two loads, two conditional
//! moves.
ghost use Rattle.std.specs.Prelude.{◌≡◌, Some, is_none};

use std::marker::Model;

/// The number of a slot.
#[derive(Clone, Copy)]
pub struct SlotId {
    pub(crate) number: u32,
}

impl Model for SlotId {
    ghost use Rattle.std.specs.Prelude.{ℕ, ◌<◌};

    ghost Value = { ℕ };

    ghost view = { λ s. s.number };

    ghost invariant = { λ s. s.number < 4294967295 };

    ghost inverse = { λ n. record { number = n } };
}

/// The number of a slot, if there is one, seen by contracts as that: a word, which says by the greatest number of all
/// that there is none.
#[derive(Clone, Copy)]
pub struct Link {
    word: u32,
}

impl Model for Link {
    ghost use Rattle.std.specs.Prelude.{Option, ℕ};
    ghost use Rattle.shared_tables.specs.Link.{slot_in, word_of};

    ghost Value = { Option ℕ };

    ghost view = { λ l. slot_in l.word };

    ghost inverse = { λ slot. record { word = word_of slot } };
}

/// The number of no slot.
const NOBODY: u32 = u32::MAX;

impl Link {
    /// No slot.
    pub const NONE: Link = Link { word: NOBODY };

    /// To a slot.
    #[inline(always)]
    pub fn to(slot: SlotId) -> Link
        ensures { result ≡ Some slot }
    {
        Link { word: slot.number }
    }

    /// The slot, if there is one.
    #[inline(always)]
    pub fn slot(self) -> Option<SlotId>
        ensures { result ≡ self }
    {
        if self.word == NOBODY {
            None
        } else {
            Some(SlotId { number: self.word })
        }
    }

    /// Whether there is no slot.
    #[inline(always)]
    pub fn is_none(self) -> bool
        ensures { result ≡ is_none self }
    {
        self.word == NOBODY
    }
}

/// A slot's neighbours on a line: none at an end, and where the slot is on no line.
#[derive(Clone, Copy)]
pub struct Links {
    pub previous: Link,
    pub next: Link,
}

/// No neighbours.
pub const ALONE: Links = Links {
    previous: Link::NONE,
    next: Link::NONE,
};

/// The two sides on which a slot has a neighbour.
#[derive(Clone, Copy)]
pub enum Side {
    Previous,
    Next,
}
