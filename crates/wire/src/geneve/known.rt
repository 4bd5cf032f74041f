//! The critical options that a reader takes.
ghost use Rattle.std.specs.Prelude.{◌≡◌, ◌≤◌, ◌<◌, ◌↔◌, [], ◌∷◌, ◌++◌, length, IsOk, OnOk, OnErr};
ghost use Rattle.wire.specs.GeneveOptions.{holds, accepts};

use arrayvec::ArrayVec;
use std::marker::Model;
use thiserror::Error;

/// The most options that a list has.
const CAPACITY: usize = 16;

/// The list has 16 options.
#[derive(Clone, Copy, Debug, PartialEq, Eq, Error)]
#[error("KnownFull")]
pub struct KnownFull;

/// At most 16 options by class and whole type octet, seen by contracts as the list of these pairs, in order.
#[derive(Clone, Debug, Default, Drop, PartialEq, Eq)]
pub struct Known {
    pairs: ArrayVec<(u16, u8), CAPACITY>,
}

impl Model for Known {
    ghost use Rattle.std.specs.Prelude.{ℕ, List};

    ghost Value = { List (ℕ × ℕ) };

    ghost view = { λ k. k.pairs.items };

    ghost inverse = { λ pairs. record { pairs = record { items = pairs } } };
}

impl Known {
    /// The list of none.
    pub fn new() -> Known
        ensures { result ≡ [] }
    {
        Known {
            pairs: ArrayVec::new(),
        }
    }

    /// Puts an option last. `KnownFull`: the list has 16, and stays as it was.
    pub fn try_push(&mut self, class: u16, kind: u8) -> Result<(), KnownFull>
        ensures room { IsOk result ↔ (length self.old < 16) }
        ensures put { OnOk result (self.new ≡ self.old ++ (class, kind) ∷ []) }
        ensures full { OnErr result (self.new ≡ self.old) }
    {
        self.pairs.try_push((class, kind)).map_err(|_| KnownFull)
    }

    /// Whether it has this option, by class and whole type octet.
    pub fn holds(&self, class: u16, kind: u8) -> bool
        ensures { result ≡ holds self.now class kind }
    {
        self.pairs
            .iter()
            .any(|pair| pair.0 == class && pair.1 == kind)
    }

    /// The pairs of class and type, in order.
    pub fn pairs(&self) -> &[(u16, u8)]
        ensures value { result.now ≡ self.now }
        ensures fits { length result.now ≤ 16 }
    {
        self.pairs.as_slice()
    }

    /// Whether a packet with this option is taken: the option isn't critical, or it is on the list.
    pub(crate) fn accepts(&self, class: u16, kind: u8) -> bool
        ensures { result ≡ accepts self.now class kind }
    {
        kind < 128 || self.holds(class, kind)
    }
}
