//! How many records were left aside.
ghost use Rattle.std.specs.Prelude.{◌≡◌, Some, codes};
ghost use Rattle.capture_compare.specs.Aside.{aside_text};

use crate::Aside;
use crate::lines::sides::Sides;
use std::fmt;
use timeline::Tap;

/// The lines of how many records were left aside: of two captures one fact a line, of a place one line.
#[derive(Clone, Copy)]
pub struct AsideLines {
    pub at: Option<Tap>,
    pub aside: Aside,
}

impl AsideLines {
    /// How many of each side, with this between the two.
    fn sides(&self, between: &'static str) -> Sides
        ensures word { result.word.now ≡ codes "left aside" }
        ensures between { result.between.now ≡ between.now }
        ensures sent { result.sent ≡ self.now.aside.sent }
        ensures received { result.received ≡ self.now.aside.received }
    {
        Sides {
            word: "left aside",
            between,
            sent: self.aside.sent,
            received: self.aside.received,
        }
    }
}

impl fmt::Display for AsideLines {
    ghost output = { λ lines. Some (aside_text lines.at lines.aside) };

    fn fmt<W: fmt::Write>(&self, f: &mut fmt::Formatter<W>) -> fmt::Result {
        match self.at {
            None => {
                let lines = self.sides("\n");
                write!(f, "{lines}\n")
            }
            Some(tap) => {
                let line = self.sides(", ");
                write!(f, "{tap}: {line}\n")
            }
        }
    }
}
