//! The place in front of a line.
ghost use Rattle.std.specs.Prelude.{Some};
ghost use Rattle.capture_compare.specs.Tables.{place_words};

use std::fmt;
use timeline::Tap;

/// The place in front of a line, where captures of several are compared.
#[derive(Clone, Copy)]
pub(crate) struct AtPlace(pub(crate) Option<Tap>);

impl fmt::Display for AtPlace {
    ghost output = { λ at. Some (place_words at.0) };

    fn fmt<W: fmt::Write>(&self, f: &mut fmt::Formatter<W>) -> fmt::Result {
        match self.0 {
            None => Ok(()),
            Some(tap) => write!(f, "{tap}: "),
        }
    }
}
