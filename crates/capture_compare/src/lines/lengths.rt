//! The lines of a table by length.
ghost use Rattle.std.specs.Prelude.{Some};
ghost use Rattle.capture_compare.specs.Tables.{length_line};

use crate::lines::place::AtPlace;
use crate::lines::sides::Sides;
use record_match::tables::LengthRow;
use std::fmt;
use timeline::Tap;

/// The line of the records of a length, in octets.
#[derive(Clone, Copy)]
pub struct LengthLine {
    /// The place, where captures of several are compared.
    pub at: Option<Tap>,
    pub length: usize,
    pub row: LengthRow,
}

impl fmt::Display for LengthLine {
    ghost output = { λ line. Some (length_line line.at line.length line.row) };

    fn fmt<W: fmt::Write>(&self, f: &mut fmt::Formatter<W>) -> fmt::Result {
        let at = AtPlace(self.at);
        let length = self.length;
        let both = self.row.both;
        let alone = Sides {
            word: "alone",
            between: ", ",
            sent: self.row.sent_alone,
            received: self.row.received_alone,
        };
        write!(f, "{at}length {length}: both {both}, {alone}\n")
    }
}
