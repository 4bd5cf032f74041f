//! What the line of a record that is of one capture alone begins with.
ghost use Rattle.std.specs.Prelude.{Some};
ghost use Rattle.capture_compare.specs.Lonely.{behind_moment, lonely_front, lonely_numbers, side_word};

use crate::Side;
use std::fmt;
use timeline::Tap;

/// A record that is of one capture alone. It prints as what its line begins with: that is all of it, but for what is told behind.
#[derive(Clone, Copy)]
pub struct Lonely {
    /// The place, where captures of several are compared.
    pub at: Option<Tap>,
    pub side: Side,
    /// Its number in its capture, from 1.
    pub number: u64,
    /// Nanoseconds, by the clock of its capture.
    pub moment: u64,
    /// How many octets of it are compared.
    pub length: usize,
}

impl fmt::Display for Lonely {
    ghost output = { λ lonely. Some (lonely_front lonely) };

    fn fmt<W: fmt::Write>(&self, f: &mut fmt::Formatter<W>) -> fmt::Result {
        let moment = self.moment;
        let at = BehindMoment(self.at);
        let side = SideWord(self.side);
        let numbers = LonelyNumbers(*self);
        write!(f, "{moment}{at} {side}{numbers}")
    }
}

/// The numbers of such a record.
#[derive(Clone, Copy)]
struct LonelyNumbers(Lonely);

impl fmt::Display for LonelyNumbers {
    ghost output = { λ numbers. Some (lonely_numbers numbers.0) };

    #[tactic(auto, unfolding(crate::specs::Lonely::lonely_numbers))]
    fn fmt<W: fmt::Write>(&self, f: &mut fmt::Formatter<W>) -> fmt::Result {
        let length = self.0.length;
        let number = self.0.number;
        write!(f, " alone length {length} record {number}")
    }
}

/// The place behind a moment.
#[derive(Clone, Copy)]
struct BehindMoment(Option<Tap>);

impl fmt::Display for BehindMoment {
    ghost output = { λ at. Some (behind_moment at.0) };

    fn fmt<W: fmt::Write>(&self, f: &mut fmt::Formatter<W>) -> fmt::Result {
        match self.0 {
            None => Ok(()),
            Some(tap) => write!(f, " {tap}"),
        }
    }
}

/// The word for a capture.
#[derive(Clone, Copy)]
pub(crate) struct SideWord(pub(crate) Side);

impl fmt::Display for SideWord {
    ghost output = { λ side. Some (side_word side.0) };

    fn fmt<W: fmt::Write>(&self, f: &mut fmt::Formatter<W>) -> fmt::Result {
        match self.0 {
            Side::Sent => write!(f, "sent"),
            Side::Received => write!(f, "received"),
        }
    }
}
