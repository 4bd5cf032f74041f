//! What is cut.
ghost use Rattle.std.specs.Prelude.{Some};
ghost use Rattle.capture_compare.specs.Cut.{cut_end, cut_text, cut_words};

use crate::Side;
use crate::lines::lonely::SideWord;
use crate::lines::place::AtPlace;
use record_match::Cut;
use std::fmt;
use timeline::Tap;

/// The line of how many records are cut, of two captures or of a place; where none is, it prints as nothing.
#[derive(Clone, Copy)]
pub struct CutLine {
    pub at: Option<Tap>,
    pub cut: Cut,
}

impl fmt::Display for CutLine {
    ghost output = { λ line. Some (cut_text line.at line.cut) };

    fn fmt<W: fmt::Write>(&self, f: &mut fmt::Formatter<W>) -> fmt::Result {
        if self.cut.sent == 0 && self.cut.received == 0 {
            Ok(())
        } else {
            let at = AtPlace(self.at);
            let words = CutWords(self.cut);
            write!(f, "{at}{words}")
        }
    }
}

/// How many of each side are.
#[derive(Clone, Copy)]
struct CutWords(Cut);

impl fmt::Display for CutWords {
    ghost output = { λ words. Some (cut_words words.0) };

    #[tactic(auto, unfolding(crate::specs::Cut::cut_words))]
    fn fmt<W: fmt::Write>(&self, f: &mut fmt::Formatter<W>) -> fmt::Result {
        let sent = self.0.sent;
        let received = self.0.received;
        write!(f, "cut: sent {sent}, received {received}\n")
    }
}

/// The line of a capture that ends within a record.
#[derive(Clone, Copy)]
pub struct CutEnd {
    pub at: Option<Tap>,
    pub side: Side,
}

impl fmt::Display for CutEnd {
    ghost output = { λ line. Some (cut_end line.at line.side) };

    fn fmt<W: fmt::Write>(&self, f: &mut fmt::Formatter<W>) -> fmt::Result {
        let at = AtPlace(self.at);
        let side = SideWord(self.side);
        write!(f, "{at}{side}: cut\n")
    }
}
