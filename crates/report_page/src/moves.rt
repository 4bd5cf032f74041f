//! Talks whose source sent from more than one place in its segment.
ghost use Rattle.report_page.specs.Senders.{moved_among};
ghost use Rattle.report_page.specs.Told.{talk_row};

use crate::chosen::Choice;
use crate::senders::{Sender, Senders};
use crate::talks::is_talk;
use crate::told_rows::TalkRow;
use std::fmt;

/// The talks of sources that moved: each talk is looked up among these senders.
#[derive(Clone, Copy)]
pub(crate) struct Moves<'s> {
    pub senders: &'s Senders<'s>,
}

impl<'s> Choice for Moves<'s> {
    ghost chooses = { λ moves line. moved_among moves.senders.now line };

    ghost row_of = { λ moves line. talk_row line };

    #[tactic(auto, unfolding(crate::specs::Senders::moved_among))]
    fn chooses(&self, line: &[u8]) -> bool {
        is_talk(line) && self.senders.has_elsewhere(&Sender::of(line))
    }

    fn put_row<W: fmt::Write>(&self, line: &[u8], f: &mut fmt::Formatter<W>) -> fmt::Result {
        let row = TalkRow(line);
        write!(f, "{row}")
    }
}
