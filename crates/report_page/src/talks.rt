//! The largest talks of each segment.
ghost use Rattle.std.specs.Prelude.{◌≡◌, Some, cond};
ghost use Rattle.wire.specs.Octets.{is_same};
ghost use Rattle.report_page.specs.Told.{is_talk, largest_of, row_where, rows_of, talk_row, talks_of};

use crate::chosen::{Choice, next_chosen};
use crate::told_rows::{TalkRow, word_at};
use line_words::first_word;
use std::fmt;

/// Whether it is the line of a talk, but for that of all others together.
pub(crate) fn is_talk(line: &[u8]) -> bool
    ensures { result ≡ is_talk line.now }
{
    let (word, behind) = first_word(line);
    let (next, _) = first_word(behind);
    word == b"talk".as_slice() && next != b"others".as_slice()
}

/// All talks.
#[derive(Clone, Copy)]
pub(crate) struct Talks;

impl Choice for Talks {
    ghost chooses = { λ talks line. is_talk line };

    ghost row_of = { λ talks line. talk_row line };

    fn chooses(&self, line: &[u8]) -> bool {
        is_talk(line)
    }

    fn put_row<W: fmt::Write>(&self, line: &[u8], f: &mut fmt::Formatter<W>) -> fmt::Result {
        let row = TalkRow(line);
        write!(f, "{row}")
    }
}

/// The row of a talk, where it is shown.
#[derive(Clone, Copy)]
struct RowWhere<'a> {
    shown: bool,
    line: &'a [u8],
}

impl<'a> fmt::Display for RowWhere<'a> {
    ghost output = { λ row. Some (row_where row.shown row.line.now) };

    fn fmt<W: fmt::Write>(&self, f: &mut fmt::Formatter<W>) -> fmt::Result {
        if self.shown {
            let row = TalkRow(self.line);
            write!(f, "{row}")
        } else {
            Ok(())
        }
    }
}

/// How many more of a segment are shown, where one of it stood in front; ten where none did.
fn room_for(before: &[u8], segment: &[u8], room: u64) -> u64
    ensures { result ≡ cond (is_same before.now segment.now) room 10 }
{
    if before == segment { room } else { 10 }
}

/// The rows of the first ten talks of each segment.
#[derive(Clone, Copy)]
pub(crate) struct LargestRows<'a>(pub &'a [u8]);

impl<'a> fmt::Display for LargestRows<'a> {
    ghost output = { λ rows. Some (rows_of talk_row (largest_of (talks_of rows.0.now))) };

    fn fmt<W: fmt::Write>(&self, f: &mut fmt::Formatter<W>) -> fmt::Result {
        let mut rest = self.0;
        let mut before: &[u8] = &[];
        let mut room = 10u64;
        while let Some((line, behind)) = next_chosen(&Talks, rest) {
            let segment = word_at(1, line);
            let here = room_for(before, segment, room);
            let row = RowWhere {
                shown: here > 0,
                line,
            };
            write!(f, "{row}")?;
            room = here.saturating_sub(1);
            before = segment;
            rest = behind;
        }
        Ok(())
    }
}
