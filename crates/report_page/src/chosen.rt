//! Lines of a text that a table shows.
ghost use Rattle.std.specs.Prelude.{◌≡◌, ◌<◌, ◌∷◌, ℕ, List, [], Bool, MatchOption, Some, length, take};
ghost use Rattle.std.specs.Fmt.{WritesOnOk};
ghost use Rattle.report_page.specs.Lines.{lines_where};
ghost use Rattle.report_page.specs.Told.{rows_of};

use crate::lines::first_line;
use std::fmt;

/// A choice of lines, each of which has a row.
pub(crate) trait Choice {
    /// Whether a line is chosen.
    ghost chooses: { Self → List ℕ → Bool };

    /// The row of a line.
    ghost row_of: { Self → List ℕ → List ℕ };

    /// Whether a line is chosen.
    fn chooses(&self, line: &[u8]) -> bool
        ensures { result ≡ chooses self.now line.now };

    /// Puts the row of a line.
    fn put_row<W: fmt::Write>(&self, line: &[u8], f: &mut fmt::Formatter<W>) -> fmt::Result
        ensures { WritesOnOk W.write_str_gives f.old result (row_of self.now line.now) f.new };
}

/// The first line of a text that is chosen, and what stands behind its end.
pub(crate) fn next_chosen<'a, C: Choice>(choice: &C, text: &'a [u8]) -> Option<(&'a [u8], &'a [u8])>
    ensures next { MatchOption result (lines_where (C.chooses choice.now) text.now ≡ [])
        (λ next. lines_where (C.chooses choice.now) text.now ≡ next.0.now ∷ lines_where (C.chooses choice.now) next.1.now) }
    ensures shorter { MatchOption result (Unit {0}) (λ next. length next.1.now < length text.now) }
{
    let mut rest = text;
    while !rest.is_empty() {
        let (line, behind) = first_line(rest);
        if choice.chooses(line) {
            return Some((line, behind));
        }
        rest = behind;
    }
    None
}

/// How many lines are chosen.
pub(crate) fn count_of<C: Choice>(choice: &C, text: &[u8]) -> u64
    ensures { result ≡ length (lines_where (C.chooses choice.now) text.now) }
{
    let mut rest = text;
    let mut count = 0u64;
    while let Some((_, behind)) = next_chosen(choice, rest) {
        count += 1;
        rest = behind;
    }
    count
}

/// The rows of the first thousand that are chosen.
#[derive(Clone, Copy)]
pub(crate) struct FirstRows<'a, C: Choice> {
    pub choice: C,
    pub text: &'a [u8],
}

impl<'a, C: Choice> fmt::Display for FirstRows<'a, C> {
    ghost output = { λ rows. Some (rows_of (C.row_of rows.choice) (take 1000 (lines_where (C.chooses rows.choice) rows.text.now))) };

    fn fmt<W: fmt::Write>(&self, f: &mut fmt::Formatter<W>) -> fmt::Result {
        let mut rest = self.text;
        let mut room = 1000u64;
        while room > 0 {
            let Some((line, behind)) = next_chosen(&self.choice, rest) else {
                return Ok(());
            };
            self.choice.put_row(line, f)?;
            room -= 1;
            rest = behind;
        }
        Ok(())
    }
}
