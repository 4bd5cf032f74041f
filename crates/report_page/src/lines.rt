//! The lines of a text.
ghost use Rattle.std.specs.Prelude.{◌≡◌};
ghost use Rattle.report_page.specs.Lines.{behind_line, first_line};

use line_words::split_at_first;

/// The first line of a text, and what stands behind its end: the whole text and nothing where no LF ends it.
pub(crate) fn first_line(text: &[u8]) -> (&[u8], &[u8])
    ensures line { result.0.now ≡ first_line text.now }
    ensures behind { result.1.now ≡ behind_line text.now }
{
    split_at_first(b'\n', text)
}
