//! The object of a line.
ghost use Rattle.std.specs.Prelude.{◌≡◌, ◌++◌, None, MatchResult};
ghost use Rattle.json_lines.specs.Objects.{members_of, object_line, told_members};
ghost use Rattle.json_lines.specs.Puts.{Puts, begun};

use crate::fitting::form_of;
use crate::forms::Form;
use crate::line::Line;
use crate::members::put_members;
use crate::put::{put_quoted, put_text};
use std::alloc::AllocError;

/// Puts the object of a line, which is given without its line feed, and a line feed behind what stands in `out`.
///
/// Error: no memory for it; then `out` has what it had.
pub fn put_object(forms: &[Form], line: &[u8], out: &mut Vec<u8>) -> Result<(), AllocError>
    ensures { MatchResult result (λ _. out.new.items ≡ out.old.items ++ object_line forms.now line.now)
        (λ _. out.new.items ≡ out.old.items) }
{
    let start = out.len();
    let result = put_line(forms, line, out);
    if result.is_err() {
        out.truncate(start);
    }
    result
}

/// The same, but where memory runs out some of it may stand there.
fn put_line(forms: &[Form], line: &[u8], out: &mut Vec<u8>) -> Result<(), AllocError>
    ensures { Puts result out.old.items out.new.items (object_line forms.now line.now) }
{
    put_begun(forms, &Line::of(line), out)?;
    put_text(b"}\n", out)
}

/// Puts the object of a line, which isn't closed yet.
fn put_begun(forms: &[Form], line: &Line<'_>, out: &mut Vec<u8>) -> Result<(), AllocError>
    ensures { Puts result out.old.items out.new.items (begun (members_of forms.now line.now)) }
{
    match form_of(forms, line) {
        Some(form) => put_members(form, line, out),
        None => put_whole(line.text(), out),
    }
}

/// Puts an object that isn't closed yet: a whole line as one text.
fn put_whole(line: &[u8], out: &mut Vec<u8>) -> Result<(), AllocError>
    ensures { Puts result out.old.items out.new.items (begun (told_members None line.now)) }
{
    put_text(b"{\"text\":", out)?;
    put_quoted(line, out)
}
