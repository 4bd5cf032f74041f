//! The objects of a text's lines.
ghost use Rattle.std.specs.Prelude.{◌≡◌, ◌<◌, ◌∷◌, IfOk, length};
ghost use Rattle.json_lines.specs.Outcomes.{words};
ghost use Rattle.json_lines.specs.Texts.{lines, objects_in, table_for};

use crate::cut::cut_first;
use crate::fitting::form_of;
use crate::forms::Form;
use crate::line::Line;
use crate::object::put_object;
use std::alloc::{AllocError, Global};

/// The object of each line of a text, each with a line feed behind it, by the first form of some tables that it is of. A last line
/// that has no line feed is told as well.
///
/// Error: no memory for them.
pub fn objects_of(
    alloc: Global,
    tables: &[&'static [Form]],
    text: &[u8],
) -> Result<Vec<u8>, AllocError>
    ensures { IfOk result (λ v. v.items ≡ objects_in tables.now text.now) }
{
    let mut out = Vec::new(alloc);
    let mut rest = text;
    while !rest.is_empty() {
        let (line, behind) = first_line(rest);
        put_object(table_for(tables, &Line::of(line)), line, &mut out)?;
        rest = behind;
    }
    Ok(out)
}

/// The first table that has a form which a line is of, or one of no form.
fn table_for(tables: &[&'static [Form]], line: &Line<'_>) -> &'static [Form]
    ensures { result.now ≡ table_for tables.now (words line.now) }
{
    let mut rest = tables;
    while let [table, behind @ ..] = rest {
        if form_of(*table, line).is_some() {
            return *table;
        }
        rest = behind;
    }
    &[]
}

/// The first line of a text without its line feed, and what stands behind that.
fn first_line(text: &[u8]) -> (&[u8], &[u8])
    requires { 0 < length text.now }
    ensures lines { lines text.now ≡ result.0.now ∷ lines result.1.now }
    ensures shorter { length result.1.now < length text.now }
{
    match cut_first(b'\n', text) {
        Some(parts) => parts,
        None => (text, &[]),
    }
}
