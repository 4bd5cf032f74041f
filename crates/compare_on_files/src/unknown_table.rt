//! Tables that there are none of.
ghost use Rattle.std.specs.Prelude.{◌≡◌, option_map};
ghost use Rattle.command_line.specs.Meaning.{meaning_of};
ghost use Rattle.compare_on_files.specs.Tables.{no_table_in, unknown_table};

use command_line::Line;
use compare_reports::TableBy;

/// The name by which a line asks for a table that there is none of.
pub fn no_table_name<'a>(line: &Line<'a>) -> Option<&'a str>
    ensures { option_map (λ name. name.now) result ≡ no_table_in (meaning_of line.now) }
{
    match line {
        Line::Compare { by, .. } | Line::CompareWorked { by, .. } => unknown_table(*by),
        _ => None,
    }
}

/// A name, where no table has it.
fn unknown_table<'a>(by: Option<&'a str>) -> Option<&'a str>
    ensures { option_map (λ name. name.now) result ≡ unknown_table (option_map (λ name. name.now) by.entry) }
{
    match by {
        Some(name) if TableBy::of(name).is_none() => Some(name),
        _ => None,
    }
}

/// Says that there is no table of a name.
pub fn no_table(rt: &impl Eprint, name: &str) -> u8
    ensures { result ≡ 2 }
{
    let _ = eprintln!(rt; "error: no table is by '{name}': --by takes length or delay");
    2
}
