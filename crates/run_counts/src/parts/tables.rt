//! Tables side by side.
ghost use Rattle.std.specs.Prelude.{◌≡◌, ◌++◌, [], IfOk, OnOk, if◌then◌else◌};
ghost use Rattle.run_counts.specs.Tables.{lines_of, row_text, side_by_side};

use crate::parts::table_row::TableRow;
use std::alloc::{AllocError, Global};

/// The number behind the last VID.
const VIDS_END: u16 = 4095;

/// The lines of the parts of a run side by side: the VIDs rising, and of each VID the lines in the order that they are given
/// in. Of each VID all lines are gone through once. `AllocError`: there was no room for the text.
pub fn tables_of(alloc: Global, rows: &[TableRow<'_>]) -> Result<Vec<u8>, AllocError>
    ensures { IfOk result (λ text. text.items ≡ side_by_side rows.now) }
{
    let mut text = Vec::new(alloc);
    for vid in 1..VIDS_END {
        put_lines(&mut text, vid, rows)?;
    }
    Ok(text)
}

/// Puts the lines of a VID.
fn put_lines(text: &mut Vec<u8>, vid: u16, rows: &[TableRow<'_>]) -> Result<(), AllocError>
    ensures { OnOk result (text.new.items ≡ text.old.items ++ lines_of rows.now vid) }
{
    for row in rows {
        put_if(text, row.vid.get() == vid, row)?;
    }
    Ok(())
}

/// Puts a line, where it is asked for.
fn put_if(text: &mut Vec<u8>, is_asked: bool, row: &TableRow<'_>) -> Result<(), AllocError>
    ensures { OnOk result (text.new.items ≡ text.old.items ++ (if is_asked then row_text row.now else [])) }
{
    if is_asked {
        text.extend_from_slice(row.line)?;
        text.push(b'\n')?;
    }
    Ok(())
}
