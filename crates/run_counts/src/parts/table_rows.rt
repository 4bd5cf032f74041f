//! Texts of tables.
ghost use Rattle.std.specs.Prelude.{IfErr, IfOk};
ghost use Rattle.run_counts.specs.Tables.{AreRows, Refuses};

use crate::parts::table_row::{TableRow, next_row};
use crate::parts::tables_fault::TablesFault;
use segment_set::SegmentSet;
use std::alloc::Global;

/// The lines of a text that tells the tables of these segments, in their order. `Line`: the first that doesn't begin with
/// `segment`, the VID of one of these segments and a space with something behind it, or that has no line feed. `OutOfMemory`:
/// memory was refused.
pub fn rows_in<'a>(
    alloc: Global,
    text: &'a [u8],
    segments: &SegmentSet,
) -> Result<Vec<TableRow<'a>>, TablesFault>
    ensures rows { IfOk result (λ rows. AreRows segments.now rows.items text.entry.now) }
    ensures fault { IfErr result (λ fault. Refuses segments.now fault text.entry.now) }
{
    let mut rows = Vec::new(alloc);
    let mut rest = text;
    while !rest.is_empty() {
        let Some((row, behind)) = next_row(rest, segments) else {
            return Err(TablesFault::Line(rows.len() + 1));
        };
        if rows.push(row).is_err() {
            return Err(TablesFault::OutOfMemory);
        }
        rest = behind;
    }
    Ok(rows)
}
