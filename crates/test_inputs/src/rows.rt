//! Rows of a table that is a text.
use std::test::Fail;

/// The three cells of a row, with ` | ` between two. The last one goes on to the row's end.
pub fn three_cells<'r>(row: &'r str) -> Result<(&'r str, &'r str, &'r str), Fail> {
    let (first, rest) = row.split_once(" | ").ok_or("one cell alone")?;
    let (second, third) = rest.split_once(" | ").ok_or("two cells alone")?;
    Ok((first, second, third))
}
