//! Runs into a folder that didn't end.
use crate::named::folder_of;
use command_line::Line;
use program_files::{Mark, OneLine};
use std::rt::Files;

/// Whether the folder that a line writes into says that a run into it didn't end. It is asked before the line is done.
pub fn has_unended<R: Files + AllocGlobal>(rt: &R, line: &Line<'_>) -> bool {
    match folder_of(line) {
        Some(folder) => match Mark::of(rt.alloc(), folder) {
            Ok(mark) => mark.is_set(rt),
            Err(_) => false,
        },
        None => false,
    }
}

/// Tells that an earlier run into the folder that a line writes into didn't end, where it said so.
pub fn tell_unended(rt: &impl Eprint, line: &Line<'_>, unended: bool) {
    if let (Some(folder), true) = (folder_of(line), unended) {
        let shown = OneLine(folder);
        let _ = eprintln!(rt; "  {shown}: an earlier run into it didn't end");
    }
}
