//! The outputs of a run in a folder.
//!
//! Outputs are written in blocks, and only where all captures are regular files does a block hold anything back: with
//! a pipe among them, what came of an event has to be out before the next read, which may wait.
ghost use Rattle.std.specs.Prelude.{◌≡◌, IfOk, length};
ghost use Rattle.program_files.specs.Held.{AreHeld, written};

use crate::headers::see_headers;
use program_files::{
    Destination, Failure, Mark, Names, OutputFiles, drop_part, drop_texts, empty_objects,
    open_objects, open_outputs, see_room, spare_inputs,
};
use std::io::Input;
use std::rt::Files;

/// Opens the outputs of so many ports and empties them, where none of them is a file that is read, another output or what is
/// printed into, as many files can be open, there is memory for them and no capture that can be looked at begins as none does. The
/// folder is marked before as one whose run isn't done, and what an earlier part left besides is taken away; then the lines are
/// emptied, before the captures, of which they tell.
pub(crate) fn prepare_outputs<'a, R: Files + Input + AllocGlobal>(
    rt: &R,
    names: Names<'_, 'a>,
    folder: Destination<'_>,
    is_part: bool,
    count: usize,
) -> Result<OutputFiles<R::File>, Failure<'a>>
    ensures count { IfOk result (λ outputs. length outputs.files.ports ≡ count) }
    ensures in_files { IfOk result (λ outputs. AreHeld R.File.contents (written outputs.files)) }
{
    spare_inputs(rt, folder, names, is_part)?;
    see_room(rt, count.saturating_add(1), count, is_part, folder.objects)?;
    let opened = open_outputs(rt, folder.name, is_part, count)?;
    opened.see_apart(rt.alloc())?;
    let objects = open_objects(rt, folder)?;
    see_headers(rt, names)?;
    Mark::of(rt.alloc(), folder.name)?.set(rt)?;
    // What says of outputs that they are a part's goes before they change.
    if is_part {
        drop_texts(rt, folder.name)?;
    } else {
        drop_part(rt, folder.name)?;
    }
    empty_objects(objects)?;
    let outputs = opened.emptied()?;
    Ok(outputs)
}
