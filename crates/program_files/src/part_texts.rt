//! What a part of a run leaves of what it told: its tables at the end, and its counts.
//!
//! A part leaves them in its folder besides printing them, so that a merge needs no more than the folders, and nobody has to
//! keep what was printed apart from what was written. They are written before `shard.txt`: a merge takes no part that lacks
//! that. A run of a part removes what an earlier one left of them, since a summary of other captures couldn't be told from its
//! own. A whole run and a merge remove them and `shard.txt` too, before an output changes, since the outputs of another run
//! would pass for the part's. The file that standard output is stays in each case, with all that is printed.
ghost use Rattle.std.specs.Prelude.{IfOk};
ghost use Rattle.octet_sums.specs.Sums.{IsSumOf};

use crate::apart::STANDARD_OUTPUT_FILE;
use crate::faults::{Failure, OutputFile};
use crate::names::is_same;
use crate::outputs::path_of;
use octet_sums::fletcher::OctetSum;
use std::fs::{self, OpenOptions};
use std::io::Write;
use std::path::Path;
use std::rt::Files;

/// Removes the tables and the counts that an earlier part left in a folder, so that none of them passes for this part's.
pub fn drop_texts<R: Files + AllocGlobal>(rt: &R, folder: &str) -> Result<(), Failure<'static>> {
    drop_text(rt, folder, OutputFile::Tables)?;
    drop_text(rt, folder, OutputFile::Summary)
}

/// Removes what an earlier part left in a folder besides its outputs, where something else than a part is to be written there:
/// first what it was made from, without which no merge takes the folder.
pub fn drop_part<R: Files + AllocGlobal>(rt: &R, folder: &str) -> Result<(), Failure<'static>> {
    drop_text(rt, folder, OutputFile::PartRecord)?;
    drop_texts(rt, folder)
}

/// Removes a file, where there is one. A pipe or a device stays, and so does what standard output is; a folder in its place is
/// refused.
fn drop_text<R: Files + AllocGlobal>(
    rt: &R,
    folder: &str,
    output: OutputFile,
) -> Result<(), Failure<'static>> {
    let path = path_of(rt.alloc(), folder, output)?;
    match fs::metadata(rt, path.as_path()) {
        Ok(found) if is_same(rt, Path::new(STANDARD_OUTPUT_FILE), &found) => Ok(()),
        Ok(found) if found.is_file() => {
            fs::remove_file(rt, path.as_path()).map_err(|error| Failure::writing(output, &error))
        }
        Ok(found) if found.is_dir() => Err(Failure::Write(output)),
        _ => Ok(()),
    }
}

/// Whether an output is the file that standard output is.
fn is_printed<R: Files>(rt: &R, path: Path<'_>) -> bool {
    match fs::metadata(rt, path) {
        Ok(found) => is_same(rt, Path::new(STANDARD_OUTPUT_FILE), &found),
        Err(_) => false,
    }
}

/// Writes a text into a folder, and answers its sums. It isn't written where it is printed into the same file.
pub fn leave_text<R: Files + AllocGlobal>(
    rt: &R,
    folder: &str,
    output: OutputFile,
    text: &[u8],
) -> Result<OctetSum, Failure<'static>>
    ensures { IfOk result (λ sum. IsSumOf sum text.now) }
{
    let path = path_of(rt.alloc(), folder, output)?;
    if !is_printed(rt, path.as_path()) {
        write_text(rt, path.as_path(), output, text)?;
    }
    Ok(sum_of(text))
}

/// The sums of a text.
pub fn sum_of(text: &[u8]) -> OctetSum
    ensures { IsSumOf result text.now }
{
    let mut sum = OctetSum::new();
    sum.add(text);
    sum
}

/// Writes a text into a file.
fn write_text<R: Files>(
    rt: &R,
    path: Path<'_>,
    output: OutputFile,
    text: &[u8],
) -> Result<(), Failure<'static>> {
    let opened = OpenOptions::new()
        .write(true)
        .create(true)
        .truncate(true)
        .open(rt, path);
    let mut file = match opened {
        Ok(file) => file,
        Err(error) => return Err(Failure::writing(output, &error)),
    };
    match file.write_all(text) {
        Ok(()) => Ok(()),
        Err(error) => Err(Failure::writing(output, &error)),
    }
}
