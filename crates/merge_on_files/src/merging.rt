//! Parts of a run made the whole run.
ghost use Rattle.std.specs.Prelude.{◌≤◌};

use crate::looking::{Looked, look_at, output_at, read_failure, read_records, see_folders};
use crate::merged_texts::{MergedTexts, TextsAsked, merge_texts};
use crate::opening::{may_wait, open_parts};
use part_merge::{MergeFault, Target, merge_streams};
use part_record::{MOST_PORTS, ToldOutputs};
use program_files::{
    Apart, FailedOutputs, Failure, Mark, OutputFile, drop_part, open_outputs, path_of, see_room,
};
use std::alloc::AllocError;
use std::rt::Files;
use timeline::Tap;

/// Puts the parts in these folders together, and writes the whole run into a folder. It answers what the whole run tells
/// besides, as far as that is asked for.
///
/// Where they aren't all parts of one run, the run of one didn't end or is under way, what they told isn't there or is no such
/// text, an output is one of their files, another output or what standard output is, or more files would be open at once than the
/// system lets be (of less than 200 that isn't tried), nothing is made or written. All outputs that couldn't be written are
/// noted, and a mark says that the merge isn't done until it is. Where a capture of a part is no regular file, all that was merged
/// goes out before each read, which may wait; decision lines have to be one.
///
/// Noticed before an output is made: a `shard.txt` that isn't written as one is; settings, changes or captures with another
/// digest than those of the first part; a segment, or what comes to none, that isn't in exactly one part's list; and outputs
/// with another number of events, lines, records or octets than `shard.txt` says, and texts with other sums. Noticed on the way:
/// what [`merge_streams`] notices, and an output that was read to its end and has other sums than `shard.txt` says. Each is told
/// with the part's name.
///
/// Not noticed: octets or moments of records and words of lines that were changed together with the numbers and sums in
/// `shard.txt`, or so that the sums stay; lists of segments that were changed there, or exchanged between parts, since no line
/// is held against its part's list; events behind the last that are missing where `shard.txt` counts none of them; a part of
/// another run with the same digests, as by another version of the program or over digests that were lent; and other values in
/// `tables.txt` and `summary.txt`, of which nothing is told. In what order the folders are named plays no part.
pub fn merge<'a, R: Files + AllocGlobal>(
    rt: &R,
    out: &str,
    folders: &[&'a str],
    asked: TextsAsked,
    failed: &mut FailedOutputs,
) -> Result<MergedTexts, Failure<'a>> {
    see_folders(rt, folders)?;
    let texts = match read_records(rt, folders) {
        Ok(texts) => texts,
        Err(failure) => return Err(failure),
    };
    let looked = match look_at(rt, folders, texts.as_slice()) {
        Ok(looked) => looked,
        Err(failure) => return Err(failure),
    };
    let count = at_most_ports(looked.ports);
    let ports = u8::try_from(count).unwrap_or(u8::MAX);
    let told = match merge_texts(rt, folders, &looked, ports, asked) {
        Ok(told) => told,
        Err(failure) => return Err(failure),
    };
    let told_outputs = looked.outputs;
    spare_parts(rt, out, folders, count, asked.is_any())?;
    let waits = may_wait(rt, folders, count);
    let mut parts = match open_parts(rt, folders, told_outputs.as_slice(), count) {
        Ok(parts) => parts,
        Err(failure) => return Err(failure),
    };
    let inputs = folders.len().saturating_mul(count.saturating_add(2));
    see_room(rt, inputs, count, false, false)?;
    let opened = open_outputs(rt, out, false, count)?;
    opened.see_apart(rt.alloc())?;
    let mark = Mark::of(rt.alloc(), out)?;
    mark.set(rt)?;
    drop_part(rt, out)?;
    let mut outputs = opened.emptied()?;
    match merge_streams(parts.as_mut_slice(), &mut outputs.files, waits) {
        Ok(()) => match outputs.finish(rt.alloc(), failed) {
            Ok(_) => {
                mark.clear(rt)?;
                Ok(told)
            }
            Err(failure) => Err(failure),
        },
        Err(fault) => {
            let failure = merge_failure(rt, folders, told_outputs.as_slice(), fault);
            Err(outputs.finish_behind(rt.alloc(), failure, failed))
        }
    }
}

/// Why the program gives up where a merge does: where a read of a part failed, it may be one whose outputs aren't what it says.
fn merge_failure<'a, R: Files + AllocGlobal>(
    rt: &R,
    folders: &[&'a str],
    told: &[ToldOutputs],
    fault: MergeFault,
) -> Failure<'a> {
    if let MergeFault::Read(part) = fault {
        if let Some(outputs) = told.get(part) {
            return read_failure(rt, name_of(folders, part), outputs.as_slice());
        }
    }
    failure_of(folders, fault)
}

/// So many ports, or the most that a run has.
fn at_most_ports(count: usize) -> usize
    ensures { result ≤ 255 }
{
    if count < MOST_PORTS {
        count
    } else {
        MOST_PORTS
    }
}

/// How many files a part leaves besides the captures of its ports.
const BESIDE_PORTS: usize = 5;

/// The file of this number of a part with so many ports: the decision lines, the underlay's capture, the ports' captures, and
/// then what the part says of itself and leaves besides.
fn file_at(index: usize, ports: usize) -> OutputFile {
    match index.checked_sub(ports.saturating_add(2)) {
        Some(0) => OutputFile::PartRecord,
        Some(1) => OutputFile::Tables,
        Some(_) => OutputFile::Summary,
        None => output_at(index),
    }
}

/// Refuses an output that is one of the parts' files, and so a text that a merge takes away, another output or, where something is
/// printed, what standard output is.
fn spare_parts<'a, R: Files + AllocGlobal>(
    rt: &R,
    out: &str,
    folders: &[&'a str],
    count: usize,
    prints: bool,
) -> Result<(), Failure<'a>> {
    let mut apart = Apart::new(rt.alloc(), out);
    for folder in folders {
        for index in 0..count.saturating_add(BESIDE_PORTS) {
            let path = path_of(rt.alloc(), *folder, file_at(index, count))?;
            apart.add_input(rt, path.as_path())?;
        }
    }
    if prints {
        apart.add_printed(rt)?;
    }
    for index in 0..count.saturating_add(2) {
        apart.see(rt, output_at(index))?;
    }
    apart.see(rt, OutputFile::Mark)?;
    for index in 0..BESIDE_PORTS - 2 {
        apart.see_removed(
            rt,
            file_at(index.saturating_add(count).saturating_add(2), count),
        )?;
    }
    Ok(())
}

/// Why the program gives up where a merge does.
pub fn failure_of<'a>(folders: &[&'a str], fault: MergeFault) -> Failure<'a> {
    match fault {
        MergeFault::Read(part) => Failure::Read(name_of(folders, part)),
        MergeFault::Missing(number) => Failure::Missing(number),
        MergeFault::Part(part, fault) => Failure::in_part(name_of(folders, part), fault),
        MergeFault::Write(Target::Decisions) => Failure::Write(OutputFile::Decisions),
        MergeFault::Write(Target::Capture(Tap::Underlay)) => Failure::Write(OutputFile::Underlay),
        MergeFault::Write(Target::Capture(Tap::Port(number))) => {
            Failure::Write(OutputFile::Port(usize::from(number)))
        }
    }
}

/// The folder of the part of this number.
fn name_of<'a>(folders: &[&'a str], part: usize) -> &'a str {
    folders.get(part).copied().unwrap_or("")
}
