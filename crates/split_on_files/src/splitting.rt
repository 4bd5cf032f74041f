//! A capture split into files.
use crate::capture_split::Lanes;
use crate::listing::listing;
use crate::pass::{Ending, Place, SplitFiles, number_at, pass_over};
use crate::split_file::{SplitFile, taken_in};
use command_line::capture_name;
use pcapng_input::Gathered;
use program_files::{Failure, SplitFailure, file_of, open_blocks, print_text};
use std::io::{Input, Write};
use std::rt::Files;

/// How many reads are made of a capture at most: so the places in it can be counted.
const READS: u64 = 35_184_372_088_832;

/// Splits a pcapng capture: writes a classic capture of each of its interfaces into a folder, and prints a list of them. What
/// is written of an interface is what `CAPTURE#NUMBER` is read as. Where the capture is refused, for all interfaces or for one,
/// the files hold the packets before that; the first interface that is refused is told, and all are in the list.
#[inline(never)]
pub fn split<'a, R: Files + Input + AllocGlobal + Print>(
    rt: &R,
    folder: &'a str,
    capture: &'a str,
) -> Result<(), Failure<'a>> {
    let asked = capture_name(capture);
    if asked.interface.is_some() {
        return Err(Failure::Split(capture, SplitFailure::OneInterface));
    }
    let place = Place { folder, capture };
    let blocks = open_blocks(rt, capture, asked.file)?;
    let mut gathered = Gathered::new(rt.alloc(), blocks, READS)?;
    let mut lanes = Lanes::new(rt.alloc());
    let mut split = SplitFiles {
        files: Vec::new(rt.alloc()),
        taken: taken_in(rt, folder, file_of(capture))?,
    };
    let passed = pass_over(rt, place, &mut gathered, &mut lanes, &mut split);
    let mut files = split.files;
    let is_cut = ends_cut(&passed);
    let ended = end_files(rt, files.as_mut_slice(), &lanes, is_cut);
    let ending = passed?;
    ended?;
    let text = listing(rt.alloc(), files.as_slice(), &lanes, is_cut)?;
    print_text(rt, text.as_bytes())?;
    match ending {
        Ending::Refused(fault) => Err(Failure::Split(capture, SplitFailure::Capture(fault))),
        Ending::Whole | Ending::Cut => first_refused(capture, &lanes, files.len()),
    }
}

/// Whether a capture ends within a block.
fn ends_cut(passed: &Result<Ending, Failure<'_>>) -> bool {
    match passed {
        Ok(Ending::Cut) => true,
        _ => false,
    }
}

/// Ends all files, also behind one that can't be written: where the capture is cut each by one octet 0, as a capture is told
/// that ends within a record, but for those of interfaces that were refused before. The first fault is answered.
fn end_files<'a, R: Files + AllocGlobal>(
    rt: &R,
    files: &mut [SplitFile<R::File>],
    lanes: &Lanes,
    is_cut: bool,
) -> Result<(), Failure<'a>> {
    let mut ended = Ok(());
    for (index, file) in files.iter_mut().enumerate() {
        let cut = if is_cut && lanes.fault_of(number_at(index)).is_none() {
            file.write(rt.alloc(), &[0])
        } else {
            Ok(())
        };
        ended = ended.and(cut).and(file.finish(rt.alloc()));
    }
    ended
}

/// The fault of the first interface that was refused.
fn first_refused<'a>(capture: &'a str, lanes: &Lanes, count: usize) -> Result<(), Failure<'a>> {
    for index in 0..count {
        let number = number_at(index);
        if let Some(fault) = lanes.fault_of(number) {
            return Err(Failure::Split(capture, SplitFailure::Interface(number, fault)));
        }
    }
    Ok(())
}
