//! The pass over a capture.
ghost use Rattle.std.specs.Prelude.{◌≡◌, ◌≤◌};
ghost use Rattle.split_on_files.specs.Pass.{IsPlaced};

use crate::capture_split::{Lanes, Step, Taken, take_next};
use crate::split_file::{SplitFile, Standing, open_split_file};
use pcap::stream::Input;
use pcapng_input::{Gathered, PcapngFault, Stop};
use program_files::{Failure, FoundFiles, SplitFailure};
use std::alloc::AllocError;
use std::io::Write;
use std::rt::Files;

/// How many files are written at most.
const MOST_FILES: usize = 256;

/// What is split, and where to.
#[derive(Clone, Copy)]
pub struct Place<'a> {
    /// The folder for the files.
    pub folder: &'a str,
    /// The capture's name, as it was given.
    pub capture: &'a str,
}

/// The files that a capture is split into, as far as they are open.
#[derive(Drop)]
pub struct SplitFiles<F: Write + Drop> {
    /// Those of interface 0, 1 and so on.
    pub files: Vec<SplitFile<F>>,
    /// What a further one must not be.
    pub taken: FoundFiles<Standing>,
}

/// How a capture ends.
#[derive(Clone, Copy)]
pub enum Ending {
    Whole,
    /// Within a block.
    Cut,
    /// With a fault for all interfaces.
    Refused(PcapngFault),
}

/// Takes the blocks of a capture in turn up to its end, opens a file for each interface where it is described first, and writes
/// the records of its packets.
pub fn pass_over<'a, R: Files + AllocGlobal, I: Input>(
    rt: &R,
    place: Place<'a>,
    gathered: &mut Gathered<I>,
    lanes: &mut Lanes,
    files: &mut SplitFiles<R::File>,
) -> Result<Ending, Failure<'a>>
    requires placed { IsPlaced lanes.old gathered.old }
{
    let mut room = Vec::new(rt.alloc());
    for _taken in 0..u64::MAX {
        match take_next(gathered, lanes, &mut room) {
            Ok(Step::Block(Taken::Nothing)) => {}
            Ok(Step::Block(Taken::Packet(number))) => {
                write_record(rt, files.files.as_mut_slice(), number, room.as_slice())?;
            }
            Ok(Step::Block(Taken::Described(number))) => {
                open_if_new(rt, place, files, number, room.as_slice())?;
            }
            Ok(Step::Block(Taken::Refused(fault))) => return Ok(Ending::Refused(fault)),
            Ok(Step::Ended { is_cut: true }) => return Ok(Ending::Cut),
            Ok(Step::Ended { is_cut: false }) => return Ok(Ending::Whole),
            Err(Stop::NoMemory) => return Err(Failure::from(AllocError)),
            Err(_) => return Err(Failure::Read(place.capture)),
        }
    }
    Err(Failure::Read(place.capture))
}

/// The number of the interface whose file has this index, of 256 at most.
pub fn number_at(index: usize) -> u32
    ensures { index ≤ 256 → result ≡ index }
{
    index.min(MOST_FILES) as u32
}

/// Writes the record of a packet of the interface with this number into its file.
fn write_record<R: AllocGlobal + Files>(
    rt: &R,
    files: &mut [SplitFile<R::File>],
    number: u32,
    record: &[u8],
) -> Result<(), Failure<'static>> {
    match files.get_mut(number as usize) {
        Some(file) => file.write(rt.alloc(), record),
        None => Ok(()),
    }
}

/// Opens a file for the interface with this number, unless it has one of an earlier section.
fn open_if_new<'a, R: Files + AllocGlobal>(
    rt: &R,
    place: Place<'a>,
    split: &mut SplitFiles<R::File>,
    number: u32,
    name: &[u8],
) -> Result<(), Failure<'a>> {
    if (number as usize) < split.files.len() {
        return Ok(());
    }
    if split.files.len() >= MOST_FILES {
        let fault = SplitFailure::TooManyInterfaces;
        return Err(Failure::Split(place.capture, fault));
    }
    let file = match open_split_file(rt, place.folder, &mut split.taken, number, name) {
        Ok(file) => file,
        Err(failure) => return Err(failure),
    };
    match split.files.push(file) {
        Ok(()) => Ok(()),
        Err(_) => Err(Failure::from(AllocError)),
    }
}
