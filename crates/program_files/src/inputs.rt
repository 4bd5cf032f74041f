//! What the program reads: files, and standard input.
//!
//! Below a source stands std's buffered reader of 32 KiB, for the first octets, which tell the format: behind them more is
//! asked for at once, and goes past it. An interface's name of digits is a number, as in Wireshark's tools: so an interface
//! whose name is digits is taken by its number.
ghost use Rattle.std.specs.Prelude.{◌≡◌, ◌<◌, ◌^◌, [], None, All, IfOk, IfSome, length, option_map};
ghost use Rattle.std.specs.Io.Buffered.{reader_remaining};
ghost use Rattle.pcap.specs.Source.{New, Stream, most_left};
ghost use Rattle.pcapng_input.specs.Adapter.{told_octets};
ghost use Rattle.program_files.specs.Asked.{IsAsked};
ghost use Rattle.program_files.specs.Device.{left_in};
ghost use Rattle.program_files.specs.Opened.{AreOpened, IsOpened};
ghost use Rattle.program_files.specs.declared.inputs.Device.{Device as AnyDevice};

use crate::faults::{Failure, OutputFile, WorkedFailure, read_text};
use crate::mark::see_ended;
use crate::outputs::path_of;
use command_line::{STANDARD_INPUT, capture_name};
use part_record::DigestInput;
use pcap::kind::{FileKind, Peeked, peek};
use pcap::stream::{Source, StdInput};
use pcapng_input::{CaptureInput, Selection};
use std::alloc::{AllocError, Global};
use std::fs::{self, OpenFile};
use std::io::{self, BufReader, Input, Read};
use std::rt::Files;
use timeline::Tap;

/// How many octets are read at once where fewer are asked for, as for the first ones of a capture, by which its format is told.
const BLOCK: usize = 32_768;

/// How many reads are made of a file that is read whole, and of a capture, at most.
const TEXT_READS: u64 = 4_294_967_296;

pub const CAPTURE_READS: u64 = u64::MAX;

/// How many reads are made of a capture that is surveyed at most: as many as [`CaptureInput`] makes, so that its octets can
/// be counted.
const SURVEY_READS: u64 = 35_184_372_088_832;

/// A file that is read, or standard input.
#[derive(Drop)]
pub enum Device<F: Read + Drop, I: Read + Drop> {
    File(F),
    Standard(I),
}

impl<F: Read + OpenFile + Drop, I: Read + Drop> Device<F, I> {
    /// Whether it is a folder, which can be opened, and of which no read succeeds.
    fn is_folder(&self) -> bool {
        match self {
            Device::File(file) => match file.metadata() {
                Ok(found) => found.is_dir(),
                Err(_) => false,
            },
            Device::Standard(_) => false,
        }
    }
}

impl<F: Read + Drop, I: Read + Drop> Read for Device<F, I> {
    ghost use Rattle.program_files.specs.Device.{left_in};

    ghost remaining = { left_in F.remaining I.remaining };

    fn read(&mut self, octets: &mut [u8]) -> io::Result<usize> {
        match self {
            Device::File(file) => file.read(octets),
            Device::Standard(input) => input.read(octets),
        }
    }
}

/// The octets of a file or of standard input, read in blocks.
pub type Blocks<F, I> = StdInput<BufReader<Device<F, I>>>;

/// What a capture tells as classic pcap.
pub type ClassicInput<'a, F, I> = CaptureInput<'a, Blocks<F, I>>;

/// The records of a capture, whose octets are counted, and whose digest may be taken.
pub type Capture<'a, F, I> = Source<DigestInput<ClassicInput<'a, F, I>>>;

/// The records of a capture whose first octets were looked at.
pub type SeenCapture<'a, F, I> = Source<CaptureInput<'a, Peeked<Blocks<F, I>>>>;

/// The interfaces that the words ask for: one by its number, which is of digits alone, or by its name, or all.
pub fn selection_of(interface: Option<&str>) -> Selection<'_>
    ensures { IsAsked (option_map (λ words. words.now) interface.entry) result }
{
    let Some(interface) = interface else {
        return Selection::All;
    };
    match interface.parse::<u32>() {
        Ok(number) if !interface.starts_with('+') => Selection::Number(number),
        _ => Selection::Name(interface.as_bytes()),
    }
}

/// Opens the file of a capture of this name, or standard input. Nothing of it is read yet.
pub fn open_blocks<'a, R: Files + Input + AllocGlobal>(
    rt: &R,
    name: &'a str,
    file: &str,
) -> Result<Blocks<R::File, R::Reader>, Failure<'a>>
    ensures left { IfOk result (λ blocks. (device : AnyDevice R.File R.Reader)
        × (reader_remaining (left_in R.File.remaining R.Reader.remaining) blocks.reader
        ≡ left_in R.File.remaining R.Reader.remaining device)) }
{
    let device = if file == STANDARD_INPUT {
        Device::Standard(rt.reader())
    } else {
        match fs::open(rt, file) {
            Ok(file) => Device::File(file),
            Err(_) => return Err(Failure::Read(name)),
        }
    };
    if device.is_folder() {
        return Err(Failure::Read(name));
    }
    match BufReader::with_capacity(rt.alloc(), BLOCK, device) {
        Ok(reader) => Ok(StdInput::new(reader)),
        Err(_) => Err(Failure::from(AllocError)),
    }
}

/// Opens what a capture's name stands for. Nothing of it is read yet.
pub fn open_named<'a, R: Files + Input + AllocGlobal>(
    rt: &R,
    name: &'a str,
) -> Result<ClassicInput<'a, R::File, R::Reader>, Failure<'a>>
    ensures told { IfOk result (λ input. IsOpened R.File.remaining R.Reader.remaining name.now (told_octets input.adapter)) }
{
    open_for(rt, name, CAPTURE_READS)
}

/// Opens what a capture's name stands for, to read it in so many reads at most.
fn open_for<'a, R: Files + Input + AllocGlobal>(
    rt: &R,
    name: &'a str,
    reads: u64,
) -> Result<ClassicInput<'a, R::File, R::Reader>, Failure<'a>>
    ensures told { IfOk result (λ input. IsOpened R.File.remaining R.Reader.remaining name.now (told_octets input.adapter)) }
{
    let asked = capture_name(name);
    let input = match open_blocks(rt, name, asked.file) {
        Ok(input) => input,
        Err(failure) => return Err(failure),
    };
    match CaptureInput::new(rt.alloc(), input, selection_of(asked.interface), reads) {
        Ok(input) => Ok(input),
        Err(error) => Err(Failure::from(error)),
    }
}

/// How many reads are made of a capture for how it begins, at most.
const FRONT_READS: u64 = 4;

/// Opens what a capture's name stands for, to look at how it begins. Nothing of it is read yet, and little may be.
pub fn open_front<'a, R: Files + Input + AllocGlobal>(
    rt: &R,
    name: &'a str,
) -> Result<ClassicInput<'a, R::File, R::Reader>, Failure<'a>>
    ensures told { IfOk result (λ input. IsOpened R.File.remaining R.Reader.remaining name.now (told_octets input.adapter)) }
{
    open_for(rt, name, FRONT_READS)
}

/// Opens a capture, and looks at its first octets.
pub fn open_seen<'a, R: Files + Input + AllocGlobal>(
    rt: &R,
    name: &'a str,
) -> Result<(FileKind, SeenCapture<'a, R::File, R::Reader>), Failure<'a>>
    ensures new { IfOk result (λ seen. seen.1.standing ≡ New) }
    ensures most { IfOk result (λ seen. most_left seen.1 < 2 ^ 64) }
{
    let asked = capture_name(name);
    let blocks = match open_blocks(rt, name, asked.file) {
        Ok(blocks) => blocks,
        Err(failure) => return Err(failure),
    };
    seen(rt.alloc(), name, blocks, selection_of(asked.interface))
}

/// Opens a capture that a run wrote into this folder, where it ended, and looks at its first octets.
pub fn open_written<'a, R: Files + Input + AllocGlobal>(
    rt: &R,
    folder: &'a str,
    output: OutputFile,
) -> Result<SeenCapture<'a, R::File, R::Reader>, Failure<'a>>
    ensures new { IfOk result (λ seen. seen.standing ≡ New) }
    ensures most { IfOk result (λ seen. most_left seen < 2 ^ 64) }
{
    if let Err(failure) = see_ended(rt, folder) {
        return Err(failure);
    }
    let path = match path_of(rt.alloc(), folder, output) {
        Ok(path) => path,
        Err(error) => return Err(Failure::from(error)),
    };
    let Ok(file) = fs::open(rt, path.as_path()) else {
        return Err(Failure::Worked(folder, WorkedFailure::Lacks(output)));
    };
    let blocks = match BufReader::with_capacity(rt.alloc(), BLOCK, Device::File(file)) {
        Ok(reader) => StdInput::new(reader),
        Err(_) => return Err(Failure::from(AllocError)),
    };
    match seen(rt.alloc(), folder, blocks, Selection::All) {
        Ok((_, capture)) => Ok(capture),
        Err(failure) => Err(failure),
    }
}

/// A capture whose octets these are, of which nothing is read yet: what it is by its first octets, and its records.
fn seen<'a, F: Read + Drop, I: Read + Drop>(
    alloc: Global,
    name: &'a str,
    blocks: Blocks<F, I>,
    selection: Selection<'a>,
) -> Result<(FileKind, SeenCapture<'a, F, I>), Failure<'a>>
    ensures new { IfOk result (λ seen. seen.1.standing ≡ New) }
    ensures most { IfOk result (λ seen. most_left seen.1 < 2 ^ 64) }
{
    let Ok((head, peeked)) = peek(blocks) else {
        return Err(Failure::Read(name));
    };
    let kind = FileKind::of(head.octets());
    let input = match CaptureInput::new(alloc, peeked, selection, CAPTURE_READS) {
        Ok(input) => input,
        Err(error) => return Err(Failure::from(error)),
    };
    match Source::new(alloc, input, SURVEY_READS) {
        Ok(capture) => Ok((kind, capture)),
        Err(error) => Err(Failure::from(error)),
    }
}

/// The whole of a text's file.
pub fn read_file<'a, R: Files + AllocGlobal>(rt: &R, name: &'a str) -> Result<Vec<u8>, Failure<'a>>
    ensures told { IfOk result (λ text. (file : R.File) × IfSome (R.File.remaining file) (λ octets. text.items ≡ octets)) }
{
    let Ok(file) = fs::open(rt, name) else {
        return Err(Failure::Read(name));
    };
    match read_text(rt.alloc(), &mut StdInput::new(file), TEXT_READS) {
        Ok(text) => Ok(text),
        Err(fault) => Err(Failure::reading(name, fault)),
    }
}

/// The whole of a text's file that may be left out, which is empty then.
pub fn read_if_given<'a, R: Files + AllocGlobal>(
    rt: &R,
    name: Option<&'a str>,
) -> Result<Vec<u8>, Failure<'a>>
    ensures told { IfOk result (λ text. IfSome name.entry (λ _. (file : R.File)
        × IfSome (R.File.remaining file) (λ octets. text.items ≡ octets))) }
    ensures unnamed { IfOk result (λ text. name.entry ≡ None → text.items ≡ []) }
{
    match name {
        Some(name) => read_file(rt, name),
        None => Ok(Vec::new(rt.alloc())),
    }
}

/// The whole of the underlay's capture, as classic pcap.
pub fn read_underlay<'a, R: Files + Input + AllocGlobal>(
    rt: &R,
    name: &'a str,
) -> Result<Vec<u8>, Failure<'a>> {
    let mut input = match open_named(rt, name) {
        Ok(input) => input,
        Err(failure) => return Err(failure),
    };
    match read_text(rt.alloc(), &mut input, TEXT_READS) {
        Ok(text) => Ok(text),
        Err(fault) => match input.fault() {
            Some(fault) => Err(Failure::Pcapng(Tap::Underlay, fault)),
            None => Err(Failure::reading(name, fault)),
        },
    }
}

/// Opens a capture, whose digest is taken as it is read if that is asked for. Nothing of it is read yet.
pub fn open_capture<'a, R: Files + Input + AllocGlobal>(
    rt: &R,
    name: &'a str,
    is_digested: bool,
) -> Result<Capture<'a, R::File, R::Reader>, Failure<'a>>
    ensures fresh { IfOk result (λ (capture : Stream). capture.standing ≡ New) }
    ensures told { IfOk result (λ (capture : Stream). IsOpened R.File.remaining R.Reader.remaining name.now capture.supply.rest) }
{
    let input = match open_named(rt, name) {
        Ok(input) => input,
        Err(failure) => return Err(failure),
    };
    match Source::new(
        rt.alloc(),
        DigestInput::new(input, is_digested),
        CAPTURE_READS,
    ) {
        Ok(capture) => Ok(capture),
        Err(error) => Err(Failure::from(error)),
    }
}

/// Opens captures in turn.
pub fn open_captures<'a, R: Files + Input + AllocGlobal>(
    rt: &R,
    names: &[&'a str],
    is_digested: bool,
) -> Result<Vec<Capture<'a, R::File, R::Reader>>, Failure<'a>>
    ensures count { IfOk result (λ captures. length captures.items ≡ length names.now) }
    ensures fresh { IfOk result (λ captures. All (λ (capture : Stream). capture.standing ≡ New) captures.items) }
    ensures told { IfOk result (λ captures. AreOpened R.File.remaining R.Reader.remaining names.now captures.items) }
{
    let mut captures = Vec::new(rt.alloc());
    for name in names {
        let capture = match open_capture(rt, *name, is_digested) {
            Ok(capture) => capture,
            Err(failure) => return Err(failure),
        };
        if let Err(_) = captures.push(capture) {
            return Err(Failure::from(AllocError));
        }
    }
    Ok(captures)
}
