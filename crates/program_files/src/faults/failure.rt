//! Why the program gives up.
ghost use Rattle.std.specs.Prelude.{◌≡◌};
ghost use Rattle.capture_run.specs.declared.fault.RunFault.TheVariants as run;
ghost use Rattle.program_files.specs.Status.{failure_status_of};
ghost use Rattle.program_files.specs.declared.faults.failure.Failure.TheVariants as failures;
ghost use Rattle.program_files.specs.declared.faults.failure.PartFailure.TheVariants as part_failures;
ghost use Rattle.program_files.specs.declared.faults.text.TextFault.TheVariants.{OutOfMemory, Read};

use crate::faults::leaf_failure::LeafFailure;
use crate::faults::one_line::OneLine;
use crate::faults::split_failure::{SplitFailure, UnwrittenFile};
use crate::faults::status::exit_code;
use crate::faults::system_fault::SystemFault;
use crate::faults::text::TextFault;
use crate::faults::worked_failure::WorkedFailure;
use capture_compare::{CompareFault, Side};
use capture_run::RunFault;
use part_lines::PartFault;
use part_record::{Difference, DigestsFault, LentFault, PartRecordFault, PartingFault};
use pcapng_input::PcapngFault;
use segment_set::ListFault;
use std::alloc::AllocError;
use std::{fmt, io};
use thiserror::Error;
use timeline::Tap;

/// Why the program gives up. It prints as one line on standard error, with names as [`OneLine`] prints them.
#[derive(Debug, Drop, Error)]
pub enum Failure<'a> {
    /// A text or a capture is refused, or memory was.
    #[error("{0}")]
    Run(#[from] RunFault),
    /// A pcapng capture is refused.
    #[error("{0}: {1}")]
    Pcapng(Tap, PcapngFault),
    /// The file of this name, as it was given, couldn't be read.
    #[error("read {name}", name = OneLine(*.0))]
    Read(&'a str),
    /// This couldn't be written: it is one of the files that are read, or nobody told why.
    #[error("write {0}")]
    Write(OutputFile),
    /// This couldn't be written, and the system told why.
    #[error("write {0}")]
    WriteFailed(OutputFile, SystemFault),
    /// These two outputs are one file, under two names: neither is written.
    #[error("{0} and {1} are one file")]
    OneFile(OutputFile, OutputFile),
    /// A part reads this output again behind its run, and it is no regular file.
    #[error("{0} is no regular file, and a part reads it again")]
    ReadAgain(OutputFile),
    /// A run or a merge into the folder of this name is under way, or it didn't end.
    #[error("{name}: a run into it is under way or didn't end", name = OneLine(*.0))]
    Unended(&'a str),
    /// No event has one of the names that were asked for, of which this is the first.
    #[error("why: no event {name}", name = OneLine(*.0))]
    NoEvent(&'a str),
    /// The list of the segments of a part is refused.
    #[error("segments: {0}")]
    Segments(ListFault),
    /// This text is no time.
    #[error("within: {name} is no time, as 500us, 10ms or 1s are", name = OneLine(*.0))]
    Within(&'a str),
    /// This text is no time by which a clock is ahead or behind.
    #[error("shift: {name} is no time, as 500us, 10ms or -1s are", name = OneLine(*.0))]
    Shift(&'a str),
    /// The text of this file doesn't lend a part the digests of its captures.
    #[error("{name}: {1}", name = OneLine(*.0))]
    Digests(&'a str, DigestsFailure),
    /// The part in this folder is wrong.
    #[error("part {name}: {1}", name = OneLine(*.0))]
    Part(&'a str, PartFailure),
    /// Parts aren't a whole run.
    #[error("{0}")]
    Parting(PartingFault),
    /// Two captures couldn't be compared to their ends.
    #[error("{0}")]
    Compared(CompareFault),
    /// A pcapng capture that is compared is refused.
    #[error("{0}: {1}")]
    ComparedPcapng(Side, PcapngFault),
    /// What a run wrote at this place and what was captured there couldn't be compared to their ends.
    #[error("{0}: {1}")]
    ComparedAt(Tap, CompareFault),
    /// A pcapng capture of this place that is compared is refused.
    #[error("{0}: {1}: {2}")]
    ComparedPcapngAt(Tap, Side, PcapngFault),
    /// The folder of this name isn't compared with what is named beside it, or the capture of this name isn't.
    #[error("{name}: {1}", name = OneLine(*.0))]
    Worked(&'a str, WorkedFailure),
    /// What was received isn't what was sent.
    #[error("what was received isn't what was sent")]
    Differs,
    /// Where the event of this number was to come, no part has it, and one has an event of a greater one.
    #[error("missing {0}")]
    Missing(u64),
    /// The capture of this name isn't split, or not whole.
    #[error("{name}: {1}", name = OneLine(*.0))]
    Split(&'a str, SplitFailure),
    /// A file that a capture is split into couldn't be written.
    #[error("write {0}")]
    Unwritten(UnwrittenFile),
    /// The endpoint whose settings are in the file of this name isn't looked at, and so none is.
    #[error("{name}: {1}", name = OneLine(*.0))]
    Leaf(&'a str, LeafFailure),
    /// Some endpoints don't reach others.
    #[error("not all reach all")]
    Unreached,
}

/// Why a text lends a part no digests.
#[derive(Debug, Drop, Error)]
pub enum DigestsFailure {
    /// It is no text of digests.
    #[error("{0}")]
    Text(DigestsFault),
    /// They are of other captures.
    #[error("{0}")]
    Other(LentFault),
}

/// What is wrong with a part of a run.
#[derive(Debug, Drop, Error)]
pub enum PartFailure {
    /// Its record of what it was made from is no such text.
    #[error("shard.txt: {0}")]
    Record(PartRecordFault),
    /// The list of its segments is none.
    #[error("shard.txt: {0}")]
    List(ListFault),
    /// It is of another run than the first part.
    #[error("{0}")]
    Other(Difference),
    /// It has another number of decision lines than its record says, as a part that was cut off has.
    #[error("decisions.txt has another number of events than shard.txt says")]
    Events,
    /// It has another number of decision lines than its record says, those of cut captures with them.
    #[error("decisions.txt has another number of lines than shard.txt says")]
    Lines,
    /// Its decision lines tell another number of records of this output than its record says.
    #[error("decisions.txt tells another number of records of {0} than shard.txt says")]
    Records(OutputFile),
    /// This output has another number of octets than its record says.
    #[error("{0} has another number of octets than shard.txt says")]
    Octets(OutputFile),
    /// This output has as many octets as its record says, and other ones, or a text that it left isn't what its record says.
    #[error("{0} has other octets than shard.txt says")]
    Sums(OutputFile),
    /// Its decision lines are no regular file, and a merge reads them twice.
    #[error("decisions.txt is no regular file, and a merge reads it twice")]
    LinesOnce,
    /// It has no such file, since it was run without the word that asks for that.
    #[error("it has no {0}")]
    Lacks(OutputFile),
    /// This line of a text that it left isn't what stands there in such a text.
    #[error("{0}: line {1}")]
    Report(OutputFile, usize),
    /// Its lines or its captures are wrong.
    #[error("{0}")]
    Part(PartFault),
}

/// What is written: a file within the folder for outputs, or the text on standard output.
#[derive(Clone, Copy, Debug, PartialEq, Eq)]
pub enum OutputFile {
    /// The capture of the port of this number.
    Port(usize),
    Underlay,
    Decisions,
    /// The decision lines told as JSON objects.
    Objects,
    /// What a part was made from.
    PartRecord,
    /// What a part counted.
    Summary,
    /// The tables of a part at its end.
    Tables,
    /// What says that a run isn't done.
    Mark,
    Stdout,
}

impl fmt::Display for OutputFile {
    fn fmt<W: fmt::Write>(&self, f: &mut fmt::Formatter<W>) -> fmt::Result {
        match self {
            OutputFile::Port(number) => write!(f, "port{number}.pcap"),
            OutputFile::Underlay => f.write_str("underlay.pcap"),
            OutputFile::Decisions => f.write_str("decisions.txt"),
            OutputFile::Objects => f.write_str("decisions.jsonl"),
            OutputFile::PartRecord => f.write_str("shard.txt"),
            OutputFile::Summary => f.write_str("summary.txt"),
            OutputFile::Tables => f.write_str("tables.txt"),
            OutputFile::Mark => f.write_str("unfinished.txt"),
            OutputFile::Stdout => f.write_str("stdout"),
        }
    }
}

impl<'a> From<AllocError> for Failure<'a> {
    fn from(error: AllocError) -> Failure<'a> {
        Failure::Run(RunFault::from(error))
    }
}

impl<'a> Failure<'a> {
    /// That the file of this name couldn't be read whole.
    pub fn reading(name: &'a str, fault: TextFault) -> Failure<'a>
        ensures read { fault ≡ Read → result ≡ failures.Read name.entry }
        ensures memory { fault ≡ OutOfMemory → result ≡ failures.Run run.OutOfMemory }
    {
        match fault {
            TextFault::Read => Failure::Read(name),
            TextFault::OutOfMemory => Failure::Run(RunFault::OutOfMemory),
        }
    }

    /// That this couldn't be written for an error.
    pub fn writing(output: OutputFile, error: &io::Error) -> Failure<'static>
        ensures { failure_status_of result ≡ 3 }
    {
        match SystemFault::of(error) {
            Some(fault) => Failure::WriteFailed(output, fault),
            None => Failure::Write(output),
        }
    }

    /// That the part in this folder is wrong.
    pub fn in_part(folder: &'a str, fault: PartFault) -> Failure<'a>
        ensures { result ≡ failures.Part folder.entry (part_failures.Part fault) }
    {
        Failure::Part(folder, PartFailure::Part(fault))
    }

    /// The exit status: 1 for a text, a capture, a part, a folder or digests that are refused, an event that isn't there,
    /// captures that differ or endpoints that don't reach others, 3 for want of memory, a failed read, a failed write or outputs that are one file.
    pub fn status(&self) -> u8
        ensures { result ≡ failure_status_of self.now }
    {
        match self {
            Failure::Run(fault) => exit_code(fault),
            Failure::Pcapng(..)
            | Failure::NoEvent(_)
            | Failure::Segments(_)
            | Failure::Within(_)
            | Failure::Shift(_)
            | Failure::ReadAgain(_)
            | Failure::Unended(_)
            | Failure::Digests(..)
            | Failure::Part(..)
            | Failure::Parting(_)
            | Failure::Compared(_)
            | Failure::ComparedPcapng(..)
            | Failure::ComparedAt(..)
            | Failure::ComparedPcapngAt(..)
            | Failure::Worked(..)
            | Failure::Differs
            | Failure::Missing(_)
            | Failure::Split(..)
            | Failure::Leaf(..)
            | Failure::Unreached => 1,
            Failure::Read(_) | Failure::Write(_) | Failure::WriteFailed(..) => 3,
            Failure::OneFile(..) | Failure::Unwritten(_) => 3,
        }
    }
}
