//! Parts of a run: some of its segments, and what they were made from.
ghost use Rattle.std.specs.Prelude.{◌≡◌, IfOk, IsNone, IsSome, None, OnErr, OnOk, Some};
ghost use Rattle.part_record.specs.Lent.{HaveOctets};

use crate::digests::lent_digests;
use crate::done::Done;
use crate::job::{Job, ListedPart, Scope};
use crate::outbound::Outbound;
use arrayvec::ArrayVec;
use capture_run::RunFault;
use part_record::{
    CaptureDigests, MOST_PORTS, OutputFacts, PartRecord, ToldOutputs, ToldTexts, put_texts,
    see_octets, text_of,
};
use program_files::{
    Destination, DigestsFailure, Failure, Mark, OutputFile, OutputSums, PartLines, PartRecordFile,
    count_lines, leave_text,
};
use segment_set::SegmentSet;
use sha2::{Digest, Sha256};
use std::alloc::{AllocError, Global};
use std::io::Write;
use std::rt::Files;
use text_calls::tap_of;
use timeline::Tap;

/// A run that is done.
#[derive(Drop)]
pub struct Ran<F: Drop> {
    /// The captures of which the rest is cut and is told. Of a part they stand in the one that has what comes to no segment.
    pub cut: Vec<Tap>,
    /// What the captures tell as outbound, which was left out.
    pub outbound: Vec<Outbound>,
    /// The empty file in which a part is to say what it was made from.
    part_file: Option<F>,
    /// What it was made from.
    record: Vec<u8>,
    /// What the part left of what it printed.
    left: ToldTexts,
    /// What says of the folder, where one is named, that the run isn't done.
    mark: Option<Mark>,
}

impl<F: Write + Drop> Ran<F> {
    /// A run that doesn't say what it was made from.
    fn whole(alloc: Global, cut: Vec<Tap>, outbound: Vec<Outbound>, mark: Option<Mark>) -> Ran<F> {
        Ran {
            cut,
            outbound,
            part_file: None,
            record: Vec::new(alloc),
            left: ToldTexts::default(),
            mark,
        }
    }

    /// Writes the tables or the counts of a part that is written into its folder. What else is run leaves neither.
    pub fn leave<R: Files + AllocGlobal>(
        &mut self,
        rt: &R,
        folder: &str,
        output: OutputFile,
        text: &[u8],
    ) -> Result<(), Failure<'static>> {
        if self.part_file.is_none() {
            return Ok(());
        }
        let sum = leave_text(rt, folder, output, text)?;
        match output {
            OutputFile::Tables => self.left.tables = Some(sum),
            OutputFile::Summary => self.left.summary = Some(sum),
            _ => {}
        }
        Ok(())
    }

    /// Writes what a part was made from and left, once, and takes the mark away that says that the run isn't done. No merge takes
    /// a part before.
    pub fn finish<R: Files>(&mut self, rt: &R) -> Result<(), Failure<'static>>
        ensures done { OnOk result ((self.new.part_file ≡ None) × (self.new.mark ≡ None)) }
        ensures marked { OnErr result (self.new.mark ≡ self.old.mark) }
    {
        if let Some(file) = self.part_file.take() {
            if put_texts(&mut self.record, self.left).is_err() {
                return Err(Failure::from(AllocError));
            }
            if let Err(failure) = write_part_record(file, self.record.as_slice()) {
                return Err(failure);
            }
        }
        if let Some(mark) = &self.mark {
            if let Err(failure) = mark.clear(rt) {
                return Err(failure);
            }
        }
        self.mark = None;
        Ok(())
    }
}

/// What a run leaves that is done: of a part that is written also what it was made from, with the digests that were lent to it.
pub(crate) fn ran_of<'a, R: Files + AllocGlobal>(
    rt: &R,
    job: Job<'_, 'a>,
    lent: Option<(&'a str, CaptureDigests)>,
    done: Done<R::File>,
) -> Result<Ran<R::File>, Failure<'a>> {
    let Done {
        cut,
        outbound,
        ports,
        underlay,
        digests: taken,
        part_file,
    } = done;
    let mark = mark_of(rt.alloc(), job.folder)?;
    let Scope::Part(part) = job.scope else {
        return Ok(Ran::whole(rt.alloc(), cut, outbound, mark));
    };
    let cut = cut_told(rt.alloc(), cut, part.segments);
    let (Some(folder), Some(part_file)) = (job.folder, part_file) else {
        return Ok(Ran::whole(rt.alloc(), cut, outbound, mark));
    };
    let digests = match digests_behind(lent, taken, ports.as_slice(), underlay) {
        Ok(digests) => digests,
        Err(failure) => return Err(failure),
    };
    let lines = match lines_written(rt, folder.name) {
        Ok(lines) => lines,
        Err(failure) => return Err(failure),
    };
    let PartRecordFile { file, sums } = part_file;
    let made = record_of_part(job, part, &digests, lines.events);
    let outputs = outputs_told(&lines, &sums);
    let record = text_of(rt.alloc(), &made, outputs.as_slice())?;
    Ok(Ran {
        cut,
        outbound,
        part_file: Some(file),
        record,
        left: ToldTexts::default(),
        mark,
    })
}

/// The mark of the folder that a run is written into, where one is named.
fn mark_of(alloc: Global, folder: Option<Destination<'_>>) -> Result<Option<Mark>, AllocError> {
    match folder {
        Some(folder) => Ok(Some(Mark::of(alloc, folder.name)?)),
        None => Ok(None),
    }
}

/// What the decision lines tell together that a part wrote into this folder.
fn lines_written<R: Files + AllocGlobal>(
    rt: &R,
    folder: &str,
) -> Result<PartLines, Failure<'static>> {
    match count_lines(rt, folder) {
        Ok(lines) => Ok(lines),
        Err(failure) => Err(lines_unread(&failure)),
    }
}

/// The fault of a part whose own lines can't be read for this: memory was refused, or else they weren't written.
fn lines_unread(failure: &Failure<'_>) -> Failure<'static> {
    match failure {
        Failure::Run(RunFault::OutOfMemory) => Failure::Run(RunFault::OutOfMemory),
        _ => Failure::Write(OutputFile::Decisions),
    }
}

/// What is told of a part's outputs, which have these lines and these sums.
fn outputs_told(lines: &PartLines, sums: &OutputSums) -> ToldOutputs {
    let mut outputs = ToldOutputs::new();
    // There is room for the decision lines, the underlay's capture and those of as many ports as there are sums.
    let _ = outputs.try_push(OutputFacts {
        records: lines.lines,
        sum: sums.decisions,
    });
    let _ = outputs.try_push(OutputFacts {
        records: lines.records.records(Tap::Underlay),
        sum: sums.underlay,
    });
    for (index, sum) in sums.ports.as_slice().iter().enumerate() {
        let _ = outputs.try_push(OutputFacts {
            records: lines.records.records(tap_of(index)),
            sum: *sum,
        });
    }
    outputs
}

/// The cut captures that these segments tell: those of the whole run, where they have what comes to no segment.
fn cut_told(alloc: Global, cut: Vec<Tap>, segments: &SegmentSet) -> Vec<Tap> {
    if segments.has(None) {
        cut
    } else {
        Vec::new(alloc)
    }
}

/// Writes what a part was made from.
fn write_part_record<F: Write + Drop>(file: F, text: &[u8]) -> Result<(), Failure<'static>> {
    let mut file = file;
    match file.write_all(text) {
        Ok(()) => Ok(()),
        Err(error) => Err(Failure::writing(OutputFile::PartRecord, &error)),
    }
}

/// The digests that are lent to a part that is written, with the name of their file, where there are any. To all else none are.
pub(crate) fn lent_to<'a, R: Files + AllocGlobal>(
    rt: &R,
    job: Job<'_, 'a>,
) -> Result<Option<(&'a str, CaptureDigests)>, Failure<'a>> {
    if job.folder.is_none() || !job.scope.is_part() {
        return Ok(None);
    }
    let names = job.names;
    match names.digests {
        Some(name) => match lent_digests(rt, name, names.ports.len()) {
            Ok(digests) => Ok(Some((name, digests))),
            Err(failure) => Err(failure),
        },
        None => Ok(None),
    }
}

/// The digests of captures behind a run that read so many octets of each: those that are lent, which have to tell the same numbers,
/// or else those that were taken as it read.
fn digests_behind<'a>(
    lent: Option<(&'a str, CaptureDigests)>,
    taken: Option<CaptureDigests>,
    ports: &[u64],
    underlay: u64,
) -> Result<CaptureDigests, Failure<'a>>
    ensures lent { IsSome lent.entry → IfOk result (λ digests. HaveOctets digests.ports.items digests.underlay ports.now underlay) }
    ensures taken { IsNone lent.entry → IfOk result (λ digests. taken ≡ Some digests) }
{
    match (lent, taken) {
        (Some((name, digests)), _) => match see_octets(&digests, ports, underlay) {
            Ok(()) => Ok(digests),
            Err(fault) => Err(Failure::Digests(name, DigestsFailure::Other(fault))),
        },
        (None, Some(digests)) => Ok(digests),
        (None, None) => Err(Failure::Write(OutputFile::PartRecord)),
    }
}

/// What a part with so many events was made from.
fn record_of_part<'p>(
    job: Job<'_, '_>,
    part: ListedPart<'p>,
    digests: &CaptureDigests,
    events: u64,
) -> PartRecord<'p> {
    let mut ports = ArrayVec::<[u8; 32], MOST_PORTS>::new();
    for digest in digests.ports.as_slice() {
        // There is room for as many as there are digests.
        let _ = ports.try_push(digest.sum);
    }
    PartRecord {
        segments: part.list,
        settings: digest_of_text(job.texts.settings.as_slice()),
        changes: if job.names.changes.is_some() {
            Some(digest_of_text(job.texts.changes.as_slice()))
        } else {
            None
        },
        ports,
        underlay: digests.underlay.sum,
        both: part.both,
        events,
    }
}

/// The digest of a text.
fn digest_of_text(text: &[u8]) -> [u8; 32] {
    let mut hasher = Sha256::new();
    hasher.update(text);
    hasher.finalize()
}
