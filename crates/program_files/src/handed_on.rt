//! How the files that a run writes end: what their blocks hold is handed on to the system.
//!
//! The captures' blocks go on first, each of them also behind one that failed, and that of the decision lines only where all
//! captures have theirs: so no line stands in its file without the records of its event.
ghost use Rattle.std.specs.Prelude.{◌≡◌, [], All, IfOk, IfSome, length, map, true};
ghost use Rattle.std.specs.Io.KnownBytes.{Keeps};
ghost use Rattle.std.specs.List.{AllZip};
ghost use Rattle.pcap.specs.Block.{Block, told};
ghost use Rattle.pcap.specs.Sink.{Drain};
ghost use Rattle.program_files.specs.Held.{AreHandedOn, AreHeld, IsHeld, handed_on, written};

use crate::failed_outputs::{FailedOutput, FailedOutputs};
use crate::faults::{Failure, OutputFile};
use crate::outputs::{OutputFiles, OutputSums, PartRecordFile, Written};
use arrayvec::ArrayVec;
use octet_sums::fletcher::OctetSum;
use pcap::stream::Sink;
use std::alloc::{AllocError, Global};
use std::io::Write;
use timeline::RunOutputs;

/// What a run or a merge wrote: no block holds anything back.
#[derive(Drop)]
pub struct HandedOn<F: Write + Drop> {
    pub ports: Vec<Written<F>>,
    pub underlay: Written<F>,
    pub decisions: Written<F>,
    /// The file in which a part says what it was made from.
    pub part_file: Option<F>,
}

impl<F: Write + Drop> HandedOn<F> {
    /// Of a part, the file in which it says what it was made from, and the sums of its outputs.
    pub fn into_part_record(self) -> Option<PartRecordFile<F>> {
        let HandedOn {
            ports,
            underlay,
            decisions,
            part_file,
        } = self;
        let file = part_file?;
        let mut sums = OutputSums {
            decisions: sum_of(decisions),
            underlay: sum_of(underlay),
            ports: ArrayVec::new(),
        };
        for port in ports {
            // There is room for as many as a run has ports.
            let _ = sums.ports.try_push(sum_of(port));
        }
        Some(PartRecordFile { file, sums })
    }
}

/// The sum of what was written to a file, of no octets if it isn't summed.
fn sum_of<F: Write + Drop>(written: Written<F>) -> OctetSum {
    written.into_inner().sum().unwrap_or(OctetSum::new())
}

impl<F: Write + Drop> OutputFiles<F> {
    /// Hands on what the blocks hold. The first output that can't be written is why the program gives up, and all of them are
    /// noted.
    pub fn finish(
        self,
        alloc: Global,
        failed: &mut FailedOutputs,
    ) -> Result<HandedOn<F>, Failure<'static>>
        ensures count { IfOk result (λ files. length files.ports.items ≡ length self.files.ports) }
        ensures ports { IfOk result (λ files. All (λ (b : Block). b.held ≡ []) files.ports.items) }
        ensures underlay { IfOk result (λ files. files.underlay.held ≡ []) }
        ensures decisions { IfOk result (λ files. files.decisions.held ≡ []) }
        ensures kept { IfOk result (λ files. AreHandedOn (written self.files)
            (handed_on files.ports.items files.underlay files.decisions)) }
        ensures in_files { IfOk result (λ files. AreHeld F.contents (handed_on files.ports.items files.underlay files.decisions)) }
    {
        let OutputFiles { files, part_file } = self;
        let RunOutputs {
            ports,
            underlay,
            decisions,
        } = files;
        let mut underlay = underlay.into_inner();
        let mut decisions = decisions;
        let ports = hand_on_ports(alloc, ports, failed);
        let underlay_stands = hand_on(OutputFile::Underlay, &mut underlay, failed);
        let decisions_stand = hand_on_lines(&mut decisions, failed);
        if !underlay_stands || !decisions_stand {
            return Err(first_failure(failed));
        }
        match ports {
            Some(ports) => Ok(HandedOn {
                ports,
                underlay,
                decisions,
                part_file,
            }),
            None => Err(first_failure(failed)),
        }
    }

    /// Hands on what the blocks hold, behind a run or a merge that gave up for this failure. Where that is a write into one of
    /// these files it answers it with what the system told, and else the same. All outputs that can't be written are noted.
    pub fn finish_behind<'a>(
        self,
        alloc: Global,
        failure: Failure<'a>,
        failed: &mut FailedOutputs,
    ) -> Failure<'a> {
        let _ = self.finish(alloc, failed);
        match failure {
            Failure::Write(output) => match failed.find(output) {
                Some(file) => file.failure(),
                None => Failure::Write(output),
            },
            other => other,
        }
    }
}

/// Why the program gives up: the first output that can't be written, or memory where there is none.
fn first_failure(failed: &FailedOutputs) -> Failure<'static> {
    match failed.first() {
        Some(file) => file.failure(),
        None => Failure::from(AllocError),
    }
}

/// Hands on what the blocks of the ports' captures hold. It answers them where each has all that was written to it; those that
/// haven't are noted, and memory for a list of them was refused where none is.
fn hand_on_ports<F: Write + Drop>(
    alloc: Global,
    ports: Vec<Sink<Written<F>>>,
    failed: &mut FailedOutputs,
) -> Option<Vec<Written<F>>>
    ensures count { IfSome result (λ files. length files.items ≡ length ports.items) }
    ensures all { IfSome result (λ files. All (λ (b : Block). b.held ≡ []) files.items) }
    ensures kept { IfSome result (λ files. AllZip Keeps (map (λ (d : Drain). d.written) ports.items)
        (map (λ (b : Block). b.written) files.items)) }
    ensures in_files { IfSome result (λ files. All (IsHeld F.contents) (map (λ (b : Block). b.written) files.items)) }
{
    let count = ports.len();
    let mut files = Vec::new(alloc);
    for (index, port) in ports.into_iter().enumerate() {
        let mut file = port.into_inner();
        if hand_on(OutputFile::Port(index + 1), &mut file, failed) {
            // Where memory for the list is refused, it stays too short.
            let _ = files.push(file);
        }
    }
    if files.len() == count {
        Some(files)
    } else {
        None
    }
}

/// Hands on what the block of the decision lines holds, where no capture is noted, and says whether their file has all of them.
fn hand_on_lines<F: Write + Drop>(decisions: &mut Written<F>, failed: &mut FailedOutputs) -> bool
    ensures all { result ≡ true → decisions.new.held ≡ [] }
    ensures kept { result ≡ true → Keeps (told decisions.old) decisions.new.written }
    ensures in_file { IsHeld F.contents decisions.new.written }
{
    if failed.is_empty() {
        return hand_on(OutputFile::Decisions, decisions, failed);
    }
    let fault = decisions.output().output().writer().fault();
    if fault.is_some() {
        failed.note(OutputFile::Decisions, fault);
    }
    false
}

/// Hands on what a file's block holds, and says whether the file has all that was written to it; else it is noted.
fn hand_on<F: Write + Drop>(
    output: OutputFile,
    written: &mut Written<F>,
    failed: &mut FailedOutputs,
) -> bool
    ensures all { result ≡ true → written.new.held ≡ [] }
    ensures kept { result ≡ true → Keeps (told written.old) written.new.written }
    ensures in_file { IsHeld F.contents written.new.written }
{
    let is_handed_on = written.finish().is_ok();
    let fault = written.output().output().writer().fault();
    if is_handed_on && fault.is_none() {
        return true;
    }
    failed.note(output, fault);
    false
}
