//! What to do next about a fault, where there is one thing to do: lines on standard error below its causes, each begun by two
//! spaces.
use crate::named::capture_at;
use capture_run::RunFault;
use command_line::{Line, STANDARD_INPUT, capture_name};
use part_record::{PartRecordFault, PartingFault};
use program_files::{DigestsFailure, Failure, OneLine, OutputFile, PartFailure, Quoted};
use timeline::Tap;

/// Tells what to do next about a fault, where there is one thing to do.
#[inline(never)]
pub fn tell_next_step<R: Eprint>(rt: &R, line: &Line<'_>, failure: &Failure<'_>) {
    match failure {
        Failure::Run(RunFault::PortCount) => tell_ports(rt, line),
        Failure::Run(RunFault::Record(tap, number, _)) => tell_record(rt, line, *tap, *number),
        Failure::WriteFailed(output, fault)
            if *output != OutputFile::Stdout && fault.is_not_there() => { tell_folder(rt, line) }
        Failure::OneFile(OutputFile::Stdout, _) => tell(rt, "print into a file that no output is"),
        Failure::OneFile(..) => tell(rt, "remove one of them: it is a link of the other"),
        Failure::ReadAgain(_) => tell(rt, "give the part a folder of its own"),
        Failure::Unended(_) => tell(rt, "wait for it, or run it again"),
        Failure::Digests(_, fault) => tell(rt, for_digests(fault)),
        Failure::Part(_, fault) => tell_part(rt, line, fault),
        Failure::Parting(fault) => tell(rt, for_parting(fault)),
        Failure::Missing(_) => tell(
            rt,
            "a part of another run, or one that was cut off: run the parts again",
        ),
        _ => {}
    }
}

/// Tells one thing to do.
fn tell(rt: &impl Eprint, step: &str) {
    let _ = eprintln!(rt; "  {step}");
}

/// Tells how many captures were given, and what stands for a port without one.
fn tell_ports(rt: &impl Eprint, line: &Line<'_>) {
    let ports = match line {
        Line::Run { ports, .. } | Line::Check { ports, .. } | Line::Digest { ports, .. } =>
            ports.len(),
        _ => return,
    };
    let _ = eprintln!(rt;
        "  captures of ports: {ports}; one for each port of the settings is wanted, and of one without traffic a header will do: \
        head -c 24 CAPTURE"
    );
}

/// Tells how to keep the records before a damaged one. A pipe can't be read again, and an interface's records have other numbers
/// in their file.
fn tell_record(rt: &impl Eprint, line: &Line<'_>, tap: Tap, number: u64) {
    let Some(name) = capture_at(line, tap) else {
        return;
    };
    let parted = capture_name(name);
    let before = number.saturating_sub(1);
    if parted.file == STANDARD_INPUT || parted.interface.is_some() || before == 0 {
        return;
    }
    let shown = OneLine(parted.file);
    let file = Quoted(parted.file);
    let _ = eprintln!(rt;
        "  {shown}: record {number} is damaged: editcap -F nsecpcap -r {file} OUT 1-{before} keeps those before"
    );
}

/// Tells to make the folder for outputs.
fn tell_folder(rt: &impl Eprint, line: &Line<'_>) {
    let folder = match line {
        Line::Run { out, .. } => *out,
        Line::Merge { out, .. } => Some(*out),
        _ => None,
    };
    if let Some(folder) = folder {
        let folder = Quoted(folder);
        let _ = eprintln!(rt; "  mkdir {folder}");
    }
}

/// What to do about digests.
fn for_digests(fault: &DigestsFailure) -> &'static str {
    match fault {
        DigestsFailure::Text(_) => "tep digest makes such a text",
        DigestsFailure::Other(_) => {
            "take the digests of these captures anew with tep digest, and run each part again with them"
        }
    }
}

/// Tells what to do about a part.
fn tell_part(rt: &impl Eprint, line: &Line<'_>, fault: &PartFailure) {
    match fault {
        PartFailure::Lacks(OutputFile::Tables) => tell(rt, "run the part again with --tables"),
        PartFailure::Lacks(_) => tell(rt, "run the part again with --summary"),
        // Its own words say it.
        PartFailure::Record(PartRecordFault::Older) => {}
        PartFailure::Other(_) => tell_other(rt, line),
        PartFailure::LinesOnce => tell(rt, "keep its lines in a file, and merge again"),
        _ => tell(rt, "run the part again"),
    }
}

/// Tells which part is the first, from which another differs.
fn tell_other(rt: &impl Eprint, line: &Line<'_>) {
    let Line::Merge { parts, .. } = line else {
        return;
    };
    if let Some(first) = parts.first() {
        let shown = OneLine(*first);
        let _ = eprintln!(rt;
            "  the first part is {shown}: run the one again that isn't as it should be"
        );
    }
}

/// What to do about parts that aren't a whole run.
fn for_parting(fault: &PartingFault) -> &'static str {
    match fault {
        PartingFault::Missing(_) | PartingFault::NoneMissing => {
            "run a part with --segments that has what is missing, and name its folder too"
        }
        PartingFault::Doubled(_) | PartingFault::NoneDoubled => {
            "name each part once, and give each segment to one of them"
        }
    }
}
