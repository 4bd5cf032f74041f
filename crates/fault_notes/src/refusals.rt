//! What is wrong with a text or a capture that is refused, below its fault.
use crate::interfaces::{Listed, is_asked_for};
use crate::link::{ETHERNET, Link};
use crate::named::{capture_at, changes_of_line, settings_of_line};
use capture_run::RunFault;
use command_line::{Line, capture_name};
use config_text::SettingsFault;
use part_lines::RecordsFault;
use pcap::kind::FileKind;
use pcap::stream::SourceFault;
use pcap::text::CaptureFault;
use pcapng_input::{BlockFault, PcapngFault};
use program_files::{
    OneLine, OutputFile, Reach, file_of, head_of_file, interfaces_of_file, path_of, read_file,
};
use std::alloc::AllocError;
use std::fs;
use std::rt::Files;
use text_advice::{TextKind, advice, syntax_error_at};
use timeline::Tap;

/// Tells where and why a text is refused, or what a file is that is no capture. What `check` prints itself isn't told again.
pub fn tell_refused<R: Files + AllocGlobal + Eprint>(
    rt: &R,
    line: &Line<'_>,
    fault: &RunFault,
) -> Result<(), AllocError> {
    match fault {
        RunFault::Settings(fault) => match settings_of_line(line) {
            Some(name) => tell_advice(rt, TextKind::Settings, name, fault),
            None => Ok(()),
        },
        RunFault::Changes(fault) => match changes_of_line(line) {
            Some(name) => tell_advice(rt, TextKind::Changes, name, fault),
            None => Ok(()),
        },
        RunFault::Capture(tap, fault) => {
            let is_told = *fault == CaptureFault::NotPcap && is_check(line);
            match capture_at(line, *tap) {
                Some(name) if !is_told => tell_capture(rt, file_of(name), *fault),
                _ => {}
            }
            Ok(())
        }
        _ => Ok(()),
    }
}

/// Tells where and why the settings of one endpoint of many are refused.
pub fn tell_leaf<R: Files + AllocGlobal + Eprint>(
    rt: &R,
    name: &str,
    fault: &RunFault,
) -> Result<(), AllocError> {
    match fault {
        RunFault::Settings(fault) => tell_advice(rt, TextKind::Settings, name, fault),
        _ => Ok(()),
    }
}

/// Whether a line looks at what a run is to read.
fn is_check(line: &Line<'_>) -> bool {
    match line {
        Line::Check { .. } => true,
        _ => false,
    }
}

/// Tells where a text is refused, and why, as `check` does. A pipe can't be read again.
fn tell_advice<R: Files + AllocGlobal + Eprint>(
    rt: &R,
    kind: TextKind,
    name: &str,
    fault: &SettingsFault,
) -> Result<(), AllocError> {
    match fs::metadata(rt, name) {
        Ok(found) if found.is_file() => {}
        _ => return Ok(()),
    }
    let Ok(text) = read_file(rt, name) else {
        return Ok(());
    };
    let at = syntax_error_at(rt.alloc(), text.as_slice())?;
    let shown = OneLine(name);
    let shown = format!(in rt.alloc(); "{shown}")?;
    let told = advice(
        rt.alloc(),
        kind,
        shown.as_str(),
        text.as_slice(),
        fault,
        at.as_ref(),
    )?;
    if let Ok(told) = str::from_utf8(told.as_slice()) {
        for line in told.lines() {
            let _ = eprintln!(rt; "  {line}");
        }
    }
    Ok(())
}

/// Tells what a file is that isn't taken as a capture.
fn tell_capture<R: Files + Eprint>(rt: &R, path: &str, fault: CaptureFault) {
    let Some(head) = head_of_file(rt, path) else {
        return;
    };
    let shown = OneLine(path);
    match fault {
        CaptureFault::NotPcap => {
            let kind = FileKind::of(head.octets());
            let _ = match kind {
                FileKind::Gzip => { eprintln!(rt; "  {shown}: {kind}, or <(zcat IN) in its place") }
                FileKind::Zstd => {
                    eprintln!(rt; "  {shown}: {kind}, or <(zstdcat IN) in its place")
                }
                FileKind::Empty => eprintln!(rt;
                    "  {shown}: {kind}: a capture without records is a header, head -c 24 OTHER.pcap"
                ),
                FileKind::Text => { eprintln!(rt; "  {shown}: {kind}, as -s and -c take") }
                _ => eprintln!(rt; "  {shown}: {kind}"),
            };
        }
        CaptureFault::BadLink => {
            if let Some(link) = Link::of(&head) {
                let _ = eprintln!(rt; "  {shown}: {link}");
            }
        }
    }
}

/// Tells what a file of a part is that isn't taken as a capture.
pub fn tell_part_capture<R: Files + AllocGlobal + Eprint>(
    rt: &R,
    folder: &str,
    tap: Tap,
    fault: RecordsFault,
) -> Result<(), AllocError> {
    let output = match tap {
        Tap::Port(number) => OutputFile::Port(usize::from(number)),
        Tap::Underlay => OutputFile::Underlay,
    };
    let path = path_of(rt.alloc(), folder, output)?;
    match fault {
        RecordsFault::Source(SourceFault::NotPcap) => {
            tell_capture(rt, path.as_path().as_str(), CaptureFault::NotPcap);
        }
        RecordsFault::Source(SourceFault::BadLink) => {
            tell_capture(rt, path.as_path().as_str(), CaptureFault::BadLink);
        }
        _ => {}
    }
    Ok(())
}

/// Tells which interfaces of a pcapng capture aren't Ethernet, or what a file is that was asked for one of its interfaces and
/// has none.
pub fn tell_pcapng<R: Files + AllocGlobal + Eprint>(
    rt: &R,
    name: &str,
    fault: PcapngFault,
) -> Result<(), AllocError> {
    match fault.fault {
        BlockFault::BadLink => tell_links(rt, name),
        BlockFault::NoSection if fault.offset == 0 => {
            tell_no_section(rt, name);
            Ok(())
        }
        _ => Ok(()),
    }
}

/// Tells what a file is that is no pcapng.
fn tell_no_section<R: Files + Eprint>(rt: &R, name: &str) {
    let path = file_of(name);
    let Some(head) = head_of_file(rt, path) else {
        return;
    };
    let shown = OneLine(path);
    match FileKind::of(head.octets()) {
        FileKind::Pcap => match capture_name(name).interface {
            Some(interface) => {
                let interface = OneLine(interface);
                let _ = eprintln!(rt;
                    "  {shown}: classic pcap tells no interface: leave #{interface} out"
                );
            }
            None => {
                let _ = eprintln!(rt;
                    "  {shown}: classic pcap tells no interface: it is one capture"
                );
            }
        },
        _ => tell_capture(rt, path, CaptureFault::NotPcap),
    }
}

/// Tells the link types of the interfaces that are asked for and aren't Ethernet.
fn tell_links<R: Files + AllocGlobal + Eprint>(rt: &R, name: &str) -> Result<(), AllocError> {
    let path = file_of(name);
    let shown = OneLine(path);
    for interface in &interfaces_of_file(rt, path, Reach::ToFirstPacket)? {
        let link = Link(u32::from(interface.link));
        if link != ETHERNET && is_asked_for(name, interface) {
            let words = Listed(interface);
            let _ = eprintln!(rt; "  {shown}: interface {words}: {link}");
        }
    }
    Ok(())
}
