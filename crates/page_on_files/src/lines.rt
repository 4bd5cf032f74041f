//! The decision lines of a folder.
use line_stream::{Lines, LinesFault};
use pcap::stream::Input;
use program_files::{Failure, OutputFile, PartFile, WorkedFailure, open_part_file};
use report_counts::{ReportCounts, ReportLine, read_line};
use std::io::Read;
use std::rt::Files;

/// The lines of a folder, one after another.
#[derive(Drop)]
struct DecisionLines<'a, F: Read + Drop> {
    folder: &'a str,
    lines: Lines<PartFile<F>>,
    /// The number of the line that was read last.
    number: u64,
}

impl<'a, F: Read + Drop> DecisionLines<'a, F> {
    /// The next line, and what it tells; nothing at the end.
    fn next(&mut self) -> Result<Option<ReportLine<'_>>, Failure<'a>> {
        self.number = self.number.saturating_add(1);
        let fault = WorkedFailure::Line(OutputFile::Decisions, self.number);
        match self.lines.fetch() {
            Ok(()) => {}
            Err(LinesFault::Read) => return Err(Failure::Read(self.folder)),
            Err(LinesFault::TooLong) => return Err(Failure::Worked(self.folder, fault)),
        }
        let line = self.lines.line();
        if line.is_empty() {
            return Ok(None);
        }
        let Some(line) = line.strip_suffix(b"\n") else {
            return Err(Failure::Worked(self.folder, fault));
        };
        match read_line(line) {
            Ok(told) => Ok(Some(told)),
            Err(_) => Err(Failure::Worked(self.folder, fault)),
        }
    }
}

/// Opens the lines of a folder. Nothing of them is read yet.
fn open_lines<'a, R: Files + AllocGlobal>(
    rt: &R,
    folder: &'a str,
) -> Result<DecisionLines<'a, R::File>, Failure<'a>> {
    let input = match open_part_file(rt, folder, OutputFile::Decisions) {
        Ok(input) => input,
        Err(failure) => return Err(failure),
    };
    let lines = Lines::new(rt.alloc(), input)?;
    Ok(DecisionLines {
        folder,
        lines,
        number: 0,
    })
}

/// The moments of the first event and of the last, in nanoseconds; 0 where there is none.
pub(crate) fn moments_of<'a, R: Files + AllocGlobal>(
    rt: &R,
    folder: &'a str,
) -> Result<(u64, u64), Failure<'a>> {
    let mut lines = open_lines(rt, folder)?;
    let mut moments = None;
    for _ in 0..u64::MAX {
        match lines.next()? {
            None => break,
            Some(ReportLine::Event(event)) => {
                moments = match moments {
                    None => Some((event.moment, event.moment)),
                    Some((first, _)) => Some((first, event.moment)),
                };
            }
            Some(ReportLine::Cut { .. }) => {}
        }
    }
    Ok(moments.unwrap_or((0, 0)))
}

/// Counts all lines.
pub(crate) fn count_lines<'a, R: Files + AllocGlobal>(
    rt: &R,
    folder: &'a str,
    counts: &mut ReportCounts,
) -> Result<(), Failure<'a>> {
    let mut lines = open_lines(rt, folder)?;
    for _ in 0..u64::MAX {
        match lines.next()? {
            None => break,
            Some(line) => counts.count(&line),
        }
    }
    Ok(())
}
