//! The lines that tell what is in a capture.
ghost use Rattle.std.specs.Prelude.{◌≡◌, Some};
ghost use Rattle.capture_survey.specs.Report.{format_words, heading_text, line_text, moment_text, note_count};
ghost use Rattle.capture_survey.specs.Report.{note_words, notes_text, report_text, summary_words};

use crate::survey::Survey;
use crate::tally::Span;
use pcap::text::{Order, Precision, Style};
use std::fmt;
use timeline::Tap;

/// A second in nanoseconds.
const SECOND: u64 = 1_000_000_000;

/// A moment in nanoseconds. It prints as seconds with nine digits behind the point.
#[derive(Clone, Copy)]
pub struct Moment(pub u64);

impl fmt::Display for Moment {
    ghost output = { λ moment. Some (moment_text moment.0) };

    fn fmt<W: fmt::Write>(&self, f: &mut fmt::Formatter<W>) -> fmt::Result {
        let seconds = self.0 / SECOND;
        let fraction = self.0 % SECOND;
        write!(f, "{seconds}.{fraction:09}")
    }
}

/// What a capture is, in words.
#[derive(Clone, Copy)]
struct FormatWords {
    is_pcapng: bool,
    style: Style,
}

impl fmt::Display for FormatWords {
    ghost output = { λ words. Some (format_words words.is_pcapng words.style) };

    #[tactic(auto, unfolding(crate::specs::Report::format_words))]
    fn fmt<W: fmt::Write>(&self, f: &mut fmt::Formatter<W>) -> fmt::Result {
        if self.is_pcapng {
            return write!(f, "pcapng ethernet");
        }
        let order = match self.style.order {
            Order::Big => "big-endian",
            Order::Little => "little-endian",
        };
        let precision = match self.style.precision {
            Precision::Micro => "microseconds",
            Precision::Nano => "nanoseconds",
        };
        write!(f, "pcap {order} {precision} ethernet")
    }
}

/// How many records there are, and from when to when.
#[derive(Clone, Copy)]
struct Summary {
    records: u64,
    span: Option<Span>,
}

impl fmt::Display for Summary {
    ghost output = { λ summary. Some (summary_words summary.records summary.span) };

    #[tactic(auto, unfolding(crate::specs::Report::summary_words))]
    fn fmt<W: fmt::Write>(&self, f: &mut fmt::Formatter<W>) -> fmt::Result {
        let records = self.records;
        let word = if records == 1 { "record" } else { "records" };
        match self.span {
            None => write!(f, "{records} {word}"),
            Some(span) => {
                let first = Moment(span.first);
                let last = Moment(span.last);
                write!(f, "{records} {word}, first {first}, last {last}")
            }
        }
    }
}

/// What may be unmeant about a capture.
#[derive(Clone, Copy)]
pub(crate) enum Note {
    /// So many packets are outbound, and no records.
    LeftOut(u64),
    /// So many records are earlier than one before them.
    Falls(u64),
    /// So many records have fewer octets than their frame had.
    CutShort(u64),
    /// So many records of this tap have more octets than a run takes there.
    TooLong(Tap, u64),
    /// So many packets have UDP checksums that their senders left to their network cards.
    LeftToCard(u64),
    /// It ends in the middle of a record, or it doesn't.
    CutEnd(bool),
}

impl Note {
    /// How often it is so.
    fn count(self) -> u64
        ensures { result ≡ note_count self }
    {
        match self {
            Note::LeftOut(count)
            | Note::Falls(count)
            | Note::CutShort(count)
            | Note::TooLong(_, count)
            | Note::LeftToCard(count) => count,
            Note::CutEnd(is_cut) => u64::from(is_cut),
        }
    }
}

impl fmt::Display for Note {
    ghost output = { λ note. Some (note_words note) };

    fn fmt<W: fmt::Write>(&self, f: &mut fmt::Formatter<W>) -> fmt::Result {
        match self {
            Note::LeftOut(1) => write!(f, "left out 1 outbound packet"),
            Note::LeftOut(count) => write!(f, "left out {count} outbound packets"),
            Note::Falls(1) => write!(f, "1 record earlier than one before it"),
            Note::Falls(count) => write!(f, "{count} records earlier than one before them"),
            Note::CutShort(1) => write!(f, "1 record cut at capture"),
            Note::CutShort(count) => write!(f, "{count} records cut at capture"),
            Note::TooLong(Tap::Port(_), 1) => write!(f, "1 frame longer than 65535 octets"),
            Note::TooLong(Tap::Port(_), count) => {
                write!(f, "{count} frames longer than 65535 octets")
            }
            Note::TooLong(Tap::Underlay, 1) => write!(f, "1 packet longer than 65549 octets"),
            Note::TooLong(Tap::Underlay, count) => {
                write!(f, "{count} packets longer than 65549 octets")
            }
            Note::LeftToCard(1) => {
                write!(f, "1 udp checksum left to the card: ethtool -K DEV tx off")
            }
            Note::LeftToCard(count) => {
                write!(
                    f,
                    "{count} udp checksums left to the card: ethtool -K DEV tx off"
                )
            }
            Note::CutEnd(_) => write!(f, "ends in the middle of a record"),
        }
    }
}

/// The line of a note of a capture. It prints as nothing where it isn't so.
#[derive(Clone, Copy)]
pub(crate) struct Line {
    pub(crate) tap: Tap,
    pub(crate) note: Note,
}

impl fmt::Display for Line {
    ghost output = { λ line. Some (line_text line.tap line.note) };

    #[tactic(auto, unfolding(crate::specs::Report::line_text))]
    fn fmt<W: fmt::Write>(&self, f: &mut fmt::Formatter<W>) -> fmt::Result {
        if self.note.count() == 0 {
            return Ok(());
        }
        let tap = self.tap;
        let note = self.note;
        write!(f, "{tap}: {note}\n")
    }
}

/// What is in the capture of a tap. It prints as lines: what it is, its records and moments, and then a line for each thing
/// that may be unmeant.
#[derive(Clone, Copy)]
pub struct Report {
    pub tap: Tap,
    /// Whether the file is a pcapng capture, which is read as a classic one.
    pub is_pcapng: bool,
    /// How many packets of it are left out, since they are outbound.
    pub left_out: u64,
    pub survey: Survey,
}

impl Report {
    /// The line of a note.
    fn line(&self, note: Note) -> Line
        ensures { result ≡ record { tap = self.now.tap; note = note } }
    {
        Line {
            tap: self.tap,
            note,
        }
    }
}

impl fmt::Display for Report {
    ghost output = { λ report. Some (report_text report) };

    fn fmt<W: fmt::Write>(&self, f: &mut fmt::Formatter<W>) -> fmt::Result {
        let heading = Heading(*self);
        let notes = Notes(*self);
        write!(f, "{heading}{notes}")
    }
}

/// The first line of a report.
#[derive(Clone, Copy)]
struct Heading(Report);

impl fmt::Display for Heading {
    ghost output = { λ heading. Some (heading_text heading.0) };

    #[tactic(auto, unfolding(crate::specs::Report::heading_text))]
    fn fmt<W: fmt::Write>(&self, f: &mut fmt::Formatter<W>) -> fmt::Result {
        let tap = self.0.tap;
        let format = FormatWords {
            is_pcapng: self.0.is_pcapng,
            style: self.0.survey.style,
        };
        let summary = Summary {
            records: self.0.survey.tally.records,
            span: self.0.survey.tally.span,
        };
        write!(f, "{tap}: {format}, {summary}\n")
    }
}

/// The other lines of a report.
#[derive(Clone, Copy)]
struct Notes(Report);

impl fmt::Display for Notes {
    ghost output = { λ notes. Some (notes_text notes.0) };

    #[tactic(auto, unfolding(crate::specs::Report::notes_text))]
    fn fmt<W: fmt::Write>(&self, f: &mut fmt::Formatter<W>) -> fmt::Result {
        let report = self.0;
        let tally = report.survey.tally;
        let left_out = report.line(Note::LeftOut(report.left_out));
        let falls = report.line(Note::Falls(tally.falls));
        let cut_short = report.line(Note::CutShort(tally.cut_short));
        let too_long = report.line(Note::TooLong(report.tap, tally.too_long));
        let left_to_card = report.line(Note::LeftToCard(tally.left_to_card));
        let cut_end = report.line(Note::CutEnd(report.survey.is_cut));
        write!(
            f,
            "{left_out}{falls}{cut_short}{too_long}{left_to_card}{cut_end}"
        )
    }
}
