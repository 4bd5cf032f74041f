//! Records, and what comes next in a text of them.
//!
//! A faulty record that is also cut has its fault, TooLarge or else BadFraction, before the cut.
ghost use Rattle.std.specs.Prelude.{◌≡◌, ◌≤◌, length, IfOk};
ghost use Rattle.pcap.specs.RecordText.{record_header_by, record_header_in};
ghost use Rattle.pcap.specs.Next.{IsReadable, next_of, readable};
ghost use Rattle.pcap.specs.Seen.{FoundIsWithinLimits, next_seen};

use crate::text::style::{Order, Precision, SECOND, Style};
use byteorder::{BigEndian, ByteOrder, LittleEndian};
use std::marker::Model;
use thiserror::Error;

/// The octets of a record at most.
pub const LONGEST: usize = 262_144;

/// The octets that stand before a record's own.
pub const RECORD_HEADER_LENGTH: usize = 16;

/// Why a record isn't read.
#[derive(Clone, Copy, Debug, PartialEq, Eq, Error)]
pub enum RecordFault {
    /// It claims more than 262,144 octets.
    #[error("TooLarge")]
    TooLarge,
    /// Its fraction is 1,000,000 microseconds or 1,000,000,000 nanoseconds, or more.
    #[error("BadFraction")]
    BadFraction,
}

/// A record of a capture.
#[derive(Debug, Drop)]
pub struct Record<'a> {
    /// Nanoseconds, at most 4,294,967,295,999,999,999.
    pub moment: u64,
    /// How many octets the frame had. A record may hold fewer, or even more.
    pub original: u32,
    /// The octets that were captured, at most 262,144: a slice of the capture.
    pub octets: &'a [u8],
}

impl<'a> Model for Record<'a> {
    ghost use Rattle.pcap.specs.Record.{Record};

    ghost Value = { Record };

    ghost view = { λ r. record { moment = r.moment; original = r.original; octets = r.octets.now } };
}

/// The numbers that stand before a record's octets, 32 bits each.
#[derive(Clone, Copy, Debug)]
pub struct RecordHeader {
    pub seconds: u32,
    pub fraction: u32,
    pub captured: u32,
    pub original: u32,
}

impl RecordHeader {
    ghost use Rattle.pcap.specs.RecordText.{moment_of};

    /// The moment in nanoseconds.
    pub fn moment(self, precision: Precision) -> u64
        ensures { result ≡ moment_of precision self }
    {
        u64::from(self.seconds) * SECOND + u64::from(self.fraction) * precision.nanoseconds()
    }
}

/// What comes next in a text of records: a record and the text behind it, or how the records end.
#[derive(Drop)]
pub enum Next<'a> {
    Another(Record<'a>, &'a [u8]),
    Whole,
    Cut,
    Faulty(RecordFault),
}

/// The numbers before a record's octets, in a byte order.
fn read_header<B: ByteOrder>(text: &[u8]) -> RecordHeader
    requires { 16 ≤ length text.now }
    ensures { result ≡ record_header_by B.number_of text.now }
{
    RecordHeader {
        seconds: B::read_u32(text),
        fraction: B::read_u32(&text[4..]),
        captured: B::read_u32(&text[8..]),
        original: B::read_u32(&text[12..]),
    }
}

/// The numbers before a record's octets, in the byte order of a capture.
#[tactic(auto, unfolding(crate::specs::RecordText::record_header_in))]
fn header_in(order: Order, text: &[u8]) -> RecordHeader
    requires { 16 ≤ length text.now }
    ensures { result ≡ record_header_in order text.now }
{
    match order {
        Order::Big => read_header::<BigEndian>(text),
        Order::Little => read_header::<LittleEndian>(text),
    }
}

/// The header that the first 16 octets of a text are, whatever stands behind it. `TooLarge`: the record claims more
/// than 262,144 octets. `BadFraction`: it doesn't, but its fraction is a second or more.
#[tactic(auto, unfolding(crate::specs::Next::readable))]
pub fn open_record(style: Style, text: &[u8]) -> Result<RecordHeader, RecordFault>
    requires { 16 ≤ length text.now }
    ensures value { result ≡ readable style (record_header_in style.order text.now) }
    ensures limits { IfOk result (IsReadable style) }
{
    let header = header_in(style.order, text);
    if header.captured as usize > LONGEST {
        return Err(RecordFault::TooLarge);
    }
    if header.fraction >= style.precision.fractions() {
        return Err(RecordFault::BadFraction);
    }
    Ok(header)
}

/// What comes next in a text of records.
#[tactic(auto, unfolding(crate::specs::Next::next_of))]
pub fn next_in<'a>(style: Style, text: &'a [u8]) -> Next<'a>
    ensures next { next_seen result ≡ next_of style text.now }
    ensures limits { FoundIsWithinLimits result }
{
    if text.is_empty() {
        return Next::Whole;
    }
    if text.len() < RECORD_HEADER_LENGTH {
        return Next::Cut;
    }
    let header = match open_record(style, text) {
        Ok(header) => header,
        Err(fault) => return Next::Faulty(fault),
    };
    let end = RECORD_HEADER_LENGTH + header.captured as usize;
    if text.len() < end {
        return Next::Cut;
    }
    let record = Record {
        moment: header.moment(style.precision),
        original: header.original,
        octets: &text[RECORD_HEADER_LENGTH..end],
    };
    Next::Another(record, &text[end..])
}
