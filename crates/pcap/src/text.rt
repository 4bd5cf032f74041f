//! Captures in the classic pcap format, version 2.4 (pcap-savefile(5)), of Ethernet frames, read in place and written. What a
//! record holds isn't looked at, and no file is opened here.
//!
//! Use first: [`Capture::open`] reads the global header of a capture in memory, in either byte order and with fractions in
//! microseconds or nanoseconds, and its `next` hands out each [`Record`], whose octets are a slice of the capture.
//! [`put_header`] and [`put_record`] write a capture, little-endian and in nanoseconds. Who reads or writes piece by piece
//! finds the headers alone: [`open_header`] and [`open_record`] read them, [`global_header`] and [`record_header`] are those
//! that are written, and [`record_head`] is the latter where a record holds less than its frame had.
//!
//! Specs to read, in order: `specs/Style`, `specs/Header`, `specs/RecordText`, `specs/Capture`, `specs/Reading`, `specs/Next`,
//! `specs/Written`.
//!
//! Proved: a capture is opened as the header, records and rest that its text is, and as nothing else, and both faults of the
//! header come exactly where they are said to; `next` gives the records in turn, each a stated slice of the capture, then the
//! fault if there is one, then nothing. What is written is exactly the stated octets, or nothing where memory is refused, and
//! none is refused where there is room; it is read back whole ([`laws`]).
//!
//! Proved besides:
//! - A capture in either byte order, in microseconds or nanoseconds, is opened as the header, records and rest that its
//!   text is, and as nothing else. NotPcap and BadLink come exactly where they are said to: `Capture::open`,
//!   `laws::one_reading`.
//! - The records come in turn, each a stated slice of the capture, then the fault if there is one, then nothing:
//!   `next`, `laws::all_in_turn`, `laws::one_by_one`. A cut rest is told: `is_cut`.
//!
//! Why it is so: one definition of what comes next (`Next`) serves captures in memory, which are read here, and those that
//! [`crate::stream`] reads piece by piece.

mod capture;
mod header;
pub mod laws;
mod record;
mod style;
mod write;

pub use capture::Capture;
pub use header::{CaptureFault, HEADER_LENGTH, open_header};
pub use record::{LONGEST, RECORD_HEADER_LENGTH, Record, RecordFault, RecordHeader, open_record};
pub use style::{Order, Precision, Style};
pub use write::{global_header, put_header, put_record, record_head, record_header};
