//! Captures in the classic format (pcap-savefile(5)), octet for octet.
//!
//! A global header is 24 octets: the magic number 4, major version 2, minor version 2, zone 4, accuracy 4, snapshot length
//! 4, link type 4. A record's header is 16: seconds 4, fraction 4, captured length 4, original length 4; the captured
//! octets follow. Numbers are in the byte order of the magic number, which also tells the fraction's unit:
//! A1B2C3D4 microseconds, A1B23C4D nanoseconds.

/// A global header: big-endian, microseconds, Ethernet (link type 1).
pub const BIG_MICRO: &[u8] = b"\xA1\xB2\xC3\xD4\0\x02\0\x04\0\0\0\0\0\0\0\0\0\0\xFF\xFF\0\0\0\x01";

/// The same in nanoseconds.
pub const BIG_NANO: &[u8] = b"\xA1\xB2\x3C\x4D\0\x02\0\x04\0\0\0\0\0\0\0\0\0\0\xFF\xFF\0\0\0\x01";

/// The same in microseconds, of raw IP (link type 101).
pub const BIG_RAW_IP: &[u8] = b"\xA1\xB2\xC3\xD4\0\x02\0\x04\0\0\0\0\0\0\0\0\0\0\xFF\xFF\0\0\0\x65";

/// A global header: little-endian, microseconds, Ethernet.
pub const LITTLE_MICRO: &[u8] =
    b"\xD4\xC3\xB2\xA1\x02\0\x04\0\0\0\0\0\0\0\0\0\xFF\xFF\0\0\x01\0\0\0";

/// The same in nanoseconds, with the snapshot length 262,144: a capture without records, as `tep` writes it.
pub const LITTLE_NANO: &[u8] = b"\x4D\x3C\xB2\xA1\x02\0\x04\0\0\0\0\0\0\0\0\0\0\0\x04\0\x01\0\0\0";

/// That header, and a record at 1 s: a frame of 14 octets from 02-00-00-00-00-01 to everybody, of type 0806.
pub const ONE_FRAME: &[u8] = b"\x4D\x3C\xB2\xA1\x02\0\x04\0\0\0\0\0\0\0\0\0\0\0\x04\0\x01\0\0\0\
\x01\0\0\0\0\0\0\0\x0E\0\0\0\x0E\0\0\0\xFF\xFF\xFF\xFF\xFF\xFF\x02\0\0\0\0\x01\x08\x06";

/// That header, and two records: at 1 s and 5 ns octets 7, 8 and 9, at 2 s octet 4.
pub const TWO_RECORDS: &[u8] = b"\x4D\x3C\xB2\xA1\x02\0\x04\0\0\0\0\0\0\0\0\0\0\0\x04\0\x01\0\0\0\
\x01\0\0\0\x05\0\0\0\x03\0\0\0\x03\0\0\0\x07\x08\x09\
\x02\0\0\0\0\0\0\0\x01\0\0\0\x01\0\0\0\x04";

/// A big-endian record of two octets, of three: second 1, fraction 500,000.
pub const BIG_RECORD: &[u8] = b"\0\0\0\x01\0\x07\xA1\x20\0\0\0\x02\0\0\0\x03\x07\x08";

/// The same, little-endian.
pub const LITTLE_RECORD: &[u8] = b"\x01\0\0\0\x20\xA1\x07\0\x02\0\0\0\x03\0\0\0\x07\x08";
