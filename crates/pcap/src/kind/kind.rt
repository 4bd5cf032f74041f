//! What a file is.
ghost use Rattle.std.specs.Prelude.{◌≡◌, Some};
ghost use Rattle.pcap.specs.Kind.{are_erf_lengths, is_erf, is_erf_type, is_pcap, is_printable, is_text, kind_of, kind_words};

use std::fmt;

/// What a file is, by its first octets. It prints as a sentence without its full stop, which has the command that makes
/// a capture of it, where there is one.
///
/// ERF has no mark that its files begin with, so it is told by the fields of its first record.
#[derive(Clone, Copy, Debug, PartialEq, Eq)]
pub enum FileKind {
    /// It has no octets.
    Empty,
    /// It has the magic number of a classic capture (pcap-savefile(5)), in either byte order.
    Pcap,
    /// It has the block type of a pcapng capture (draft-ietf-opsawg-pcapng, 4.1).
    Pcapng,
    /// Compressed with gzip (RFC 1952, 2.3.1).
    Gzip,
    /// Compressed with Zstandard (RFC 8878, 3.1.1).
    Zstd,
    /// A snoop capture (RFC 1761).
    Snoop,
    /// Endace's ERF: it begins as the record of an Ethernet frame does, of 16 octets or more.
    Erf,
    /// A text: all of its first octets are printable ASCII, tabs or ends of lines.
    Text,
    /// None of these.
    Other,
}

impl FileKind {
    /// What a file is that begins with these octets, 24 or, in a shorter file, all.
    pub fn of(head: &[u8]) -> FileKind
        ensures { result ≡ kind_of head.now }
    {
        if head.is_empty() {
            return FileKind::Empty;
        }
        if is_pcap(head) {
            return FileKind::Pcap;
        }
        if head.starts_with(b"\x0A\x0D\x0D\x0A") {
            return FileKind::Pcapng;
        }
        if head.starts_with(b"\x1F\x8B") {
            return FileKind::Gzip;
        }
        if head.starts_with(b"\x28\xB5\x2F\xFD") {
            return FileKind::Zstd;
        }
        if head.starts_with(b"snoop\0\0\0") {
            return FileKind::Snoop;
        }
        if is_erf(head) {
            return FileKind::Erf;
        }
        if is_text(head) {
            return FileKind::Text;
        }
        FileKind::Other
    }
}

/// Whether octets begin with a magic number of classic pcap: of microseconds or nanoseconds, in either byte order.
fn is_pcap(octets: &[u8]) -> bool
    ensures { result ≡ is_pcap octets.now }
{
    octets.starts_with(b"\xA1\xB2\xC3\xD4")
        || octets.starts_with(b"\xD4\xC3\xB2\xA1")
        || octets.starts_with(b"\xA1\xB2\x3C\x4D")
        || octets.starts_with(b"\x4D\x3C\xB2\xA1")
}

/// Whether octets begin as the record of an Ethernet frame does in ERF: 8 octets of time stamp, type, flags, the record's
/// length (2), 2 octets of losses or color, the frame's length (2), numbers with the high octet first.
fn is_erf(octets: &[u8]) -> bool
    ensures { result ≡ is_erf octets.now }
{
    octets.len() >= 16
        && is_erf_type(octets[8] % 128)
        && are_erf_lengths(
            u16::from_be_bytes([octets[10], octets[11]]),
            u16::from_be_bytes([octets[14], octets[15]]),
        )
}

/// Whether a record of this type, without the bit of extension headers, holds an Ethernet frame: plain, colored, with a
/// steering color, with a hash.
fn is_erf_type(number: u8) -> bool
    ensures { result ≡ is_erf_type number }
{
    number == 2 || number == 11 || number == 16 || number == 20
}

/// Whether a record can be so long that holds a frame of this length: it has a head of 16 octets and 2 of padding, and at
/// most the whole frame, 7 octets of alignment and seven extension headers of 8 octets more.
fn are_erf_lengths(whole: u16, frame: u16) -> bool
    ensures { result ≡ are_erf_lengths whole frame }
{
    whole >= 18 && frame >= 1 && u32::from(whole) <= u32::from(frame) + 81
}

/// Whether all octets are those of a text.
fn is_text(octets: &[u8]) -> bool
    ensures { result ≡ is_text octets.now }
{
    octets.iter().all(|octet| is_printable(*octet))
}

/// Whether a text can have this octet: printable ASCII, a tab, a line feed or a carriage return.
fn is_printable(octet: u8) -> bool
    ensures { result ≡ is_printable octet }
{
    (octet >= 0x20 && octet <= 0x7E) || octet == b'\t' || octet == b'\n' || octet == b'\r'
}

impl fmt::Display for FileKind {
    ghost output = { λ kind. Some (kind_words kind) };

    fn fmt<W: fmt::Write>(&self, f: &mut fmt::Formatter<W>) -> fmt::Result {
        match self {
            FileKind::Empty => write!(f, "the file is empty"),
            FileKind::Pcap => {
                write!(
                    f,
                    "it begins as classic pcap, of which whole headers of version 2.4 are read"
                )
            }
            FileKind::Pcapng => write!(f, "it is a pcapng capture"),
            FileKind::Gzip => {
                write!(
                    f,
                    "it is compressed with gzip: editcap -F nsecpcap IN OUT converts it"
                )
            }
            FileKind::Zstd => {
                write!(
                    f,
                    "it is compressed with zstd: editcap -F nsecpcap IN OUT converts it"
                )
            }
            FileKind::Snoop => {
                write!(
                    f,
                    "it is a snoop capture: editcap -F nsecpcap IN OUT converts it"
                )
            }
            FileKind::Erf => {
                write!(
                    f,
                    "it begins as an ERF capture: editcap -F nsecpcap IN OUT converts it"
                )
            }
            FileKind::Text => write!(f, "it is a text"),
            FileKind::Other => {
                write!(
                    f,
                    "its first octets are of no format that is known here: editcap -F nsecpcap IN OUT converts what Wireshark reads"
                )
            }
        }
    }
}
