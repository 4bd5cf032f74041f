//! Writing a capture, little-endian and in nanoseconds.
//!
//! [`put_record`] asks for the memory of the whole record first, so that a refusal leaves even the capacity as it was.
ghost use Rattle.std.specs.Prelude.{◌≡◌, ◌+◌, ◌<◌, ◌≤◌, ◌++◌, length, vec_len, vec_capacity, OnOk, OnErr};
ghost use Rattle.std.specs.List.{flat_map};
ghost use Rattle.pcap.specs.Record.{last_moment, longest};
ghost use Rattle.pcap.specs.Written.{record_header_of, whole_frame, written_header, written_record};

use crate::text::header::HEADER_LENGTH;
use crate::text::record::RECORD_HEADER_LENGTH;
use crate::text::style::SECOND;
use byteorder::{ByteOrder, LittleEndian};
use std::alloc::AllocError;

/// The global header: nanoseconds, version 2.4, time zone 0, accuracy 0, snapshot length 262,144, link type Ethernet.
const HEADER: [u8; HEADER_LENGTH] = [
    0x4D, 0x3C, 0xB2, 0xA1, 2, 0, 4, 0, 0, 0, 0, 0, 0, 0, 0, 0, 0, 0, 4, 0, 1, 0, 0, 0,
];

/// The global header that a capture is written with.
pub fn global_header() -> [u8; HEADER_LENGTH]
    ensures { result ≡ written_header }
{
    HEADER
}

/// Adds the global header. Where memory is refused nothing changes; none is asked for where there is room.
pub fn put_header(out: &mut Vec<u8>) -> Result<(), AllocError>
    ensures ok { OnOk result (out.new.items ≡ out.old.items ++ written_header) }
    ensures err { OnErr result (out.new.items ≡ out.old.items) }
    ensures full { OnErr result (vec_capacity out.old < vec_len out.old + 24) }
{
    out.extend_from_slice(&global_header())
}

/// What stands before the octets of a record, by its moment, how many octets it has, and how many the frame had. `moment` is
/// in nanoseconds, at most 4,294,967,295,999,999,999.
#[inline]
pub fn record_head(moment: u64, captured: u32, original: u32) -> [u8; RECORD_HEADER_LENGTH]
    requires { moment ≤ last_moment }
    ensures { result ≡ record_header_of moment captured original }
{
    let mut header = [0; RECORD_HEADER_LENGTH];
    LittleEndian::write_u32(&mut header, (moment / SECOND) as u32);
    LittleEndian::write_u32(&mut header[4..], (moment % SECOND) as u32);
    LittleEndian::write_u32(&mut header[8..], captured);
    LittleEndian::write_u32(&mut header[12..], original);
    header
}

/// The same of a record that holds its whole frame, of `size` octets.
pub fn record_header(moment: u64, size: u32) -> [u8; RECORD_HEADER_LENGTH]
    requires { moment ≤ last_moment }
    ensures { result ≡ record_header_of moment size size }
{
    record_head(moment, size, size)
}

/// Adds octets for which there is room.
fn put(out: &mut Vec<u8>, octets: &[u8])
    requires { vec_len out.old + length octets.now ≤ vec_capacity out.old }
    ensures items { out.new.items ≡ out.old.items ++ octets.now }
    ensures capacity { vec_capacity out.old ≤ vec_capacity out.new }
{
    match out.extend_from_slice(octets) {
        Ok(()) => {}
        Err(_) => unreachable!(),
    }
}

/// Adds a record that holds a whole frame, the four slices side by side. Where memory is refused nothing changes; none is
/// asked for where there is room.
///
/// `moment` is in nanoseconds, at most 4,294,967,295,999,999,999; the slices together have at most 262,144 octets, and
/// any of them may be empty.
pub fn put_record(
    out: &mut Vec<u8>,
    moment: u64,
    head: &[u8],
    addresses: &[u8],
    tag: &[u8],
    body: &[u8],
) -> Result<(), AllocError>
    requires moment { moment ≤ last_moment }
    requires size { length head.now + length addresses.now + length tag.now + length body.now ≤ longest }
    ensures ok { OnOk result (out.new.items
        ≡ out.old.items ++ written_record (whole_frame moment (head.now ++ (addresses.now ++ (tag.now ++ body.now))))) }
    ensures err { OnErr result (out.new.items ≡ out.old.items) }
    ensures full { OnErr result (vec_capacity out.old
        < vec_len out.old + (16 + (length head.now + length addresses.now + length tag.now + length body.now))) }
{
    let length = head.len() + addresses.len() + tag.len() + body.len();
    out.reserve(RECORD_HEADER_LENGTH + length)?;
    put(out, &record_header(moment, length as u32));
    put(out, head);
    put(out, addresses);
    put(out, tag);
    put(out, body);
    Ok(())
}
