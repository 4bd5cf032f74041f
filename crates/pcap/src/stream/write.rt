//! Whole texts to an output.
//!
//! An output without a block gets what stands before a record's body (its header, an outer head, addresses and tag, at most 102
//! octets) in one write and the body in another. Into a block all five are put side by side.
ghost use Rattle.std.specs.Prelude.{◌≡◌, ◌≤◌, ◌<◌, ◌+◌, ◌^◌, ◌++◌, OnErr, OnOk, length, take};
ghost use Rattle.std.specs.Io.KnownBytes.{Appends};
ghost use Rattle.pcap.specs.Record.{last_moment, longest};
ghost use Rattle.pcap.specs.Written.{whole_frame, written_record};
ghost use Rattle.pcap.specs.Counts.{GoesOnBy};
ghost use Rattle.pcap.specs.Sink.{AppendsPart, joined};

use crate::stream::fault::WriteFault;
use crate::stream::output::Output;
use crate::text::{RECORD_HEADER_LENGTH, record_header};

/// Writes some texts, one behind another.
fn write_parts<W: Output>(output: &mut W, parts: &[&[u8]]) -> Result<(), WriteFault>
    ensures ok { OnOk result (Appends (W.written output.old) (W.written output.new) (joined parts.now)) }
    ensures err { OnErr result (AppendsPart (W.written output.old) (W.written output.new) (joined parts.now)) }
    ensures quiet { OnOk result (W.failures output.new ≡ W.failures output.old) }
    ensures cause { OnErr result (GoesOnBy 1 (W.failures output.old) (W.failures output.new)) }
{
    for part in parts {
        let Ok(()) = output.write_all(*part) else {
            return Err(WriteFault);
        };
    }
    Ok(())
}

/// Writes five texts that lie in different places, one behind another, gathered where those before the last are short.
/// They share a lifetime, so that they can stand in one array.
#[cold]
#[inline(never)]
fn write_five<'p, W: Output>(
    output: &mut W,
    before: &'p [u8],
    head: &'p [u8],
    addresses: &'p [u8],
    tag: &'p [u8],
    body: &'p [u8],
) -> Result<(), WriteFault>
    requires { length before.now + length head.now + length addresses.now + length tag.now ≤ 16 + longest }
    ensures ok { OnOk result (Appends (W.written output.old) (W.written output.new)
        (before.entry.now ++ (head.entry.now ++ (addresses.entry.now ++ (tag.entry.now ++ body.entry.now))))) }
    ensures err { OnErr result (AppendsPart (W.written output.old) (W.written output.new)
        (before.entry.now ++ (head.entry.now ++ (addresses.entry.now ++ (tag.entry.now ++ body.entry.now))))) }
    ensures quiet { OnOk result (W.failures output.new ≡ W.failures output.old) }
    ensures cause { OnErr result (GoesOnBy 1 (W.failures output.old) (W.failures output.new)) }
{
    if before.len() + head.len() + addresses.len() + tag.len() > FRONT {
        return write_parts(output, &[before, head, addresses, tag, body]);
    }
    output.write_gathered(before, head, addresses, tag, body)
}

/// The octets that stand before a frame's body at most: a record's header, outer headers of 70, two addresses and a tag.
pub(crate) const FRONT: usize = 102;

/// Puts a text behind the first `at` octets of a room, and says where it ends.
#[inline(always)]
pub fn put_behind(room: &mut [u8], at: usize, text: &[u8]) -> usize
    requires { at + length text.now ≤ length room.old }
    ensures end { result ≡ at + length text.now }
    ensures text { take result room.new ≡ take at room.old ++ text.now }
{
    let end = at + text.len();
    room[at..end].copy_from_slice(text);
    end
}

/// The same of a text that mostly is empty.
#[inline(always)]
fn put_head(room: &mut [u8], at: usize, text: &[u8]) -> usize
    requires { at + length text.now ≤ length room.old }
    ensures end { result ≡ at + length text.now }
    ensures text { take result room.new ≡ take at room.old ++ text.now }
{
    if text.is_empty() {
        return at;
    }
    put_behind(room, at, text)
}

/// Overwrites a room of an array's length by the array.
#[inline(always)]
fn fill<const N: usize>(room: &mut [u8], octets: &[u8; N])
    requires { length room.old ≡ N }
    ensures { room.new ≡ octets.now }
{
    let Some(room) = room.as_mut_array::<N>() else {
        unreachable!()
    };
    *room = *octets;
}

/// The same as [`put_behind`], of an array.
#[inline(always)]
fn put_array<const N: usize>(room: &mut [u8], at: usize, octets: &[u8; N]) -> usize
    requires { at + N ≤ length room.old }
    ensures end { result ≡ at + N }
    ensures text { take result room.new ≡ take at room.old ++ octets.now }
{
    let end = at + N;
    fill(&mut room[at..end], octets);
    end
}

/// The same of a text that mostly has so many octets, at most 16.
#[inline(always)]
fn put_mostly<const N: usize>(room: &mut [u8], at: usize, text: &[u8]) -> usize
    requires few { N ≤ 16 }
    requires fits { at + length text.now ≤ length room.old }
    ensures end { result ≡ at + length text.now }
    ensures text { take result room.new ≡ take at room.old ++ text.now }
{
    match text.as_array::<N>() {
        Some(octets) => put_array(room, at, octets),
        None => put_behind(room, at, text),
    }
}

/// Puts four texts behind the first `at` octets of a room, one behind another, and says where they end. A record's header
/// has sixteen octets, two addresses have twelve, and a tag has four.
#[inline(always)]
pub(crate) fn put_four(
    room: &mut [u8],
    at: usize,
    before: &[u8],
    head: &[u8],
    addresses: &[u8],
    tag: &[u8],
) -> usize
    requires { at + (length before.now + length head.now + length addresses.now + length tag.now) ≤ length room.old }
    ensures end { result ≡ at + (length before.now + length head.now + length addresses.now + length tag.now) }
    ensures texts { take result room.new ≡ take at room.old ++ (before.now ++ (head.now ++ (addresses.now ++ tag.now))) }
{
    let before_end = put_mostly::<RECORD_HEADER_LENGTH>(room, at, before);
    let head_end = put_head(room, before_end, head);
    let addresses_end = put_mostly::<12>(room, head_end, addresses);
    if tag.is_empty() {
        return addresses_end;
    }
    put_mostly::<4>(room, addresses_end, tag)
}

/// Writes a record that holds a whole frame, the four slices side by side. It takes least where the addresses have twelve
/// octets and the front is short.
#[inline(always)]
pub fn write_record<W: Output>(
    output: &mut W,
    moment: u64,
    head: &[u8],
    addresses: &[u8],
    tag: &[u8],
    body: &[u8],
) -> Result<(), WriteFault>
    requires moment { moment ≤ last_moment }
    requires size { length head.now + length addresses.now + length tag.now + length body.now ≤ longest }
    ensures ok { OnOk result (Appends (W.written output.old) (W.written output.new)
        (written_record (whole_frame moment (head.now ++ (addresses.now ++ (tag.now ++ body.now)))))) }
    ensures err { OnErr result (AppendsPart (W.written output.old) (W.written output.new)
        (written_record (whole_frame moment (head.now ++ (addresses.now ++ (tag.now ++ body.now)))))) }
    ensures quiet { OnOk result (W.failures output.new ≡ W.failures output.old) }
    ensures cause { OnErr result (GoesOnBy 1 (W.failures output.old) (W.failures output.new)) }
{
    if let Some(pair) = addresses.as_array::<12>() {
        if RECORD_HEADER_LENGTH + head.len() + pair.len() + tag.len() <= FRONT {
            let size = (head.len() + pair.len() + tag.len() + body.len()) as u32;
            let before = &record_header(moment, size);
            return output.write_gathered(before, head, pair, tag, body);
        }
    }
    let size = (head.len() + addresses.len() + tag.len() + body.len()) as u32;
    write_five(
        output,
        &record_header(moment, size),
        head,
        addresses,
        tag,
        body,
    )
}
