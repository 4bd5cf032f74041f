//! The global header of a capture.
ghost use Rattle.std.specs.Prelude.{◌≡◌, ◌≤◌, length, OnOk};
ghost use Rattle.pcap.specs.Header.{header_by, header_in, precision_by, style_by_magic, style_of};

use crate::text::style::{Order, Precision, Style};
use byteorder::{BigEndian, ByteOrder, LittleEndian};
use thiserror::Error;

/// The octets of a global header.
pub const HEADER_LENGTH: usize = 24;

/// The link type of Ethernet, the one that is read and written.
const ETHERNET: u32 = 1;

/// Why a capture isn't read.
#[derive(Clone, Copy, Debug, PartialEq, Eq, Error)]
pub enum CaptureFault {
    /// It has fewer than 24 octets, another magic number or another version than 2.4.
    #[error("NotPcap")]
    NotPcap,
    /// Its link type isn't 1, Ethernet.
    #[error("BadLink")]
    BadLink,
}

/// What a global header says beside its magic number. The time zone, the accuracy and the snapshot length are ignored.
#[derive(Clone, Copy)]
pub struct Header {
    pub major: u16,
    pub minor: u16,
    pub link: u32,
}

/// The numbers of a global header, in a byte order.
fn read_header<B: ByteOrder>(text: &[u8]) -> Header
    requires { 24 ≤ length text.now }
    ensures { result ≡ header_by B.number_of text.now }
{
    Header {
        major: B::read_u16(&text[4..]),
        minor: B::read_u16(&text[6..]),
        link: B::read_u32(&text[20..]),
    }
}

/// What fractions count in a capture with this magic number, if it is one.
fn precision(magic: u32) -> Option<Precision>
    ensures { result ≡ precision_by magic }
{
    match magic {
        0xA1B2_C3D4 => Some(Precision::Micro),
        0xA1B2_3C4D => Some(Precision::Nano),
        _ => None,
    }
}

/// The style whose magic number stands in front, in its own order.
#[tactic(auto, unfolding(crate::specs::Header::style_by_magic))]
fn style_by(text: &[u8]) -> Option<Style>
    requires { 24 ≤ length text.now }
    ensures { result ≡ style_by_magic text.now }
{
    if let Some(precision) = precision(BigEndian::read_u32(text)) {
        return Some(Style {
            order: Order::Big,
            precision,
        });
    }
    if let Some(precision) = precision(LittleEndian::read_u32(text)) {
        return Some(Style {
            order: Order::Little,
            precision,
        });
    }
    None
}

/// The numbers of a global header, in the byte order of a capture.
#[tactic(auto, unfolding(crate::specs::Header::header_in))]
fn header_in(order: Order, text: &[u8]) -> Header
    requires { 24 ≤ length text.now }
    ensures { result ≡ header_in order text.now }
{
    match order {
        Order::Big => read_header::<BigEndian>(text),
        Order::Little => read_header::<LittleEndian>(text),
    }
}

/// How a capture writes its numbers. `NotPcap`: the text has fewer than 24 octets, another magic number or another
/// version than 2.4. `BadLink`: it has none of these, and its link type isn't 1, Ethernet.
#[tactic(auto, unfolding(crate::specs::Header::style_of))]
pub fn open_header(text: &[u8]) -> Result<Style, CaptureFault>
    ensures style { result ≡ style_of text.now }
    ensures long { OnOk result (24 ≤ length text.now) }
{
    if text.len() < HEADER_LENGTH {
        return Err(CaptureFault::NotPcap);
    }
    let Some(style) = style_by(text) else {
        return Err(CaptureFault::NotPcap);
    };
    let header = header_in(style.order, text);
    if header.major != 2 || header.minor != 4 {
        return Err(CaptureFault::NotPcap);
    }
    if header.link != ETHERNET {
        return Err(CaptureFault::BadLink);
    }
    Ok(style)
}
