//! The interfaces that a pcapng capture describes, for who names one that isn't there.
use crate::file_causes::head_of_file;
use pcap::kind::FileKind;
use pcap::text::Order;
use std::alloc::{AllocError, Global};
use std::fs;
use std::io::{BufReader, Read};
use std::rt::Files;

/// How many octets of a file are read at once.
const BLOCK: usize = 32_768;

/// How many octets of an interface's description are looked at, at most. Those behind are passed over.
const MOST_OCTETS: usize = 4_096;

/// How many interfaces are told at most.
pub const MOST_INTERFACES: usize = 4_096;

/// The octets in front of a block's body.
const BLOCK_HEAD: usize = 8;

/// The octets of a block with an empty body.
const EMPTY_BLOCK: u32 = 12;

/// The type of a section header, the same in both byte orders.
const SECTION_HEADER: [u8; 4] = [0x0A, 0x0D, 0x0D, 0x0A];

/// The type of an interface description.
const INTERFACE_DESCRIPTION: u32 = 1;

/// The code of the option that names an interface.
const NAME: u16 = 2;

/// The octets in front of an interface's options, and those in front of an option's value.
const OPTIONS_AT: usize = 8;

const OPTION_HEAD: usize = 4;

/// How far a capture is looked through for interfaces.
#[derive(Clone, Copy, Debug, PartialEq, Eq)]
pub enum Reach {
    /// Up to the first packet.
    ToFirstPacket,
    /// To the end.
    ToEnd,
}

/// An interface as its section describes it.
#[derive(Drop)]
pub struct Described {
    /// Its number in its section, from 0.
    pub number: u32,
    /// Its option `if_name`, where it has one.
    pub name: Option<Vec<u8>>,
    /// Its link type.
    pub link: u16,
}

/// The interfaces that a pcapng capture describes, in order, as far as it can be read: those of all sections, at most
/// [`MOST_INTERFACES`]. None of what is no regular file, or no pcapng.
pub fn interfaces_of_file<R: Files + AllocGlobal>(
    rt: &R,
    path: &str,
    reach: Reach,
) -> Result<Vec<Described>, AllocError> {
    let described = Vec::new(rt.alloc());
    if !is_pcapng_file(rt, path) {
        return Ok(described);
    }
    let Ok(file) = fs::open(rt, path) else {
        return Ok(described);
    };
    let Ok(mut reader) = BufReader::with_capacity(rt.alloc(), BLOCK, file) else {
        return Err(AllocError);
    };
    collect(rt.alloc(), &mut reader, reach, described)
}

/// Whether a path leads to a regular file that begins as pcapng does.
fn is_pcapng_file<R: Files>(rt: &R, path: &str) -> bool {
    match head_of_file(rt, path) {
        Some(head) => FileKind::of(head.octets()) == FileKind::Pcapng,
        None => false,
    }
}

/// What comes next in a capture.
enum Coming {
    /// A section, whose numbers have this order.
    Section(Order),
    /// An interface's description, of which so many octets were read.
    Interface(usize),
    Packet,
    Other,
    /// The end, or what can't be read.
    Ends,
}

/// The interfaces that are told, and behind them those that a capture describes.
fn collect<I: Read>(
    alloc: Global,
    input: &mut I,
    reach: Reach,
    told: Vec<Described>,
) -> Result<Vec<Described>, AllocError> {
    let mut described = told;
    let mut body = [0; MOST_OCTETS];
    let mut order = None;
    let mut number = 0_u32;
    for _ in 0..u64::MAX {
        match next_block(input, order, &mut body) {
            Coming::Section(told) => {
                order = Some(told);
                number = 0;
            }
            Coming::Interface(length) => {
                let octets = body.get(..length).unwrap_or(&[]);
                described.push(described_by(alloc, order, number, octets)?)?;
                number = number.saturating_add(1);
                if described.len() >= MOST_INTERFACES {
                    return Ok(described);
                }
            }
            Coming::Packet if reach == Reach::ToFirstPacket => return Ok(described),
            Coming::Packet | Coming::Other => {}
            Coming::Ends => return Ok(described),
        }
    }
    Ok(described)
}

/// Takes the next block.
fn next_block<I: Read>(input: &mut I, order: Option<Order>, body: &mut [u8]) -> Coming {
    let mut head = [0; BLOCK_HEAD];
    if input.read_exact(&mut head).is_err() {
        return Coming::Ends;
    }
    if head.starts_with(&SECTION_HEADER) {
        return next_section(input, &head);
    }
    let Some(order) = order else {
        return Coming::Ends;
    };
    let kind = number4(order, &head, 0);
    let Some(rest) = number4(order, &head, 4).checked_sub(EMPTY_BLOCK) else {
        return Coming::Ends;
    };
    if kind == INTERFACE_DESCRIPTION {
        return next_interface(input, rest, body);
    }
    if !pass(input, u64::from(rest).saturating_add(4)) {
        return Coming::Ends;
    }
    match kind {
        2 | 3 | 6 => Coming::Packet,
        _ => Coming::Other,
    }
}

/// Takes the rest of a section's header.
fn next_section<I: Read>(input: &mut I, head: &[u8]) -> Coming {
    let mut magic = [0; 4];
    if input.read_exact(&mut magic).is_err() {
        return Coming::Ends;
    }
    let order = match magic {
        [0x1A, 0x2B, 0x3C, 0x4D] => Order::Big,
        [0x4D, 0x3C, 0x2B, 0x1A] => Order::Little,
        _ => return Coming::Ends,
    };
    match number4(order, head, 4).checked_sub(EMPTY_BLOCK) {
        Some(rest) if pass(input, u64::from(rest)) => Coming::Section(order),
        _ => Coming::Ends,
    }
}

/// Takes the body of an interface's description, of so many octets, and what stands behind it.
fn next_interface<I: Read>(input: &mut I, rest: u32, body: &mut [u8]) -> Coming {
    let length = (rest as usize).min(body.len());
    let Some(room) = body.get_mut(..length) else {
        return Coming::Ends;
    };
    if input.read_exact(room).is_err() {
        return Coming::Ends;
    }
    let behind = u64::from(rest)
        .saturating_sub(length as u64)
        .saturating_add(4);
    if pass(input, behind) {
        Coming::Interface(length)
    } else {
        Coming::Ends
    }
}

/// Passes over so many octets, and says whether they were there.
fn pass<I: Read>(input: &mut I, count: u64) -> bool {
    let mut chunk = [0; 4_096];
    let mut left = count;
    for _ in 0..u64::MAX {
        if left == 0 {
            return true;
        }
        let most = left.min(4_096) as usize;
        let Some(room) = chunk.get_mut(..most) else {
            return false;
        };
        if input.read_exact(room).is_err() {
            return false;
        }
        left = left.saturating_sub(most as u64);
    }
    false
}

/// The interface of this number that the body of a description tells.
fn described_by(
    alloc: Global,
    order: Option<Order>,
    number: u32,
    body: &[u8],
) -> Result<Described, AllocError> {
    let order = order.unwrap_or(Order::Little);
    let name = match name_in(order, body.get(OPTIONS_AT..).unwrap_or(&[])) {
        Some(octets) => {
            let mut name = Vec::new(alloc);
            name.extend_from_slice(octets)?;
            Some(name)
        }
        None => None,
    };
    Ok(Described {
        number,
        name,
        link: number2(order, body, 0),
    })
}

/// The value of the first option that names an interface.
fn name_in(order: Order, options: &[u8]) -> Option<&[u8]> {
    let mut rest = options;
    for _ in 0..options.len() {
        if rest.len() < OPTION_HEAD {
            return None;
        }
        let code = number2(order, rest, 0);
        let length = usize::from(number2(order, rest, 2));
        if code == 0 {
            return None;
        }
        if code == NAME {
            return rest.get(OPTION_HEAD..OPTION_HEAD + length);
        }
        rest = rest.get(OPTION_HEAD + (length + 3) / 4 * 4..)?;
    }
    None
}

/// The number in 2 octets, and 0 where there are fewer.
fn number2(order: Order, octets: &[u8], at: usize) -> u16 {
    match (octets.get(at), octets.get(at.saturating_add(1))) {
        (Some(first), Some(second)) => match order {
            Order::Big => u16::from_be_bytes([*first, *second]),
            Order::Little => u16::from_le_bytes([*first, *second]),
        },
        _ => 0,
    }
}

/// The number in 4 octets, and 0 where there are fewer.
fn number4(order: Order, octets: &[u8], at: usize) -> u32 {
    let front = u32::from(number2(order, octets, at));
    let back = u32::from(number2(order, octets, at.saturating_add(2)));
    match order {
        Order::Big => front * 65_536 + back,
        Order::Little => back * 65_536 + front,
    }
}
