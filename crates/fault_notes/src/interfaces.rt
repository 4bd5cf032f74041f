//! The interfaces of a capture, for who names one that isn't there, or none of several.
use command_line::capture_name;
use pcapng_input::Selection;
use program_files::{
    Described, MOST_INTERFACES, OneLine, Reach, file_of, interfaces_of_file, selection_of,
};
use std::alloc::{AllocError, Global};
use std::fmt::{self, Write};
use std::rt::Files;

/// How many interfaces are listed at most.
const MOST_LISTED: usize = 64;

/// An interface. It prints as its number, and its name where it has one that is a text.
#[derive(Clone, Copy)]
pub struct Listed<'i>(pub &'i Described);

impl<'i> fmt::Display for Listed<'i> {
    fn fmt<W: fmt::Write>(&self, f: &mut fmt::Formatter<W>) -> fmt::Result {
        let number = self.0.number;
        match name_of(self.0) {
            Some(name) => {
                let name = OneLine(name);
                write!(f, "{number} {name}")
            }
            None => write!(f, "{number}"),
        }
    }
}

/// The name of an interface, where it has one that is a text.
fn name_of(interface: &Described) -> Option<&str> {
    match &interface.name {
        Some(name) => str::from_utf8(name.as_slice()).ok(),
        None => None,
    }
}

/// Whether the packets of an interface are asked for by the name of a capture.
pub fn is_asked_for(name: &str, interface: &Described) -> bool {
    match selection_of(capture_name(name).interface) {
        Selection::All => true,
        Selection::Number(number) => interface.number == number,
        Selection::Name(asked) => match &interface.name {
            Some(name) => name.as_slice() == asked,
            None => false,
        },
    }
}

/// The line, begun by two spaces, that tells which interfaces a capture has, where none of them is asked for by its name. Nothing
/// of what is no regular file, or no pcapng.
pub fn missing_interface<R: Files + AllocGlobal>(
    rt: &R,
    name: &str,
) -> Result<Option<String>, AllocError> {
    let Some(asked) = capture_name(name).interface else {
        return Ok(None);
    };
    let path = file_of(name);
    // Most captures describe all interfaces in front of the first packet.
    let front = interfaces_of_file(rt, path, Reach::ToFirstPacket)?;
    if has_asked_for(name, front.as_slice()) {
        return Ok(None);
    }
    let all = interfaces_of_file(rt, path, Reach::ToEnd)?;
    if all.is_empty() || all.len() >= MOST_INTERFACES || has_asked_for(name, all.as_slice()) {
        return Ok(None);
    }
    let shown = OneLine(path);
    let asked = OneLine(asked);
    let listing = listing_of(rt.alloc(), all.as_slice())?;
    let told = format!(in rt.alloc(); "  {shown} has no interface {asked}, but {listing}\n")?;
    Ok(Some(told))
}

/// Whether one of these interfaces is asked for by the name of a capture.
fn has_asked_for(name: &str, interfaces: &[Described]) -> bool {
    interfaces
        .iter()
        .any(|interface| is_asked_for(name, interface))
}

/// The line that tells that a capture has several interfaces, whose packets are all taken. Nothing, where it has not, or one is
/// asked for.
pub fn several_interfaces<R: Files + AllocGlobal>(
    rt: &R,
    name: &str,
) -> Result<Option<String>, AllocError> {
    if capture_name(name).interface.is_some() {
        return Ok(None);
    }
    let path = file_of(name);
    let front = interfaces_of_file(rt, path, Reach::ToFirstPacket)?;
    if front.len() < 2 {
        return Ok(None);
    }
    let shown = OneLine(path);
    let listing = listing_of(rt.alloc(), front.as_slice())?;
    let told = format!(in rt.alloc();
        "  {shown} has several interfaces, all are taken: {listing}; {shown}#NAME takes one\n"
    )?;
    Ok(Some(told))
}

/// Interfaces by number and name, each once.
fn listing_of(alloc: Global, interfaces: &[Described]) -> Result<String, AllocError> {
    let mut listing = String::new(alloc);
    for (index, interface) in interfaces.iter().enumerate() {
        let is_repeated = interfaces
            .iter()
            .take(index)
            .any(|earlier| is_like(earlier, interface));
        if is_repeated {
            continue;
        }
        if index >= MOST_LISTED {
            listing.push_str(", ..")?;
            return Ok(listing);
        }
        if !listing.is_empty() {
            listing.push_str(", ")?;
        }
        let words = Listed(interface);
        write!(listing, "{words}")?;
    }
    Ok(listing)
}

/// Whether two interfaces, of two sections, have the same number and the same name.
fn is_like(one: &Described, other: &Described) -> bool {
    one.number == other.number && name_of(one) == name_of(other)
}
