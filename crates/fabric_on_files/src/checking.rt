//! Who reaches whom.
use crate::reading::read_members;
use crate::telling::{Told, tell_networks};
use crate::titles::{put_count, see_names};
use fabric_grid::put_few;
use program_files::{Failure, print_text};
use std::alloc::{AllocError, Global};
use std::rt::Files;

/// Prints who reaches whom by the settings in these files, one for each endpoint, and who doesn't and why. Where one of them
/// is refused, two have one name, or there are more than 1,024, nothing is told.
#[inline(never)]
pub fn check_fabric<'a, R: Files + AllocGlobal + Print>(
    rt: &R,
    files: &[&'a str],
) -> Result<(), Failure<'a>> {
    if let Err(failure) = see_names(files) {
        return Err(failure);
    }
    let members = match read_members(rt, files) {
        Ok(members) => members,
        Err(failure) => return Err(failure),
    };
    let told = tell_networks(rt.alloc(), files, members)?;
    let text = text_of(rt.alloc(), told.as_slice(), files.len())?;
    print_text(rt, text.as_slice())?;
    if told.iter().all(|told| told.is_whole()) {
        Ok(())
    } else {
        Err(Failure::Unreached)
    }
}

/// What is told of all networks of so many leaves, those first in which not all reach all.
fn text_of(alloc: Global, told: &[Told], leaves: usize) -> Result<Vec<u8>, AllocError> {
    let mut text = Vec::new(alloc);
    put_told(alloc, &mut text, told, false)?;
    put_told(alloc, &mut text, told, true)?;
    put_count(alloc, &mut text, leaves, "leaf", "leaves")?;
    text.extend_from_slice(b", ")?;
    let mut networks = 0_usize;
    for one in told {
        networks = networks.saturating_add(one.titles.len());
    }
    put_count(alloc, &mut text, networks, "network", "networks")?;
    text.push(b'\n')?;
    Ok(text)
}

/// Puts what is told of the networks in which all reach all, or of the others.
fn put_told(
    alloc: Global,
    text: &mut Vec<u8>,
    told: &[Told],
    are_whole: bool,
) -> Result<(), AllocError> {
    for one in told {
        if one.is_whole() != are_whole {
            continue;
        }
        let mut titles = Vec::with_capacity(alloc, one.titles.len())?;
        for title in &one.titles {
            titles.push(title.as_slice())?;
        }
        put_few(text, titles.as_slice())?;
        text.extend_from_slice(b": ")?;
        text.extend_from_slice(one.text.as_slice())?;
    }
    Ok(())
}
