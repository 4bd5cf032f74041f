//! The settings of many endpoints, read one after another.
use capture_run::of_settings;
use config_text::SettingsFault;
use fabric_ways::{Member, add_leaf};
use overlay_config::settings_of;
use program_files::{Failure, LeafFailure, read_file};
use std::alloc::AllocError;
use std::rt::Files;

/// The segments of all leaves, whose settings are in these files.
pub fn read_members<'a, R: Files + AllocGlobal>(
    rt: &R,
    files: &[&'a str],
) -> Result<Vec<Member>, Failure<'a>> {
    let mut members = Vec::new(rt.alloc());
    let mut leaf = 0_u16;
    for file in files {
        if let Err(failure) = read_leaf(rt, *file, leaf, &mut members) {
            return Err(failure);
        }
        leaf = leaf.saturating_add(1);
    }
    Ok(members)
}

/// Puts the segments of the leaf of this number, whose settings are in a file, behind others.
fn read_leaf<'a, R: Files + AllocGlobal>(
    rt: &R,
    file: &'a str,
    leaf: u16,
    members: &mut Vec<Member>,
) -> Result<(), Failure<'a>> {
    let text = match read_file(rt, file) {
        Ok(text) => text,
        Err(failure) => return Err(failure),
    };
    match settings_of(rt.alloc(), text.as_slice()) {
        Ok(settings) => match add_leaf(rt.alloc(), members, leaf, settings) {
            Ok(()) => Ok(()),
            Err(error) => Err(Failure::from(error)),
        },
        Err(SettingsFault::OutOfMemory) => Err(Failure::from(AllocError)),
        Err(fault) => Err(Failure::Leaf(file, LeafFailure::Refused(of_settings(fault)))),
    }
}
