//! What texts mean.
use crate::tests::change_texts::meanings;
use crate::tests::settings_texts::{
    Meant, first_version, one_tunnel, one_tunnel_before, second_version, third_version,
};
use overlay_config::{changes_of, migrate, settings_of};
use std::alloc::Global;
use std::process::Abort;
use std::test::Fail;

/// What settings mean, field by field.
fn settings_meaning(alloc: Global, text: &[u8]) -> Result<String, Fail> {
    let settings = settings_of(alloc, text)?;
    Ok(format!(in alloc; "{settings:?}")?)
}

/// What settings mean when they are migrated. They have to be migrated to themselves then.
fn migrated_meaning(alloc: Global, text: &[u8]) -> Result<String, Fail> {
    let once = migrate(alloc, text)?;
    let twice = migrate(alloc, once.as_slice())?;
    if twice.as_slice() != once.as_slice() {
        return Err(Fail::new("migrated settings are migrated again"));
    }
    settings_meaning(alloc, once.as_slice())
}

/// Checks what settings mean as they are, and migrated.
fn check_meanings(rt: &impl Abort, alloc: Global, settings: &[Meant]) -> Result<(), Fail> {
    for (text, wanted) in settings {
        let have = settings_meaning(alloc, text.as_bytes())?;
        assert_eq!(rt; have.as_str(), wanted.as_str());
        let migrated = migrated_meaning(alloc, text.as_bytes())?;
        assert_eq!(rt; migrated.as_str(), wanted.as_str());
    }
    Ok(())
}

#[test]
fn settings_of_version_1_are_read_field_by_field(rt: HostRuntime) -> Result<(), Fail> {
    let alloc = rt.alloc();
    check_meanings(&rt, alloc, &first_version(alloc)?)
}

#[test]
fn settings_of_version_2_are_read_field_by_field(rt: HostRuntime) -> Result<(), Fail> {
    let alloc = rt.alloc();
    check_meanings(&rt, alloc, &[second_version(alloc)?])
}

#[test]
fn settings_of_version_3_are_read_field_by_field(rt: HostRuntime) -> Result<(), Fail> {
    let alloc = rt.alloc();
    check_meanings(&rt, alloc, &[third_version(alloc)?])
}

#[test]
fn one_tunnel_means_what_it_meant_before(rt: HostRuntime) -> Result<(), Fail> {
    let alloc = rt.alloc();
    let have = settings_meaning(alloc, one_tunnel(alloc)?.as_bytes())?;
    let wanted = settings_meaning(alloc, one_tunnel_before(alloc)?.as_bytes())?;
    assert_eq!(rt; have.as_str(), wanted.as_str());
    Ok(())
}

/// What changes mean, a moment and a change on each line.
fn changes_meaning(alloc: Global, text: &[u8]) -> Result<String, Fail> {
    let mut told = String::new(alloc);
    for timed in &changes_of(alloc, text)? {
        told.push_str(&format!(in alloc; "{}: {:?}\n", timed.at, timed.change)?)?;
    }
    Ok(told)
}

#[test]
fn changes_of_each_kind_are_read(rt: HostRuntime) -> Result<(), Fail> {
    for (text, wanted) in meanings() {
        let have = changes_meaning(rt.alloc(), text.as_bytes())?;
        assert_eq!(rt; have.as_str(), *wanted);
    }
    Ok(())
}
