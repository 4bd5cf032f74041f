//! Faults as they are printed.
use config_text::{Key, SettingsFault};
use std::alloc::{AllocError, Global};
use std::test::Fail;

/// Whether a fault is printed so.
fn is_printed(alloc: Global, fault: SettingsFault, wanted: &str) -> Result<bool, AllocError> {
    Ok(fault.to_string(alloc)?.as_str() == wanted)
}

#[test]
fn faults_print_their_names(rt: HostRuntime) -> Result<(), Fail> {
    let alloc = rt.alloc();
    assert!(rt; is_printed(alloc, SettingsFault::NotToml, "NotToml")?);
    assert!(rt; is_printed(alloc, SettingsFault::OutOfMemory, "OutOfMemory")?);
    let fault = SettingsFault::BadValue(Key::of("", "*"));
    assert!(rt; is_printed(alloc, fault, "BadValue *")?);
    Ok(())
}

#[test]
fn faults_print_their_keys(rt: HostRuntime) -> Result<(), Fail> {
    let alloc = rt.alloc();
    let fault = SettingsFault::Missing(Key::of("segment.1.", "vni"));
    assert!(rt; is_printed(alloc, fault, "Missing segment.1.vni")?);
    let fault = SettingsFault::TwoSegments(Key::numbered("segment", 256));
    assert!(rt; is_printed(alloc, fault, "TwoSegments segment.256")?);
    let fault = SettingsFault::NotRising(Key::numbered("change", 10000));
    assert!(rt; is_printed(alloc, fault, "NotRising change.10000")?);
    let fault = SettingsFault::OverLimit(Key::of("segment.256.tunnel.2.", "group"));
    assert!(rt; is_printed(alloc, fault, "OverLimit segment.256.tunnel.2.group")?);
    Ok(())
}
