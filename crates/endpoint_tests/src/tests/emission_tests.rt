//! What an emission is before anything is put into it.
use encapsulate::Emission;

#[test]
fn nothing_leaves_by_default(rt: HostRuntime) {
    assert!(rt; Emission::default().len() == 0);
}
