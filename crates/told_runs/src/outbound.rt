//! Packets that captures tell as outbound: a run leaves them out.
use capture_survey::LeftOut;
use runs_on_files::Outbound;

/// Tells how many packets of each capture were left out, in the words of a check.
pub fn tell_outbound(rt: &impl Eprint, outbound: &[Outbound]) {
    for capture in outbound {
        let line = LeftOut {
            tap: capture.tap,
            packets: capture.packets,
        };
        let _ = eprint!(rt; "  {line}");
    }
}
