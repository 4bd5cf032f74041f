//! What the captures of a run tell as outbound.
use crate::run_captures::RunCaptures;
use std::alloc::{AllocError, Global};
use std::io::Read;
use text_calls::tap_of;
use timeline::Tap;

/// How many packets of a capture were left out, since the capture tells them as outbound.
#[derive(Clone, Copy, Debug)]
pub struct Outbound {
    pub tap: Tap,
    /// At least one.
    pub packets: u64,
}

/// The captures that have outbound packets, ports rising and the underlay last: of what was read of each.
pub(crate) fn outbound_of<F: Read + Drop, I: Read + Drop>(
    alloc: Global,
    captures: &RunCaptures<'_, F, I>,
) -> Result<Vec<Outbound>, AllocError> {
    let mut outbound = Vec::new(alloc);
    for (index, capture) in captures.ports.as_slice().iter().enumerate() {
        let packets = capture.input().input().left_out();
        put(&mut outbound, tap_of(index), packets)?;
    }
    let packets = captures.underlay.input().input().left_out();
    put(&mut outbound, Tap::Underlay, packets)?;
    Ok(outbound)
}

/// Puts a capture with so many outbound packets behind others, where it has any.
fn put(outbound: &mut Vec<Outbound>, tap: Tap, packets: u64) -> Result<(), AllocError> {
    if packets > 0 {
        outbound.push(Outbound { tap, packets })?;
    }
    Ok(())
}
