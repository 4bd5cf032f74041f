//! Asks an endpoint what it does with three frames: an example of the endpoint as a library, with no file and no capture.
//!
//! Use first: `main`, which reads settings, opens an [`Endpoint`] and hands it one frame after another. A crate that does the
//! same stands on `endpoint_core` and, for settings from text, `overlay_config`.
//!
//! It has no specs of its own: what each frame is answered is the contract of [`Endpoint::frame`].
//!
//! Proved: it is safe and ends. What it prints isn't proved.
#![tactic(auto)]

use endpoint_core::{Endpoint, result_text};
use overlay_config::settings_of;
use std::alloc::Global;

/// Two local ports in one segment, and one peer.
const SETTINGS: &str = r#"
version = 1

[underlay]
mac = "02:00:00:00:aa:01"
next_hop = "02:00:00:00:aa:fe"
ip4 = "192.0.2.1"

[[port]]
pvid = 10

[[port]]
pvid = 10

[[segment]]
vid = 10
vni = 5000
tunnel = "vxlan"
untagged = [1, 2]
flood = ["192.0.2.2"]
"#;

/// What comes in: the second, the port, and the last octets of destination and source. 0xFF is everybody.
const FRAMES: [(u64, u8, u8, u8); 3] = [(1, 1, 0xFF, 1), (2, 2, 1, 2), (3, 2, 2, 1)];

/// A frame of 60 octets without a body, between stations that are told by their last octets.
fn frame_of(destination: u8, source: u8) -> [u8; 60] {
    let mut octets = [0; 60];
    match destination {
        0xFF => octets[..6].fill(0xFF),
        _ => {
            octets[0] = 0x02;
            octets[5] = destination;
        }
    }
    octets[6] = 0x02;
    octets[11] = source;
    octets[12] = 0x08;
    octets
}

/// Hands a frame to the endpoint, and prints what is decided of it. Time never goes back, and there is no port 0.
fn ask<R: AllocGlobal + Print>(
    rt: &R,
    endpoint: &mut Endpoint,
    second: u64,
    port: u8,
    octets: &[u8],
) -> anyhow::Result<()> {
    let now = endpoint.now().max(second.saturating_mul(1_000_000_000));
    if port == 0 || port > endpoint.ports() {
        return Ok(println!(rt; "no port {port}")?);
    }
    if !endpoint.has_few_outlets() {
        return Ok(println!(rt; "more outlets than a decision has room for")?);
    }
    let decision = endpoint.frame(now, port, 60, octets);
    let text = result_text(rt.alloc(), &decision)?;
    let text = String::from_utf8(text)?;
    println!(rt; "{now} p{port} {text}")?;
    for outcome in decision.outcomes() {
        if let Ok(emission) = &outcome.sent {
            let octets = emission.len();
            println!(rt; "  {octets} octets leave")?;
        }
    }
    Ok(())
}

fn main(rt: HostRuntime) -> anyhow::Result<()> {
    let alloc = rt.alloc();
    let settings = settings_of(alloc, SETTINGS.as_bytes())?;
    let mut endpoint = Endpoint::open(alloc, settings)?;
    for (second, port, destination, source) in FRAMES {
        ask(
            &rt,
            &mut endpoint,
            second,
            port,
            &frame_of(destination, source),
        )?;
    }
    Ok(())
}
