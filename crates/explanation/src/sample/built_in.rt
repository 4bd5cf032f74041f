//! A run on a built-in sample.
ghost use Rattle.std.specs.Prelude.{◌≡◌, ℕ, List, [], Vec, map, IfOk, IsOkUnless};
ghost use Rattle.std.specs.declared.alloc.Global.{Global as GlobalAlloc};
ghost use Rattle.overlay_config.specs.Change.{changes_in};
ghost use Rattle.overlay_config.specs.Settings.{settings_in};
ghost use Rattle.pcap.specs.Written.{written_header};
ghost use Rattle.capture_run.specs.Run.{run};
ghost use Rattle.capture_run.specs.declared.fault.RunFault.TheVariants.{OutOfMemory};
ghost use Rattle.explanation.specs.Explanation.{Gives as GivesText};
ghost use Rattle.explanation.specs.Given.{decisions_of};
ghost use Rattle.explanation.specs.Sample.{capture_of, captures, settings_text};

use capture_run::{RunFault, run_bytes};
use pcap::text::{put_header, put_record};
use std::alloc::{AllocError, Global};

/// The settings: a learning bridge of three ports without remotes.
const SETTINGS: &str = r#"version = 1
[underlay]
mac = "02:00:00:00:aa:01"
next_hop = "02:00:00:00:aa:fe"
ip4 = "192.0.2.1"
ip6 = "2001:db8::1"
[[port]]
pvid = 10
[[port]]
pvid = 10
[[port]]
pvid = 10
[[segment]]
vid = 10
vni = 5000
tunnel = "vxlan"
untagged = [1, 2, 3]
tagged = []
flood = []
"#;

/// The MAC address of everybody.
const ALL: [u8; 6] = [0xFF; 6];

/// The MAC address of one station, and that of another.
const FIRST_STATION: [u8; 6] = [2, 0, 0, 0, 0, 1];

const SECOND_STATION: [u8; 6] = [2, 0, 0, 0, 0, 2];

const ARP: [u8; 2] = [0x08, 0x06];

const IP4: [u8; 2] = [0x08, 0x00];

const SECOND_IN_NANOSECONDS: u64 = 1_000_000_000;

/// A frame of 60 octets, all zero behind its type, and the second at which it comes.
#[derive(Clone, Copy)]
struct Passing {
    second: u8,
    dst: [u8; 6],
    src: [u8; 6],
    kind: [u8; 2],
}

/// What comes at port 1: the first station asks everybody, and later sends to the second.
const AT_FIRST: [Passing; 2] = [
    Passing {
        second: 1,
        dst: ALL,
        src: FIRST_STATION,
        kind: ARP,
    },
    Passing {
        second: 3,
        dst: SECOND_STATION,
        src: FIRST_STATION,
        kind: IP4,
    },
];

/// What comes at port 2: the second station answers, and later sends to itself.
const AT_SECOND: [Passing; 2] = [
    Passing {
        second: 2,
        dst: FIRST_STATION,
        src: SECOND_STATION,
        kind: IP4,
    },
    Passing {
        second: 4,
        dst: SECOND_STATION,
        src: SECOND_STATION,
        kind: IP4,
    },
];

/// A capture of frames.
fn capture(alloc: Global, frames: &[Passing]) -> Result<Vec<u8>, AllocError>
    ensures { IfOk result (λ capture. capture.items ≡ capture_of frames.now) }
{
    let mut capture = Vec::new(alloc);
    put_header(&mut capture)?;
    for frame in frames {
        let moment = u64::from(frame.second) * SECOND_IN_NANOSECONDS;
        put_record(
            &mut capture,
            moment,
            &frame.dst,
            &frame.src,
            &frame.kind,
            &[0; 46],
        )?;
    }
    Ok(capture)
}

/// The captures of the three ports.
fn captures(alloc: Global) -> Result<Vec<Vec<u8>>, AllocError>
    ensures { IfOk result (λ ports. map (λ v. v.items) ports.items ≡ captures) }
{
    let mut ports = Vec::with_capacity(alloc, 3)?;
    ports.push(capture(alloc, &AT_FIRST)?)?;
    ports.push(capture(alloc, &AT_SECOND)?)?;
    ports.push(capture(alloc, &[])?)?;
    Ok(ports)
}

/// The decision lines of a run on the sample: four frames among three local ports.
///
/// `OutOfMemory` comes only where memory was refused, and no other fault comes.
pub fn sample(alloc: Global) -> Result<Vec<u8>, RunFault>
    ensures lines { (ports : List (Vec ℕ GlobalAlloc)) → map (λ v. v.items) ports ≡ captures
        → GivesText result (decisions_of (run (settings_in settings_text) (changes_in []) ports written_header)) }
    ensures accepted { IsOkUnless result OutOfMemory }
{
    let ports = captures(alloc)?;
    let underlay = capture(alloc, &[])?;
    let outputs = run_bytes(
        alloc,
        SETTINGS.as_bytes(),
        "".as_bytes(),
        ports.as_slice(),
        underlay.as_slice(),
    )?;
    Ok(outputs.decisions)
}
