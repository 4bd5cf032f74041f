//! How a frame at a local port comes to a segment, test by test.
ghost use Rattle.std.specs.Prelude.{◌≡◌, ◌≤◌, ◌++◌, length, OnOk};
ghost use Rattle.event_story.specs.Local.{local_tests, vid_at, segment_fact, local_fact, local_facts_of};

use crate::ether::{destination_fact, has_vid, header_fact, source_fact, tag_fact, vid_in};
use crate::fact::Fact;
use crate::refusal::{put, refusal_of, refuses};
use endpoint_core::{Arrival, segment_of};
use overlay::ports::PortSet;
use std::alloc::AllocError;
use wire::ether::{Reason, Refused, Vid};

/// Puts what each test saw of octets at a local port, up to the one that refuses, behind some facts. The octets came so to a
/// segment or to none. The port is 1 to [`PortSet::ports`]. `AllocError`: there was no room for them.
pub(crate) fn put_local_facts(
    facts: &mut Vec<Fact>,
    ports: &PortSet,
    port: u8,
    original: u32,
    octets: &[u8],
    came: &Result<Arrival, Refused>,
) -> Result<(), AllocError>
    requires low { 1 ≤ port }
    requires high { port ≤ length ports.now.ports }
    ensures { OnOk result (facts.new.items ≡ facts.old.items ++ local_facts_of ports.now port original octets.now came.now) }
{
    let refusal = refusal_of(came);
    let tests = local_tests();
    for test in &tests {
        let saw = local_fact(ports, port, original, octets, came, *test);
        put(facts, saw)?;
        if refuses(refusal, *test) {
            return Ok(());
        }
    }
    Ok(())
}

/// The tests in their order.
fn local_tests() -> [Reason; 12]
    ensures { result ≡ local_tests }
{
    [
        Reason::TooLong,
        Reason::Sliced,
        Reason::Runt,
        Reason::PortDown,
        Reason::BadSource,
        Reason::Reserved,
        Reason::CutTag,
        Reason::BadVid,
        Reason::FrameType,
        Reason::NoSegment,
        Reason::NotMember,
        Reason::InnerTag,
    ]
}

/// What a test saw.
fn local_fact(
    ports: &PortSet,
    port: u8,
    original: u32,
    octets: &[u8],
    came: &Result<Arrival, Refused>,
    test: Reason,
) -> Option<Fact>
    requires low { 1 ≤ port }
    requires high { port ≤ length ports.now.ports }
    ensures { result ≡ local_fact ports.now port original octets.now came.now test }
{
    match test {
        Reason::TooLong => Some(Fact::Length {
            octets: octets.len(),
            most: 65_535,
        }),
        Reason::Sliced => Some(Fact::Captured {
            octets: octets.len(),
            original,
        }),
        Reason::Runt => Some(header_fact(octets)),
        Reason::PortDown => Some(Fact::Port {
            port,
            up: ports.is_up(port),
        }),
        Reason::BadSource => source_fact(octets),
        Reason::Reserved => destination_fact(octets),
        Reason::CutTag => tag_fact(octets),
        Reason::BadVid => refuses(refusal_of(came), test).then_some(Fact::ReservedVid),
        Reason::FrameType => Some(Fact::Accepts {
            port,
            tagged: has_vid(octets),
            taken: !refuses(refusal_of(came), test),
        }),
        Reason::NoSegment => Some(segment_fact(ports, port, octets, segment_of(came))),
        Reason::NotMember => match segment_of(came) {
            None => None,
            Some(vid) => Some(Fact::Member {
                port,
                egress: ports.egress(vid, port),
            }),
        },
        Reason::InnerTag => refuses(refusal_of(came), test).then_some(Fact::InnerTag),
        _ => None,
    }
}

/// The segment of a frame at a port, by the VID of its tag or of the port; or that VID, where there is no segment of it.
fn segment_fact(ports: &PortSet, port: u8, octets: &[u8], segment: Option<Vid>) -> Fact
    requires low { 1 ≤ port }
    requires high { port ≤ length ports.now.ports }
    ensures { result ≡ segment_fact ports.now port octets.now segment }
{
    let by_tag = has_vid(octets);
    match segment {
        None => Fact::NoSegment {
            vid: vid_at(ports, port, octets),
            by_tag,
        },
        Some(vid) => Fact::Segment {
            vid: vid.get(),
            by_tag,
        },
    }
}

/// The VID of a frame at a port: that of its tag, or the port's.
fn vid_at(ports: &PortSet, port: u8, octets: &[u8]) -> u16
    requires low { 1 ≤ port }
    requires high { port ≤ length ports.now.ports }
    ensures { result ≡ vid_at ports.now port octets.now }
{
    match vid_in(octets) {
        0 => ports.pvid(port).get(),
        vid => vid,
    }
}
