//! Records of captures that hold both directions, in order of moment.
ghost use Rattle.std.specs.Prelude.{IfOk};
ghost use Rattle.endpoint_core.specs.Kept.{state_of};
ghost use Rattle.stream_run.specs.Sights.{IsBrought};
ghost use Rattle.timeline.specs.declared.event.Happening.TheVariants.{Record as Recorded};

use both_ways::BothWays;
use endpoint_core::{Endpoint, Forwarding, nothing_came};
use overlay_config::{Change, settings_of};
use std::alloc::Global;
use std::test::Fail;
use test_inputs::settings::ENDPOINT;
use test_inputs::{octets_of, three_cells};
use timeline::{Captured, Event, Happening, Tap};

/// How many nanoseconds behind its frame an echo comes at most.
const WITHIN: u64 = 10;

/// Records: what each is, its place, its moment, its octets, and whether it's input. The endpoint is 192.0.2.1 and 2001:db8::1.
fn rows<'a>() -> &'a str {
    "\
a frame comes in | p1 | 100 | 02000000000B02000000000A88B501010101 | in
the endpoint sends it into a tunnel | u | 103 | \
02000000AA0102000000AA02080045000036000000004011F6B3C0000201C0000202C00012B5002200000800000000138800\
02000000000B02000000000A88B501010101 | out
and out of a port, tagged | p2 | 104 | 02000000000B02000000000A8100000588B501010101 | out
once more there | p2 | 105 | 02000000000B02000000000A88B501010101 | in
at a third port as late as may be, with a priority | p3 | 110 | 02000000000B02000000000A8100E00088B501010101 | out
too late behind both | p3 | 116 | 02000000000B02000000000A88B501010101 | in
a second tag belongs to the frame | p1 | 117 | 02000000000B02000000000A810000058100000688B501010101 | in
a frame comes out of a VXLAN tunnel | u | 120 | \
02000000AA0102000000AA02080045000036000000004011F6B3C0000202C0000201C00012B5002200000800000000138800\
02000000000B02000000000A88B502020202 | in
and goes out of a port, tagged | p1 | 121 | 02000000000B02000000000A8100000788B502020202 | out
the same out of the tunnel again | u | 122 | \
02000000AA0102000000AA02080045000036000000004011F6B3C0000202C0000201C00012B5002200000800000000138800\
02000000000B02000000000A88B502020202 | in
that goes out, too | p1 | 123 | 02000000000B02000000000A88B502020202 | out
but no third one | p1 | 124 | 02000000000B02000000000A88B502020202 | in
a tunnel between others | u | 130 | \
02000000AA0102000000AA02080045000036000000004011F6ABC0000202C0000209C00012B5002200000800000000138800\
02000000000B02000000000A88B503030303 | in
whose frame is none of the switch's | p1 | 131 | 02000000000B02000000000A88B503030303 | in
a ping by the endpoint | u | 132 | 02000000AA0102000000AA0208004500001C000000004001F6D6C0000201C00002090800F7FF00000000 | out
a frame comes out of a Geneve tunnel | u | 140 | \
02000000AA0102000000AA02080045000036000000004011F6B3C0000202C0000201C00017C1002200000000655800177000\
02000000000B02000000000A88B504040404 | in
and goes out as late as may be | p2 | 150 | 02000000000B02000000000A88B504040404 | out
and later | p3 | 151 | 02000000000B02000000000A88B504040404 | in
no packet of IP | u | 160 | 02000000000B02000000000A08060001 | in
nor this | u | 161 | 02000000000B02000000000A08060001 | in
a frame that is cut in its tag | p1 | 170 | 02000000000B02000000000A81000005 | in
is refused there, and so never sent | p2 | 171 | 02000000000B02000000000A81000005 | in
and one of three octets | p1 | 172 | 010203 | in
like any other | p2 | 173 | 010203 | in
a frame of no segment | p1 | 180 | 02000000000B02000000000A8100001E88B505050505 | in
is never sent, so its like came in | p2 | 181 | 02000000000B02000000000A88B505050505 | in
a frame in the other segment | p2 | 190 | 02000000000B02000000000A8100001488B506060606 | in
isn't awaited where that has no port | p1 | 191 | 02000000000B02000000000A88B506060606 | in
but at a member | p3 | 192 | 02000000000B02000000000A8100001488B506060606 | out
"
}

/// A loop at the underlay, and packets whose sender can be read, or can't: as above.
fn sender_rows<'a>() -> &'a str {
    "\
a broadcast comes in | p1 | 100 | FFFFFFFFFFFF02000000000A88B501010101 | in
the endpoint floods it to its peer | u | 101 | \
02000000AA0202000000AA01080045000036000000004011F6B3C0000201C0000202C00012B5002200000800000000138800\
FFFFFFFFFFFF02000000000A88B501010101 | out
and out of a port | p2 | 101 | FFFFFFFFFFFF02000000000A88B501010101 | out
the peer sends it back | u | 103 | \
02000000AA0102000000AA02080045000036000000004011F6B3C0000202C0000201C00012B5002200000800000000138800\
FFFFFFFFFFFF02000000000A88B501010101 | in
its flood leaves at the first port | p1 | 104 | FFFFFFFFFFFF02000000000A88B501010101 | out
and at the second, tagged | p2 | 105 | FFFFFFFFFFFF02000000000A8100000A88B501010101 | out
a third one there came in | p2 | 106 | FFFFFFFFFFFF02000000000A88B501010101 | in
the peer sends it back under a VNI of no segment | u | 107 | \
02000000AA0102000000AA02080045000036000000004011F6B3C0000202C0000201C00012B5002200000800000000138900\
FFFFFFFFFFFF02000000000A88B501010101 | in
an own packet whose header has a wrong sum | u | 120 | \
02000000AA0202000000AA01080045000036000000004011F6B4C0000201C0000202C00012B5002200000800000000138800\
FFFFFFFFFFFF02000000000A88B501010101 | out
one with too small a header length | u | 121 | \
02000000AA0202000000AA01080044000036000000004011F7B3C0000201C0000202C00012B5002200000800000000138800\
FFFFFFFFFFFF02000000000A88B501010101 | out
one with a total length beyond it | u | 122 | \
02000000AA0202000000AA01080045000037000000004011F6B2C0000201C0000202C00012B5002200000800000000138800\
FFFFFFFFFFFF02000000000A88B501010101 | out
one with a UDP length beyond it | u | 123 | \
02000000AA0202000000AA01080045000036000000004011F6B3C0000201C0000202C00012B500FF00000800000000138800\
FFFFFFFFFFFF02000000000A88B501010101 | out
a fragment | u | 124 | \
02000000AA0202000000AA01080045000036000020004011D6B3C0000201C0000202C00012B5002200000800000000138800\
FFFFFFFFFFFF02000000000A88B501010101 | out
one that is cut | u | 125 | 02000000AA0202000000AA01080045000036000000004011F6B3C0000201C0000202C00012B50022 | out
behind its source address | u | 126 | 02000000AA0202000000AA01080045000036000000004011F6B3C0000201 | out
an octet before its end | u | 127 | 02000000AA0202000000AA01080045000036000000004011F6B3C00002 | in
behind two tags | u | 128 | 02000000AA0202000000AA018100000A88A8000B080045000036000000004011F6B3C0000201 | out
behind three | u | 129 | 02000000AA0202000000AA018100000A88A8000B8100000C080045000036000000004011F6B3C0000201 | in
of another version | u | 130 | 02000000AA0202000000AA01080065000036000000004011F6B3C0000201 | in
from another | u | 131 | 02000000AA0202000000AA01080045000036000000004011F6B3C0000203 | in
over IPv6, a payload length beyond it | u | 133 | 02000000AA0202000000AA0186DD60000000FFFF114020010DB8000000000000000000000001 | out
an octet before its end, too | u | 134 | 02000000AA0202000000AA0186DD60000000FFFF114020010DB80000000000000000000000 | in
of version 4 there | u | 135 | 02000000AA0202000000AA0186DD40000000FFFF114020010DB8000000000000000000000001 | in
"
}

/// A sieve, and the endpoint of the run that asks it.
#[derive(Drop)]
struct Asked {
    both: BothWays,
    endpoint: Endpoint,
}

/// Those of a run that begins.
fn asked_at_first(alloc: Global) -> Result<Asked, Fail> {
    Ok(Asked {
        both: BothWays::new(alloc, WITHIN)?,
        endpoint: Endpoint::open(alloc, settings_of(alloc, ENDPOINT.as_bytes())?)?,
    })
}

/// What a record brings to a segment, or why nothing.
fn came_of<'a>(
    endpoint: &Endpoint,
    tap: Tap,
    captured: &Captured<'a>,
) -> Result<Forwarding<'a>, Fail>
    ensures { IfOk result (λ came. IsBrought (state_of endpoint.now).bridges.settings (Recorded tap captured.now) came) }
{
    match tap {
        Tap::Port(port) => {
            if port < 1 || port > endpoint.ports() {
                return Err(Fail::new("no such port"));
            }
            Ok(endpoint.frame_from(port, captured.original, captured.octets))
        }
        Tap::Underlay => Ok(endpoint.frame_in(captured.original, captured.octets)),
    }
}

/// The place of this name.
fn tap_of(name: &str) -> Result<Tap, Fail> {
    match name.strip_prefix("p") {
        Some(port) => Ok(Tap::Port(port.parse::<u8>()?)),
        None => Ok(Tap::Underlay),
    }
}

/// Whether a record at a place, at a moment and of these words, is input.
fn is_taken(
    alloc: Global,
    asked: &mut Asked,
    place: &str,
    moment: &str,
    words: &str,
) -> Result<bool, Fail> {
    let octets = octets_of(alloc, words)?;
    let captured = Captured {
        original: u32::try_from(octets.len()).unwrap_or(0),
        octets: octets.as_slice(),
    };
    let tap = tap_of(place)?;
    let came = came_of(&asked.endpoint, tap, &captured)?;
    let event = Event {
        moment: moment.parse::<u64>()?,
        number: 1,
        happening: Happening::Record(tap, captured),
    };
    Ok(asked.both.is_input(&asked.endpoint, &event, &came))
}

/// The first row that is taken otherwise than it says.
fn wrong_row<'a>(alloc: Global, asked: &mut Asked, rows: &'a str) -> Result<Option<&'a str>, Fail> {
    for row in rows.lines() {
        let (name, place, rest) = three_cells(row)?;
        let (moment, words, wanted) = three_cells(rest)?;
        if is_taken(alloc, asked, place, moment, words)? != (wanted == "in") {
            return Ok(Some(name));
        }
    }
    Ok(None)
}

/// Whether two packets of the rows were left out at the underlay, and two frames at each port.
fn are_counted(both: &BothWays) -> bool {
    both.left_out(Tap::Underlay) == 2
        && both.left_out(Tap::Port(1)) == 2
        && both.left_out(Tap::Port(2)) == 2
        && both.left_out(Tap::Port(3)) == 2
        && both.left_out(Tap::Port(4)) == 0
}

#[test]
fn what_the_switch_sent_is_no_input(rt: HostRuntime) -> Result<(), Fail> {
    let mut asked = asked_at_first(rt.alloc())?;
    let wrong = wrong_row(rt.alloc(), &mut asked, rows())?.unwrap_or("none");
    assert_eq!(rt; wrong, "none");
    assert!(rt; are_counted(&asked.both));
    Ok(())
}

#[test]
fn at_the_underlay_the_outer_source_decides(rt: HostRuntime) -> Result<(), Fail> {
    let mut asked = asked_at_first(rt.alloc())?;
    let wrong = wrong_row(rt.alloc(), &mut asked, sender_rows())?.unwrap_or("none");
    assert_eq!(rt; wrong, "none");
    let both = &asked.both;
    assert!(rt; both.left_out(Tap::Underlay) == 10 && both.forgotten_line().is_none());
    Ok(())
}

#[test]
fn a_change_is_always_input(rt: HostRuntime) -> Result<(), Fail> {
    let Asked { mut both, endpoint } = asked_at_first(rt.alloc())?;
    let event = Event {
        moment: 5,
        number: 1,
        happening: Happening::Change(0),
    };
    let came = nothing_came();
    assert!(rt; both.is_input(&endpoint, &event, &came) && both.is_input(&endpoint, &event, &came));
    Ok(())
}

/// A broadcast at port 1 and at port 2: as above.
fn flood_rows<'a>() -> &'a str {
    "\
a broadcast comes in | p1 | 100 | FFFFFFFFFFFF02000000000A88B501010101 | in
and leaves | p2 | 101 | FFFFFFFFFFFF02000000000A88B501010101 | out
"
}

/// Closes port 2, and whether that was input and done. As in a run, the sieve is asked with the change first.
fn close_second(asked: &mut Asked) -> bool {
    let event = Event {
        moment: 102,
        number: 1,
        happening: Happening::Change(0),
    };
    let is_input = asked
        .both
        .is_input(&asked.endpoint, &event, &nothing_came());
    let now = asked.endpoint.now();
    is_input
        && asked
            .endpoint
            .change(now, Change::PortDown { port: 2 })
            .is_ok()
}

#[test]
fn a_port_that_is_down_sends_nothing(rt: HostRuntime) -> Result<(), Fail> {
    let mut asked = asked_at_first(rt.alloc())?;
    let up = wrong_row(rt.alloc(), &mut asked, flood_rows())?;
    assert!(rt; up.is_none() && close_second(&mut asked));
    let wrong = wrong_row(rt.alloc(), &mut asked, flood_rows())?;
    assert_eq!(rt; wrong.unwrap_or("none"), "and leaves");
    Ok(())
}
