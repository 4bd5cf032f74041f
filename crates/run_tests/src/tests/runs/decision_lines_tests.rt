//! Worked lines of docs/FORMATS.md and README.md, and a line of all outlets that there may be.
ghost use Rattle.std.specs.Prelude.{◌≤◌, ◌+◌, length};

use decision_lines::{Counter, Line, Scratch};
use endpoint_core::state::CHANGE_FAULTS;
use endpoint_core::{ChangeFault, Endpoint, Outlets};
use filter_db::Place;
use overlay_config::settings_of;
use std::alloc::Global;
use std::test::Fail;
use test_inputs::broadcast;
use test_inputs::settings::ENDPOINT;
use timeline::{Captured, Cut, Event, Happening, Tap};
use wire::ether::{Reason, Refused, Vid};
use wire::ip_udp::{Addr, Tunnel};

const SECOND: u64 = 1_000_000_000;

/// How many octets a line of 255 ports and 512 IPv6 remotes has, where 110 octets left at each, and their sum (FNV-1a of 64 bits).
const LONGEST: (usize, u64) = (28_100, 0xB939_F3E3_FCC5_E64C);

/// An endpoint with three ports in a segment that floods to 192.0.2.2 by VXLAN; port 3 has it tagged.
fn endpoint(alloc: Global) -> Result<Endpoint, Fail> {
    let settings = settings_of(alloc, ENDPOINT.as_bytes())?;
    Ok(Endpoint::open(alloc, settings)?)
}

/// The number of an event of a run.
fn counted(count: u64) -> Counter {
    let mut number = Counter::new();
    for _event in 0..count {
        number.add_one();
    }
    number
}

/// The change of this number.
fn change<'a>(moment: u64, number: u64) -> Event<'a> {
    Event {
        moment,
        number,
        happening: Happening::Change(0),
    }
}

/// The record of this number in a capture.
fn record<'a>(moment: u64, number: u64, tap: Tap, octets: &'a [u8]) -> Event<'a> {
    Event {
        moment,
        number,
        happening: Happening::Record(
            tap,
            Captured {
                original: 60,
                octets,
            },
        ),
    }
}

/// A drop in this segment.
fn drop_in(segment: u16, reason: Reason) -> Refused {
    Refused {
        segment: Vid::new(segment),
        reason,
    }
}

/// Whether the drop of a record is told so, the count-th event of a run, at as many seconds.
fn tells_drop(
    line: &mut Line,
    (count, own, tap): (u16, u64, Tap),
    refused: Refused,
    expected: &str,
) -> bool {
    let octets = broadcast::<60>();
    let count = u64::from(count);
    let event = record(count * SECOND, own, tap, &octets);
    line.write_drop(&counted(count), &event, refused);
    line.text() == expected.as_bytes()
}

#[test]
fn drops_are_told_with_number_and_name(rt: HostRuntime) {
    let mut line = Line::new();
    let refused = drop_in(0, Reason::NotIp);
    let expected = "9 9000000000 u 2 - drop 12 NotIp\n";
    assert!(rt; tells_drop(&mut line, (9, 2, Tap::Underlay), refused, expected));
    let refused = drop_in(10, Reason::SamePlace);
    let expected = "4 4000000000 p2 2 10 drop 35 SamePlace\n";
    assert!(rt; tells_drop(&mut line, (4, 2, Tap::Port(2)), refused, expected));
    let refused = drop_in(4094, Reason::BadOuterSource);
    let expected = "100 100000000000 p16 99 4094 drop 15 BadOuterSource\n";
    assert!(rt; tells_drop(&mut line, (100, 99, Tap::Port(16)), refused, expected));
}

/// Whether a change is told so, the count-th event of a run, at as many seconds.
fn tells_reply(
    line: &mut Line,
    (count, own, segment): (u16, u64, u16),
    reply: Result<(), ChangeFault>,
    expected: &str,
) -> bool {
    let count = u64::from(count);
    let event = change(count * SECOND, own);
    line.write_reply(&counted(count), &event, Vid::new(segment), reply);
    line.text() == expected.as_bytes()
}

#[test]
fn changes_are_told_with_their_segment(rt: HostRuntime) {
    let mut line = Line::new();
    let expected = "7 7000000000 c 1 - done\n";
    assert!(rt; tells_reply(&mut line, (7, 1, 0), Ok(()), expected));
    let reply = Err(ChangeFault::NoTunnel);
    let expected = "10 10000000000 c 10000 20 refused 14 NoTunnel\n";
    assert!(rt; tells_reply(&mut line, (10, 10_000, 20), reply, expected));
}

/// Whether a rest is told so behind so many whole records.
fn tells_cut(line: &mut Line, tap: Tap, whole: u64, expected: &str) -> bool {
    line.write_cut(&Cut { tap, whole });
    line.text() == expected.as_bytes()
}

#[test]
fn cut_rests_are_told_with_their_whole_records(rt: HostRuntime) {
    let mut line = Line::new();
    assert!(rt; tells_cut(&mut line, Tap::Port(16), 3, "cut p16 3\n"));
    assert!(rt; tells_cut(&mut line, Tap::Underlay, 0, "cut u 0\n"));
}

/// The first number below a bound that a counter tells wrongly, if there is one.
fn first_wrong(alloc: Global, bound: u64) -> Result<Option<u64>, Fail> {
    let mut line = Line::new();
    let mut number = Counter::new();
    for count in 0..bound {
        line.begin(&number, &change(count, count), None);
        let expected = format!(in alloc; "{count} {count} c {count} - ")?;
        if line.text() != expected.as_bytes() {
            return Ok(Some(count));
        }
        number.add_one();
    }
    Ok(None)
}

#[test]
fn a_counter_has_the_digits_of_its_number(rt: HostRuntime) -> Result<(), Fail> {
    assert_eq!(rt; first_wrong(rt.alloc(), 10_011)?, None);
    Ok(())
}

/// Whether the forwarding of a broadcast that comes in at a port at 1 s is told so, the event of this number.
fn tells_forwarding(
    scratch: &mut Scratch,
    endpoint: &mut Endpoint,
    (count, port): (u64, u8),
    expected: &str,
) -> bool {
    if endpoint.now() > SECOND || port == 0 || port > endpoint.ports() {
        return false;
    }
    let octets = broadcast::<60>();
    scratch.number = counted(count);
    let event = record(SECOND, 1, Tap::Port(port), &octets);
    let forwarding = endpoint.take_frame(SECOND, port, 60, &octets, &mut scratch.places);
    scratch.write_forwarding(&event, endpoint, &forwarding);
    scratch.line.text() == expected.as_bytes()
}

/// Whether a broadcast from port 1 and one from port 2 are told with their outcomes.
fn tells_forwardings(endpoint: &mut Endpoint) -> bool {
    let mut scratch = Scratch::new();
    let first = "1 1000000000 p1 1 10 p2=60 p3=64 192.0.2.2=110\n";
    let second = "2 1000000000 p2 1 10 p1=60 p3=64 192.0.2.2=110\n";
    tells_forwarding(&mut scratch, endpoint, (1, 1), first)
        && tells_forwarding(&mut scratch, endpoint, (2, 2), second)
}

#[test]
fn outcomes_stand_behind_the_front(rt: HostRuntime) -> Result<(), Fail> {
    let mut endpoint = endpoint(rt.alloc())?;
    assert!(rt; tells_forwardings(&mut endpoint));
    Ok(())
}

/// The remote of this number, by a tunnel of the one or the other kind.
fn remote(number: u16) -> Place {
    let mut addr = [0; 16];
    addr[..4].copy_from_slice(&[0x20, 0x01, 0x0D, 0xB8]);
    addr[14..].copy_from_slice(&number.to_be_bytes());
    let kind = if number % 2 == 1 {
        Tunnel::Vxlan
    } else {
        Tunnel::Geneve
    };
    Place::Remote(kind, Addr::V6(addr))
}

/// Puts the same outcome at 255 ports.
fn put_ports(line: &mut Line, count: Result<usize, Reason>)
    requires { length line.old + 19635 ≤ 65536 }
    ensures { length line.new ≤ length line.old + 19635 }
{
    for index in 0..255_u8 {
        line.put_counted(index == 0, true, Place::Local(index + 1), count);
    }
}

/// Puts the same outcome at 512 remotes behind them.
fn put_remotes(line: &mut Line, count: Result<usize, Reason>)
    requires { length line.old + 39424 ≤ 65536 }
    ensures { length line.new ≤ length line.old + 39424 }
{
    for index in 0..512_u16 {
        line.put_counted(false, true, remote(index + 1), count);
    }
}

/// Writes the line of an event where so many octets left at all places.
fn write_longest(line: &mut Line, count: Result<usize, Reason>) {
    let octets = broadcast::<60>();
    let event = record(u64::MAX, u64::MAX, Tap::Port(255), &octets);
    line.begin(&counted(1_000), &event, Vid::new(4094));
    put_ports(line, count);
    put_remotes(line, count);
    line.end();
}

/// Writes that line of what leaves at each place, and so last of what leaves at the last; whether a frame leaves.
fn writes_longest(line: &mut Line, endpoint: &mut Endpoint) -> bool {
    let octets = broadcast::<60>();
    let mut places = Outlets::new();
    if endpoint.now() > SECOND || endpoint.ports() == 0 {
        return false;
    }
    let Ok(came) = endpoint.take_frame(SECOND, 1, 60, &octets, &mut places) else {
        return false;
    };
    for place in places.as_slice() {
        write_longest(line, endpoint.size_at(&came, *place));
    }
    true
}

/// FNV-1a of 64 bits.
fn sum_of(octets: &[u8]) -> u64 {
    let mut sum = 0xCBF2_9CE4_8422_2325;
    for octet in octets {
        sum = (sum ^ u64::from(*octet)).wrapping_mul(0x0000_0100_0000_01B3);
    }
    sum
}

/// How long a line is, and its sum.
fn measured(line: &Line) -> (usize, u64) {
    (line.text().len(), sum_of(line.text()))
}

/// Whether the last of them, at the remote, is the longest line.
fn tells_longest(endpoint: &mut Endpoint) -> bool {
    let mut line = Line::new();
    writes_longest(&mut line, endpoint) && measured(&line) == LONGEST
}

#[test]
fn a_line_has_room_for_all_outlets(rt: HostRuntime) -> Result<(), Fail> {
    let mut endpoint = endpoint(rt.alloc())?;
    assert!(rt; tells_longest(&mut endpoint));
    Ok(())
}

#[test]
fn each_cause_is_listed_at_its_number(rt: HostRuntime) {
    for place in 0..14u8 {
        let cause = CHANGE_FAULTS[usize::from(place)];
        assert!(rt; cause.number() == place + 1);
    }
}
