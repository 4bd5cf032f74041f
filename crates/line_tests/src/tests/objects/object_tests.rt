//! An object of each kind, and what an output that fails is left with.
use decision_lines::{Counter, Line};
use decision_objects::{Objects, Origin, write_cut, write_drop, write_reply};
use endpoint_core::{ChangeFault, Endpoint, Outlets};
use overlay_config::settings_of;
use std::alloc::Global;
use std::test::Fail;
use stream_run::Watch;
use test_inputs::settings::ENDPOINT;
use test_inputs::{Room, broadcast};
use timeline::{Captured, Cut, Event, Happening, Source, Tap};
use wire::ether::{Reason, Refused, Vid};

const SECOND: u64 = 1_000_000_000;

/// What a broadcast of 60 octets from port 1 comes to at an endpoint that nothing came to yet.
const FIRST: &str = concat!(
    r#"{"event":1,"moment":"1000000000","number":1,"outcomes":[{"octets":60,"place":"p2"},{"octets":64,"place":"p3"},"#,
    r#"{"octets":110,"place":"192.0.2.2"}],"result":"sent","segment":10,"source":"p1"}"#,
    "\n"
);

/// One of 1,515 octets from port 2 behind it, too long for the tunnel.
const SECOND_ONE: &str = concat!(
    r#"{"event":2,"moment":"1000000000","number":1,"outcomes":[{"octets":1515,"place":"p1"},{"octets":1519,"place":"p3"},"#,
    r#"{"fault":"TooBig","place":"192.0.2.2"}],"result":"sent","segment":10,"source":"p2"}"#,
    "\n"
);

/// The event of this number at as many seconds.
fn origin(event: u16, source: Source, number: u64) -> Origin {
    let event = u64::from(event);
    Origin {
        event,
        moment: event * SECOND,
        source,
        number,
    }
}

/// Whether a drop in this segment is told so.
fn tells_drop(origin: &Origin, segment: u16, reason: Reason, expected: &str) -> bool {
    let mut line = Line::new();
    let refused = Refused {
        segment: Vid::new(segment),
        reason,
    };
    write_drop(&mut line, &mut Counter::new(), origin, refused);
    line.text() == expected.as_bytes()
}

#[test]
fn drops_are_told_with_number_and_name(rt: HostRuntime) {
    let at = origin(9, Source::Tap(Tap::Underlay), 2);
    let expected = concat!(
        r#"{"event":9,"moment":"9000000000","name":"NotIp","number":2,"reason":12,"result":"drop","segment":null,"#,
        r#""source":"u"}"#,
        "\n"
    );
    assert!(rt; tells_drop(&at, 0, Reason::NotIp, expected));
    let at = origin(123, Source::Tap(Tap::Port(16)), 12345);
    let expected = concat!(
        r#"{"event":123,"moment":"123000000000","name":"BadOuterSource","number":12345,"reason":15,"result":"drop","#,
        r#""segment":4094,"source":"p16"}"#,
        "\n"
    );
    assert!(rt; tells_drop(&at, 4094, Reason::BadOuterSource, expected));
}

/// Whether the reply to a change that names this segment is told so.
fn tells_reply(
    origin: &Origin,
    segment: u16,
    reply: Result<(), ChangeFault>,
    expected: &str,
) -> bool {
    let mut line = Line::new();
    write_reply(
        &mut line,
        &mut Counter::new(),
        origin,
        Vid::new(segment),
        reply,
    );
    line.text() == expected.as_bytes()
}

#[test]
fn changes_are_told_with_their_segment(rt: HostRuntime) {
    let at = origin(7, Source::Changes, 1);
    let expected = concat!(
        r#"{"event":7,"moment":"7000000000","number":1,"result":"done","segment":null,"source":"c"}"#,
        "\n"
    );
    assert!(rt; tells_reply(&at, 0, Ok(()), expected));
    let at = origin(10, Source::Changes, 10_000);
    let expected = concat!(
        r#"{"cause":14,"event":10,"moment":"10000000000","name":"NoTunnel","number":10000,"result":"refused","#,
        r#""segment":20,"source":"c"}"#,
        "\n"
    );
    assert!(rt; tells_reply(&at, 20, Err(ChangeFault::NoTunnel), expected));
}

#[test]
fn cut_rests_are_told_with_their_whole_records(rt: HostRuntime) {
    let mut line = Line::new();
    let cut = Cut {
        tap: Tap::Port(1),
        whole: 7,
    };
    write_cut(&mut line, &cut);
    let expected = concat!(r#"{"records":7,"result":"cut","source":"p1"}"#, "\n");
    assert!(rt; line.text() == expected.as_bytes());
}

/// Shows the event of this number, so many octets of a broadcast at a port, and what they come to.
fn show(
    objects: &mut Objects<Room>,
    endpoint: &mut Endpoint,
    (number, port): (u64, u8),
    size: u16,
) {
    let frame = broadcast::<1515>();
    let octets = &frame[..usize::from(size).min(1515)];
    let original = u32::from(size);
    if endpoint.now() > SECOND || port == 0 || port > endpoint.ports() {
        return;
    }
    let event = Event {
        moment: SECOND,
        number: 1,
        happening: Happening::Record(Tap::Port(port), Captured { original, octets }),
    };
    let came = endpoint.frame_from(port, original, octets);
    objects.see(endpoint, number, &event, &came);
    let mut places = Outlets::new();
    let forwarding = endpoint.take_frame(SECOND, port, original, octets, &mut places);
    objects.hear_decision(endpoint, &forwarding, places.as_slice());
}

/// Shows two broadcasts to an endpoint, and the cut end of a capture, over an output that takes at most so many octets a
/// write, and fails at a write of this number. Answers what was written, and whether it failed.
fn shown(alloc: Global, most: usize, fails_at: u64) -> Result<(Vec<u8>, bool), Fail> {
    let mut endpoint = Endpoint::open(alloc, settings_of(alloc, ENDPOINT.as_bytes())?)?;
    let mut objects = Objects::new(Room::new(alloc, most, fails_at, true), &[]);
    show(&mut objects, &mut endpoint, (1, 1), 60);
    show(&mut objects, &mut endpoint, (2, 2), 1515);
    objects.cut(&Cut {
        tap: Tap::Underlay,
        whole: 0,
    });
    let is_failed = objects.is_failed();
    Ok((objects.into_output().octets, is_failed))
}

/// Whether the first so many octets of both objects were written.
fn is_front(text: &[u8], count: usize) -> bool {
    let first = FIRST.as_bytes();
    let at = count.min(first.len());
    let (front, rest) = text.split_at(at.min(text.len()));
    text.len() == count && first.starts_with(front) && SECOND_ONE.as_bytes().starts_with(rest)
}

#[test]
fn outcomes_are_told_place_by_place(rt: HostRuntime) -> Result<(), Fail> {
    let (text, is_failed) = shown(rt.alloc(), 4096, 0)?;
    let cut = concat!(r#"{"records":0,"result":"cut","source":"u"}"#, "\n");
    let whole = format!(in rt.alloc(); "{FIRST}{SECOND_ONE}{cut}")?;
    assert!(rt; text.as_slice() == whole.as_bytes());
    assert!(rt; !is_failed);
    Ok(())
}

#[test]
fn a_front_is_left_behind_a_fault(rt: HostRuntime) -> Result<(), Fail> {
    for (most, fails_at, count) in [(4096, 1, 0), (4096, 2, FIRST.len()), (7, 3, 14)] {
        let (text, is_failed) = shown(rt.alloc(), most, fails_at)?;
        assert!(rt; is_failed, "by {most}");
        assert!(rt; is_front(text.as_slice(), count), "by {most}");
    }
    Ok(())
}
