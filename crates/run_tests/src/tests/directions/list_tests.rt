//! What is told of records that are left out, and of echoes where a run sent nothing.
ghost use Rattle.std.specs.Prelude.{⊤};

use both_ways::{Audit, Audited, BothWays, Cause, LeftOut, Placed};
use echo_window::Origin;
use endpoint_core::Endpoint;
use filter_db::Place;
use overlay_config::settings_of;
use std::alloc::Global;
use std::fmt::Write;
use std::test::Fail;
use stream_run::Sieve;
use test_inputs::settings::ENDPOINT;
use timeline::{Captured, Event, Happening, Tap};

/// The lines of what is left out.
#[derive(Drop)]
struct Lines {
    text: String,
    inputs: u32,
}

impl Audit for Lines {
    ghost hears = { λ old left new. ⊤ };

    fn hear_input(&mut self, _endpoint: &Endpoint, _event: &Event) {
        self.inputs = self.inputs.saturating_add(1);
    }

    fn hear_left_out(&mut self, left: &LeftOut) {
        let _ = write!(self.text, "{left}\n");
    }
}

/// A broadcast of a station.
const BROADCAST: [u8; 14] = [
    0xFF, 0xFF, 0xFF, 0xFF, 0xFF, 0xFF, 2, 0, 0, 0, 0, 0x0A, 0x88, 0xB5,
];

/// Whether it is input, as a record of a port with this number and moment, by a sieve that an endpoint asks.
fn takes<S: Sieve>(sieve: &mut S, endpoint: &Endpoint, port: u8, number: u64, moment: u64) -> bool {
    if port < 1 || port > endpoint.ports() {
        return false;
    }
    let came = endpoint.frame_from(port, 14, &BROADCAST);
    let captured = Captured {
        original: 14,
        octets: &BROADCAST,
    };
    let event = Event {
        moment,
        number,
        happening: Happening::Record(Tap::Port(port), captured),
    };
    sieve.takes(endpoint, &event, &came)
}

/// What is told of a broadcast that comes in twice at port 1, and leaves twice at port 2.
fn lines_of_two(alloc: Global) -> Result<Audited<Lines>, Fail> {
    let endpoint = Endpoint::open(alloc, settings_of(alloc, ENDPOINT.as_bytes())?)?;
    let mut sieve = Audited {
        both: BothWays::new(alloc, 1_000)?,
        audit: Lines {
            text: String::new(alloc),
            inputs: 0,
        },
    };
    let _ = takes(&mut sieve, &endpoint, 1, 3, 100);
    let _ = takes(&mut sieve, &endpoint, 1, 4, 200);
    let _ = takes(&mut sieve, &endpoint, 2, 8, 600);
    let _ = takes(&mut sieve, &endpoint, 2, 9, 1_200);
    Ok(sieve)
}

#[test]
fn each_record_that_is_left_out_has_a_line(rt: HostRuntime) -> Result<(), Fail> {
    let sieve = lines_of_two(rt.alloc())?;
    assert_eq!(rt;
        sieve.audit.text.as_str(),
        "p2 8 of p1 3, 500ns\np2 9 of p1 4, 1us\n"
    );
    assert!(rt; sieve.audit.inputs == 2);
    Ok(())
}

/// That a record at a port is the echo of what record 3 of port 1 brought.
fn echo_at(place: u8) -> LeftOut {
    LeftOut {
        place,
        number: 8,
        moment: 600,
        cause: Cause::Echo(Origin {
            place: 1,
            number: 3,
            moment: 100,
        }),
    }
}

/// That broadcast, as a record of port 1 with this number.
fn broadcast<'a>(number: u64) -> Event<'a> {
    let captured = Captured {
        original: 14,
        octets: &BROADCAST,
    };
    Event {
        moment: 100,
        number,
        happening: Happening::Record(Tap::Port(1), captured),
    }
}

/// How many echoes of a frame are counted at ports 2 and 3, where a run put it at port 2, before so many frames more.
fn unplaced_behind(alloc: Global, more: u64) -> Result<(u64, u64), Fail> {
    let mut placed = Placed::new(alloc)?;
    placed.put(&broadcast(3), &[Place::Local(2)]);
    for number in 0..more {
        placed.put(&broadcast(number.saturating_add(4)), &[Place::Local(3)]);
    }
    placed.meet(&echo_at(2));
    placed.meet(&echo_at(3));
    Ok((placed.unplaced(Tap::Port(2)), placed.unplaced(Tap::Port(3))))
}

#[test]
fn an_echo_is_counted_where_the_run_sent_nothing(rt: HostRuntime) -> Result<(), Fail> {
    assert!(rt; unplaced_behind(rt.alloc(), 0)? == (0, 1));
    assert!(rt; unplaced_behind(rt.alloc(), 4_095)? == (0, 1));
    assert!(rt; unplaced_behind(rt.alloc(), 4_096)? == (1, 1));
    Ok(())
}
