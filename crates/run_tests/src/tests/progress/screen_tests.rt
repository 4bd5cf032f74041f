//! A terminal and a clock in memory, and whoever looks on beside progress.
ghost use Rattle.std.specs.Prelude.{⊤};

use endpoint_core::{ChangeFault, Endpoint, Forwarding, nothing_came};
use filter_db::Place;
use overlay_config::settings_of;
use run_progress::{Progress, Screen, WithProgress};
use std::alloc::Global;
use std::cell::{Cell, RefCell};
use std::fmt::Write;
use std::io;
use std::test::Fail;
use std::time::{Clock, Duration};
use stream_run::Watch;
use test_inputs::settings::ENDPOINT;
use timeline::{Captured, Event, Happening, Tap};

/// How many events come from one look at the clock to the next.
const EVENTS: u64 = 4_096;

/// A standard error in memory, and a clock that is 300 ms later at each look, up to a look at which it fails.
#[derive(Drop)]
struct Desk {
    is_terminal: bool,
    looks: Cell<u64>,
    fails_at: u64,
    text: RefCell<String>,
}

impl Desk {
    /// Nothing was written, and nobody looked at the clock.
    fn new(alloc: Global, is_terminal: bool, fails_at: u64) -> Desk {
        Desk {
            is_terminal,
            looks: Cell::new(0),
            fails_at,
            text: RefCell::new(String::new(alloc)),
        }
    }

    /// What was written.
    fn written(&self, alloc: Global) -> Result<String, Fail> {
        let text = self.text.try_borrow()?;
        Ok(String::from_str(alloc, text.as_str())?)
    }
}

impl Screen for Desk {
    fn is_terminal(&self) -> bool {
        self.is_terminal
    }
}

impl Clock for Desk {
    fn monotonic(&self) -> io::Result<Duration> {
        let look = self.looks.get();
        self.looks.set(look.wrapping_add(1));
        if look >= self.fails_at {
            return Err(io::Error::from(io::ErrorKind::Unsupported));
        }
        Ok(Duration::from_millis(look.wrapping_mul(300)))
    }

    fn since_1970(&self) -> io::Result<Duration> {
        self.monotonic()
    }
}

impl Eprint for Desk {
    fn eprint<D: std::fmt::Display + Drop>(&self, value: D) -> io::Result<()> {
        match self.text.try_borrow_mut() {
            Ok(mut text) => {
                let written = write!(text, "{value}");
                written.map_err(|_| io::Error::from(io::ErrorKind::OutOfMemory))
            }
            Err(_) => Err(io::Error::from(io::ErrorKind::Other)),
        }
    }

    fn eprintln<D: std::fmt::Display + Drop>(&self, value: D) -> io::Result<()> {
        self.eprint(value)?;
        self.eprint("\n")
    }
}

/// A record of 84 octets at this second, which takes 100 of a capture.
fn record<'a>(second: u64, octets: &'a [u8]) -> Event<'a> {
    Event {
        moment: second.wrapping_mul(1_000_000_000),
        number: second,
        happening: Happening::Record(
            Tap::Port(1),
            Captured {
                original: 84,
                octets,
            },
        ),
    }
}

/// Whoever looks on, and counts how often it is called.
#[derive(Clone, Copy, Debug, PartialEq, Eq)]
struct Calls {
    seen: u64,
    decisions: u64,
    replies: u64,
    passed_over: u64,
    ends: u64,
}

impl Watch for Calls {
    ghost sees = { λ old seen new. ⊤ };

    ghost expects = { λ old due new. ⊤ };

    ghost ends = { λ old state new. ⊤ };

    fn see(&mut self, _endpoint: &Endpoint, _number: u64, _event: &Event, _came: &Forwarding) {
        self.seen = self.seen.wrapping_add(1);
    }

    fn hear_decision(&mut self, _endpoint: &Endpoint, _forwarding: &Forwarding, _places: &[Place]) {
        self.decisions = self.decisions.wrapping_add(1);
    }

    fn hear_reply(&mut self, _reply: Result<(), ChangeFault>) {
        self.replies = self.replies.wrapping_add(1);
    }

    fn pass_over(&mut self, _endpoint: &Endpoint, _number: u64, _event: &Event) {
        self.passed_over = self.passed_over.wrapping_add(1);
    }

    fn end(&mut self, _endpoint: &Endpoint) {
        self.ends = self.ends.wrapping_add(1);
    }
}

/// Nobody was called.
fn no_calls() -> Calls {
    Calls {
        seen: 0,
        decisions: 0,
        replies: 0,
        passed_over: 0,
        ends: 0,
    }
}

/// What is written of so many records, one a second, of so many octets where that is known.
fn written_of(
    alloc: Global,
    desk: &Desk,
    total: Option<u64>,
    records: u64,
) -> Result<String, Fail> {
    let mut progress = Progress::start(desk, total).ok_or("no progress")?;
    for second in 1..=records {
        progress.count(&record(second, &[0; 84]));
    }
    progress.finish();
    progress.finish();
    desk.written(alloc)
}

#[test]
fn lines_stand_one_over_the_last_and_go(rt: HostRuntime) -> Result<(), Fail> {
    let desk = Desk::new(rt.alloc(), true, u64::MAX);
    let written = written_of(rt.alloc(), &desk, Some(4_096_000), 5 * EVENTS)?;
    assert_eq!(rt;
        written.as_str(),
        "\r 40 %, 16384 events, 13653 a second, at 16384.000000000 s\x1b[K\
        \r 50 %, 20480 events, 13653 a second, at 20480.000000000 s\x1b[K\
        \r\x1b[K"
    );
    assert_eq!(rt; desk.looks.get(), 6);
    Ok(())
}

#[test]
fn nothing_is_shown_within_a_second(rt: HostRuntime) -> Result<(), Fail> {
    let desk = Desk::new(rt.alloc(), true, u64::MAX);
    let written = written_of(rt.alloc(), &desk, None, 4 * EVENTS - 1)?;
    assert_eq!(rt; written.as_str(), "");
    Ok(())
}

#[test]
fn nothing_is_shown_where_the_clock_fails_or_no_terminal_is(rt: HostRuntime) -> Result<(), Fail> {
    assert!(rt; Progress::start(&Desk::new(rt.alloc(), false, u64::MAX), None).is_none());
    assert!(rt; Progress::start(&Desk::new(rt.alloc(), true, 0), None).is_none());
    let desk = Desk::new(rt.alloc(), true, 1);
    let written = written_of(rt.alloc(), &desk, None, 5 * EVENTS)?;
    assert_eq!(rt; written.as_str(), "");
    Ok(())
}

#[test]
fn whoever_looks_on_is_told_all(rt: HostRuntime) -> Result<(), Fail> {
    let settings = settings_of(rt.alloc(), ENDPOINT.as_bytes())?;
    let endpoint = Endpoint::open(rt.alloc(), settings)?;
    let desk = Desk::new(rt.alloc(), true, u64::MAX);
    let mut beside = WithProgress {
        watch: no_calls(),
        progress: Progress::start(&desk, None),
    };
    let change = Event {
        moment: 0,
        number: 1,
        happening: Happening::Change(0),
    };
    for number in 1..=3 * EVENTS {
        beside.see(&endpoint, number, &change, &nothing_came());
        beside.hear_reply(Ok(()));
    }
    beside.hear_decision(&endpoint, &nothing_came(), &[]);
    for event in 1..=EVENTS {
        beside.pass_over(&endpoint, event, &record(event, &[0; 84]));
    }
    beside.end(&endpoint);
    let calls = Calls {
        seen: 12_288,
        decisions: 1,
        replies: 12_288,
        passed_over: 4_096,
        ends: 1,
    };
    assert_eq!(rt; beside.watch, calls);
    assert_eq!(rt;
        desk.written(rt.alloc())?.as_str(),
        "\r 409600 octets, 16384 events, 13653 a second, at 4096.000000000 s\x1b[K\r\x1b[K"
    );
    Ok(())
}
