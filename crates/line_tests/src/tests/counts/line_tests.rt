//! Lines, and what is read from each.
use report_counts::{EventLine, Outcome, Outcomes, Passage, ReportLine, read_line};
use std::alloc::Global;
use std::test::Fail;
use test_inputs::three_cells;

/// Lines: what each is, the line without its end, and what is read from it, or its fault.
fn rows<'a>() -> &'a str {
    "\
a port and a remote | 7 1000 p1 3 10 p2=60 192.0.2.2=110 | 7 1000 p1 3 10 p2 left 60, 192.0.2.2 left 110,
a remote of a kind | 7 1000 u 3 10 geneve:192.0.2.3=110 | 7 1000 u 3 10 geneve:192.0.2.3 left 110,
faults of outcomes | 7 1000 p1 3 10 192.0.2.2!TooBig p2!InnerTagOut | 7 1000 p1 3 10 192.0.2.2 unsent 39, p2 unsent 40,
a drop without a segment | 9 9000000000 u 2 - drop 20 NotTunnel | 9 9000000000 u 2 0 dropped 20
the last reason and the last port | 9 0 p255 2 4094 drop 40 InnerTagOut | 9 0 p255 2 4094 dropped 40
a change that was made | 7 7000000000 c 1 20 done | 7 7000000000 c 1 20 done
a change that was refused | 13 7000000000 c 7 30 refused 12 PoolFull | 13 7000000000 c 7 30 refused 12
a cut capture of a port | cut p2 41 | cut p2 41
a cut capture of the underlay | cut u 1 | cut u 1
nothing |  | Fields
no number | p1 7 c 1 - done | Number
one number more | 18446744073709551616 0 c 1 - done | Number
a moment that is none | 1 x c 1 - done | Number
no result | 7 7000000000 c 1 - | Fields
a source that is none | 1 1 x 1 10 done | Place
port 0 | 1 1 p0 1 10 done | Place
port 256 | 1 1 p256 1 10 done | Place
VID 0 | 1 1 p1 1 0 done | Number
VID 4095 | 1 1 p1 1 4095 done | Number
reason 0 | 1 1 p1 1 10 drop 0 None | Number
reason 41 | 1 1 p1 1 10 drop 41 None | Number
cause 0 | 1 1 c 1 10 refused 0 None | Number
a word that is no outcome | 1 1 p1 1 10 p2=60 p3 | Place
no place | 1 1 p1 1 10 =60 | Place
no length | 1 1 p1 1 10 p2= | Place
a reason of whole events | 1 1 p1 1 10 p2!Runt | Place
a cut of changes | cut c 1 | Place
a cut without a number | cut p2 | Fields
"
}

/// What came of a frame at each of its places.
fn outcomes_text(alloc: Global, mut outcomes: Outcomes<'_>) -> Result<String, Fail> {
    let mut text = String::new(alloc);
    for _ in 0..8 {
        let Some(leaving) = outcomes.next_outcome() else {
            return Ok(text);
        };
        let place = str::from_utf8(leaving.place).ok().ok_or("a place")?;
        let word = match leaving.passage {
            Passage::Left { octets } => format!(in alloc; " {place} left {octets},")?,
            Passage::Unsent { reason } => format!(in alloc; " {place} unsent {reason},")?,
        };
        text.push_str(word.as_str())?;
    }
    Ok(text)
}

/// What came of an event.
fn outcome_text(alloc: Global, outcome: Outcome<'_>) -> Result<String, Fail> {
    match outcome {
        Outcome::Sent(outcomes) => outcomes_text(alloc, outcomes),
        Outcome::Dropped { reason } => Ok(format!(in alloc; " dropped {reason}")?),
        Outcome::Done => Ok(String::from_str(alloc, " done")?),
        Outcome::Refused { cause } => Ok(format!(in alloc; " refused {cause}")?),
    }
}

/// What the line of an event tells.
fn event_text(alloc: Global, line: EventLine<'_>) -> Result<String, Fail> {
    let event = line.event;
    let moment = line.moment;
    let source = line.source;
    let number = line.number;
    let segment = line.segment.unwrap_or(0);
    let outcome = outcome_text(alloc, line.result)?;
    Ok(format!(in alloc; "{event} {moment} {source} {number} {segment}{outcome}")?)
}

/// What is read from a line.
fn told(alloc: Global, line: &[u8]) -> Result<String, Fail> {
    match read_line(line) {
        Ok(ReportLine::Event(event)) => event_text(alloc, event),
        Ok(ReportLine::Cut { tap, records }) => Ok(format!(in alloc; "cut {tap} {records}")?),
        Err(fault) => Ok(format!(in alloc; "{fault}")?),
    }
}

#[test]
fn reads_a_line_as_it_is_written(rt: HostRuntime) -> Result<(), Fail> {
    for row in rows().lines() {
        let (name, line, wanted) = three_cells(row)?;
        let text = format!(in rt.alloc(); "{line}\n")?;
        let found = told(rt.alloc(), text.as_bytes())?;
        assert_eq!(rt; found.as_str(), wanted, "{name}");
        let short = told(rt.alloc(), line.as_bytes())?;
        assert_eq!(rt; short.as_str(), wanted, "{name}, without its end");
    }
    Ok(())
}
