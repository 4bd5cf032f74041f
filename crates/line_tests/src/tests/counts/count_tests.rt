//! Lines, and what is counted of them.
use report_counts::{OTHERS, ReportCounts, read_line};
use std::alloc::Global;
use std::test::Fail;

/// A line of each kind, from the first moment to the last.
fn lines<'a>() -> &'a str {
    "\
1 1000 p1 1 10 p2=60 192.0.2.2=110 p3=64
2 1009 u 1 10 p2=70 p1!InnerTagOut
3 1010 p1 2 10 drop 35 SamePlace
4 1020 c 1 10 done
5 1030 c 2 - refused 1 NoSegment
6 1639 u 2 - drop 20 NotTunnel
cut u 2
"
}

/// What is asked of the counts of these lines, and the answer.
fn answers<'a>() -> &'a str {
    "\
events | 6
done | 1
refused 1 | 1
refused 2 | 0
sent | 4
unsent | 1
dropped_all | 2
came 0 | 2
came 1 | 2
came 256 | 2
came 257 | 0
came_at 1 0 | 1
came_at 1 1 | 1
came_at 256 0 | 1
came_at 256 63 | 1
came_at 256 64 | 0
frames 0 | 2
octets 0 | 130
faults 0 | 0
frames 1 | 1
octets 1 | 110
faults 3 | 1
octets 3 | 0
left_at 0 0 | 2
left_at 0 1 | 0
left_at 3 0 | 0
segment_events 10 | 4
segment_sent 10 | 4
segment_dropped 10 | 1
segment_events 0 | 2
segment_events 11 | 0
segment_at 10 0 | 2
segment_at 10 1 | 1
segment_at 10 2 | 1
dropped_at 10 1 | 1
dropped_at 0 63 | 1
dropped 10 35 | 1
dropped 11 35 | 0
dropped 0 20 | 1
unsent_by 10 40 | 1
reason_at 35 1 | 1
reason_at 40 0 | 1
pair_frames 1 0 | 1
pair_octets 1 0 | 60
pair_octets 256 0 | 70
pair_octets 1 2 | 64
pair_frames 256 3 | 0
reason 35 | 1
reason 40 | 1
reason 41 | 0
drop_event 35 | 3
drop_event 20 | 6
drop_event 40 | 2
cut 256 | 2
outlets | 4
"
}

/// Counts a line.
fn count(counts: &mut ReportCounts, line: &[u8]) -> Result<(), Fail> {
    match read_line(line) {
        Ok(line) => {
            counts.count(&line);
            Ok(())
        }
        Err(_) => Err(Fail::from("a line that is none")),
    }
}

/// What was counted of all events and outlets.
fn whole_count(counts: &ReportCounts, word: &str, a: usize) -> Option<u64> {
    match word {
        "events" => Some(counts.events()),
        "done" => Some(counts.done()),
        "sent" => Some(counts.sent()),
        "unsent" => Some(counts.unsent()),
        "dropped_all" => Some(counts.dropped_all()),
        "came" => Some(counts.came(a)),
        "outlets" => Some(counts.outlets() as u64),
        "frames" => Some(counts.outlet(a).frames),
        "octets" => Some(counts.outlet(a).octets),
        "faults" => Some(counts.outlet(a).faults),
        "cut" => counts.cut(a),
        _ => None,
    }
}

/// What was counted in segments and of pairs.
fn part_count(counts: &ReportCounts, word: &str, a: usize, b: usize) -> Option<u64> {
    match word {
        "came_at" => Some(counts.came_at(a, b)),
        "left_at" => Some(counts.left_at(a, b)),
        "segment_events" => Some(counts.segment(a).events),
        "segment_sent" => Some(counts.segment(a).sent),
        "segment_dropped" => Some(counts.segment(a).dropped),
        "segment_at" => Some(counts.segment_at(a, b)),
        "dropped_at" => Some(counts.dropped_at(a, b)),
        "pair_frames" => Some(counts.pair(a, b).frames),
        "pair_octets" => Some(counts.pair(a, b).octets),
        _ => None,
    }
}

/// What was counted of causes and reasons.
fn reason_count(counts: &ReportCounts, word: &str, a: usize, b: usize) -> Option<u64> {
    let first = u8::try_from(a).unwrap_or(0);
    let second = u8::try_from(b).unwrap_or(0);
    match word {
        "refused" => Some(counts.refused(first)),
        "reason" => Some(counts.reason(first)),
        "drop_event" => counts.first_drop(first).map(|drop| drop.event),
        "dropped" => Some(counts.dropped(a, second)),
        "unsent_by" => Some(counts.unsent_by(a, second)),
        "reason_at" => Some(counts.reason_at(first, b)),
        _ => None,
    }
}

/// What was counted, by the name of a call and its arguments.
fn answer(counts: &ReportCounts, word: &str, a: usize, b: usize) -> Option<u64> {
    if let Some(count) = whole_count(counts, word, a) {
        return Some(count);
    }
    if let Some(count) = part_count(counts, word, a, b) {
        return Some(count);
    }
    reason_count(counts, word, a, b)
}

/// A number, or 0 where none stands.
fn number(word: Option<&str>) -> usize {
    match word {
        Some(word) => word.parse::<usize>().unwrap_or(0),
        None => 0,
    }
}

#[test]
fn counts_each_kind(rt: HostRuntime) -> Result<(), Fail> {
    let mut counts = ReportCounts::new(rt.alloc(), 1000, 1639)?;
    for line in lines().lines() {
        count(&mut counts, line.as_bytes())?;
    }
    for row in answers().lines() {
        let (question, wanted) = row.split_once(" | ").ok_or("an answer")?;
        let mut words = question.split(' ');
        let word = words.next().ok_or("a question")?;
        let a = number(words.next());
        let b = number(words.next());
        let found = answer(&counts, word, a, b).ok_or("a call")?;
        assert_eq!(rt; found, number(Some(wanted)) as u64, "{question}");
    }
    Ok(())
}

#[test]
fn names_outlets(rt: HostRuntime) -> Result<(), Fail> {
    let mut counts = ReportCounts::new(rt.alloc(), 5, 5)?;
    count(&mut counts, b"1 5 p1 1 10 p2=60 192.0.2.2=110 p2=60")?;
    assert!(rt; counts.outlet_name(0) == b"p2".as_slice());
    assert!(rt; counts.outlet_name(1) == b"192.0.2.2".as_slice());
    assert!(rt; counts.outlet_name(2).is_empty());
    assert!(rt; counts.outlet_name(OTHERS) == b"others".as_slice());
    Ok(())
}

#[test]
fn counts_one_moment(rt: HostRuntime) -> Result<(), Fail> {
    let mut counts = ReportCounts::new(rt.alloc(), 5, 5)?;
    count(&mut counts, b"1 5 p1 1 10 p2=60")?;
    count(&mut counts, b"2 100 p1 2 10 p2=60")?;
    assert_eq!(rt; counts.came_at(1, 0), 1);
    assert_eq!(rt; counts.came(1), 2);
    Ok(())
}

/// Counts frames from port 1 that left at places whose addresses end so.
fn count_places(alloc: Global, counts: &mut ReportCounts, from: u16, to: u16) -> Result<(), Fail> {
    for place in from..to {
        let line = format!(in alloc; "1 5 p1 1 10 10.0.0.{place}=60")?;
        count(counts, line.as_bytes())?;
    }
    Ok(())
}

#[test]
fn counts_others_together(rt: HostRuntime) -> Result<(), Fail> {
    let mut counts = ReportCounts::new(rt.alloc(), 5, 5)?;
    count_places(rt.alloc(), &mut counts, 0, 520)?;
    count_places(rt.alloc(), &mut counts, 511, 513)?;
    assert_eq!(rt; counts.outlets(), 512);
    assert_eq!(rt; counts.outlet(511).frames, 2);
    assert_eq!(rt; counts.outlet(OTHERS).frames, 9);
    assert_eq!(rt; counts.outlet(OTHERS).octets, 540);
    assert_eq!(rt; counts.left_at(OTHERS, 0), 9);
    assert_eq!(rt; counts.pair(1, OTHERS).frames, 9);
    Ok(())
}

/// Counts drops with these numbers.
fn count_drops(alloc: Global, counts: &mut ReportCounts, from: u16, to: u16) -> Result<(), Fail> {
    for event in from..to {
        let line = format!(in alloc; "{event} 5 p1 {event} 10 drop 35 SamePlace")?;
        count(counts, line.as_bytes())?;
    }
    Ok(())
}

#[test]
fn keeps_the_first_drop_of_a_reason(rt: HostRuntime) -> Result<(), Fail> {
    let mut counts = ReportCounts::new(rt.alloc(), 5, 5)?;
    count_drops(rt.alloc(), &mut counts, 1, 103)?;
    assert_eq!(rt; counts.dropped_all(), 102);
    assert_eq!(rt; answer(&counts, "drop_event", 35, 0), Some(1));
    assert_eq!(rt; answer(&counts, "drop_event", 12, 0), None);
    Ok(())
}
