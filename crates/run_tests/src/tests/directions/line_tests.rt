//! What is told of frames that were forgotten, and of records that are left out.
use both_ways::{Cause, ForgottenLine, LeftOut};
use echo_window::{Forgotten, Origin};
use std::alloc::Global;
use std::test::Fail;

/// A line, by the time, the count and the least age in it.
struct LineRow<'a> {
    within: u64,
    count: u64,
    least_age: Option<u64>,
    line: &'a str,
}

/// The time that is told is the greatest whole one below the least age, of the largest unit up to a millisecond.
const ROWS: [LineRow<'static>; 7] = [
    LineRow {
        within: 10_000_000,
        count: 5120,
        least_age: Some(3_355_444),
        line: "both: 5120 frames were forgotten before 10ms had passed: --within 3ms would fit",
    },
    LineRow {
        within: 1_000_000_000,
        count: 1,
        least_age: Some(3_000_000),
        line: "both: 1 frame was forgotten before 1000ms had passed: --within 2ms would fit",
    },
    LineRow {
        within: 1_500_000,
        count: 2,
        least_age: Some(1_000_000),
        line: "both: 2 frames were forgotten before 1500us had passed: --within 999us would fit",
    },
    LineRow {
        within: 18_446_744_073_709_551_615,
        count: 18_446_744_073_709_551_615,
        least_age: Some(1_001),
        line: "both: 18446744073709551615 frames were forgotten before 18446744073709551615ns had passed: --within 1us would fit",
    },
    LineRow {
        within: 2_000,
        count: 3,
        least_age: Some(1_000),
        line: "both: 3 frames were forgotten before 2us had passed: --within 999ns would fit",
    },
    LineRow {
        within: 1,
        count: 3,
        least_age: Some(1),
        line: "both: 3 frames were forgotten before 1ns had passed: --within 0ms would fit",
    },
    LineRow {
        within: 0,
        count: 3,
        least_age: Some(0),
        line: "both: 3 frames were forgotten before 0ms had passed",
    },
];

/// The first line that is told otherwise.
fn wrong_line<'a>(alloc: Global, rows: &[LineRow<'a>]) -> Result<Option<&'a str>, Fail> {
    for row in rows {
        let line = ForgottenLine {
            within: row.within,
            forgotten: Forgotten {
                count: row.count,
                least_age: row.least_age,
            },
        };
        let text = format!(in alloc; "{line}")?;
        if text.as_str() != row.line {
            return Ok(Some(row.line));
        }
    }
    Ok(None)
}

#[test]
fn the_line_names_a_time_that_fits(rt: HostRuntime) -> Result<(), Fail> {
    let wrong = wrong_line(rt.alloc(), &ROWS)?.unwrap_or("none");
    assert_eq!(rt; wrong, "none");
    Ok(())
}

/// The line of record 7 at a place, at this moment.
fn left_out_line(alloc: Global, place: u8, moment: u64, cause: Cause) -> Result<String, Fail> {
    let left = LeftOut {
        place,
        number: 7,
        moment,
        cause,
    };
    Ok(format!(in alloc; "{left}")?)
}

/// That it is the echo of the frame that record 6 of a place brought, at 1 ms.
fn echo_of(place: u8) -> Cause {
    Cause::Echo(Origin {
        place,
        number: 6,
        moment: 1_000_000,
    })
}

#[test]
fn the_line_names_the_record_that_brought_the_frame(rt: HostRuntime) -> Result<(), Fail> {
    let alloc = rt.alloc();
    let line = left_out_line(alloc, 2, 1_041_000, echo_of(1))?;
    assert_eq!(rt; line.as_str(), "p2 7 of p1 6, 41us");
    let line = left_out_line(alloc, 255, 1_041_234, echo_of(0))?;
    assert_eq!(rt; line.as_str(), "p255 7 of u 6, 41234ns");
    let line = left_out_line(alloc, 0, 5, Cause::Sent)?;
    assert_eq!(rt; line.as_str(), "u 7 sent");
    Ok(())
}
