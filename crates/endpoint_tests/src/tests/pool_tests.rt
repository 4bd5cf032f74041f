//! Segments that come, go and get other limits while others learn.
use crate::tests::calls::{
    ABSENT, AT_PORT_1, AT_PORT_2, Answer, Call, Course, FIXED, NEW, PORT_1, PORT_2, SECOND, add,
    agree, call_on, opened, remove, set_limit,
};
use crate::tests::checks::{check, check_at};
use filter_db::{ListTables, PoolTables, TableRule};
use shared_tables::SharedTables;
use std::alloc::{AllocError, Global};
use std::process::Abort;
use std::test::Fail;
use wire::ether::Vid;

/// A step of a pool, and what comes of it.
#[derive(Clone, Copy)]
enum Step {
    /// A call for a VID at a moment, and its answer.
    Calls(u16, u64, Call, Answer),
    /// A segment of this VID and limit with ageing 10 at moment 0, and whether it comes.
    Adds(u16, u32, bool),
    /// The segment of this VID at moment 0, and whether it goes.
    Removes(u16, bool),
    /// The segment of this VID at a moment, another limit, and whether it gets that.
    Limits(u16, u64, u32, bool),
    /// How many segments there are, and the room that is left.
    Leaves(u32, u32),
}

/// Whether that comes of a step.
fn comes_of(tables: &mut SharedTables, step: Step) -> bool {
    match step {
        Step::Calls(vid, now, call, wanted) => match Vid::new(vid) {
            Some(vid) => call_on(tables, vid, now, call) == wanted,
            None => false,
        },
        Step::Adds(vid, limit, wanted) => match Vid::new(vid) {
            Some(vid) => add(tables, rule(vid, limit), 0) == wanted,
            None => false,
        },
        Step::Removes(vid, wanted) => match Vid::new(vid) {
            Some(vid) => remove(tables, vid, 0) == wanted,
            None => false,
        },
        Step::Limits(vid, now, limit, wanted) => match Vid::new(vid) {
            Some(vid) => set_limit(tables, vid, limit, now) == wanted,
            None => false,
        },
        Step::Leaves(count, room) => tables.segment_count() == count && tables.room() == room,
    }
}

fn rule(vid: Vid, limit: u32) -> TableRule {
    TableRule {
        vid,
        limit,
        ageing: 10,
    }
}

/// A pool of so many slots, without segments.
fn pool(alloc: Global, slots: u16) -> Result<SharedTables, AllocError> {
    SharedTables::open(alloc, &[], u32::from(slots))
}

/// Asks for what comes of each step.
fn go_on(rt: &impl Abort, tables: &mut SharedTables, steps: &[Step]) {
    for (number, step) in steps.iter().enumerate() {
        check_at(rt, comes_of(tables, *step), "step", number);
    }
}

/// The same of a pool without segments.
fn walk(rt: &impl Abort, alloc: Global, slots: u16, steps: &[Step]) -> Result<(), Fail> {
    go_on(rt, &mut pool(alloc, slots)?, steps);
    Ok(())
}

/// With limit 2 two addresses are learned.
const LEARNED: [Step; 3] = [
    Step::Adds(10, 2, true),
    Step::Calls(10, 0, Call::Learn(1, PORT_1), NEW),
    Step::Calls(10, 0, Call::Learn(2, PORT_2), NEW),
];

/// At limit 1 both are forgotten.
const ALL: [Step; 3] = [
    Step::Limits(10, 0, 1, true),
    Step::Calls(10, 0, Call::Look(1), ABSENT),
    Step::Calls(10, 0, Call::Live, Answer::Count(0)),
];

/// At limit 2 both stay.
const NOTHING: [Step; 3] = [
    Step::Limits(10, 0, 2, true),
    Step::Calls(10, 0, Call::Look(1), AT_PORT_1),
    Step::Calls(10, 0, Call::Live, Answer::Count(2)),
];

#[test]
fn a_lower_limit_forgets_all_or_nothing(rt: HostRuntime) -> Result<(), Fail> {
    for lowered in [&ALL, &NOTHING] {
        let mut tables = pool(rt.alloc(), 2)?;
        go_on(&rt, &mut tables, &LEARNED);
        go_on(&rt, &mut tables, lowered);
    }
    Ok(())
}

/// A fixed entry goes too, and what is dead doesn't count: of two entries one is dead, so that limit 1 leaves the other.
const LIVE: [Step; 9] = [
    Step::Adds(10, 3, true),
    Step::Calls(10, 0, Call::Learn(1, PORT_1), NEW),
    Step::Calls(10, 0, Call::Fix(2, PORT_2), FIXED),
    Step::Limits(10, 10 * SECOND, 1, true),
    Step::Calls(10, 10 * SECOND, Call::Look(2), AT_PORT_2),
    Step::Limits(10, 10 * SECOND, 3, true),
    Step::Calls(10, 10 * SECOND, Call::Learn(1, PORT_1), NEW),
    Step::Limits(10, 10 * SECOND, 1, true),
    Step::Calls(10, 10 * SECOND, Call::Look(2), ABSENT),
];

#[test]
fn a_lower_limit_counts_what_is_live(rt: HostRuntime) -> Result<(), Fail> {
    walk(&rt, rt.alloc(), 3, &LIVE)
}

/// A pool of 600 with limits of 512 and 88 has no room; what a segment leaves can be taken by others.
const SHARING: [Step; 12] = [
    Step::Adds(10, 256, true),
    Step::Adds(20, 256, true),
    Step::Leaves(2, 88),
    Step::Adds(30, 100, false),
    Step::Adds(30, 88, true),
    Step::Leaves(3, 0),
    Step::Limits(20, 0, 300, false),
    Step::Limits(20, 0, 200, true),
    Step::Adds(30, 1, false),
    Step::Removes(30, true),
    Step::Removes(30, false),
    Step::Leaves(2, 144),
];

#[test]
fn limits_share_the_pool(rt: HostRuntime) -> Result<(), Fail> {
    walk(&rt, rt.alloc(), 600, &SHARING)
}

/// As many segments may stand as have room: 300, each with limit 1.
#[test]
fn counts_300_segments(rt: HostRuntime) -> Result<(), Fail> {
    let mut tables = pool(rt.alloc(), 300)?;
    for number in 1..=300u16 {
        check(
            &rt,
            comes_of(&mut tables, Step::Adds(number, 1, true)),
            "a VID",
        );
    }
    check(&rt, comes_of(&mut tables, Step::Leaves(300, 0)), "the room");
    let next = Step::Adds(301, 1, false);
    check(&rt, comes_of(&mut tables, next), "a 301st segment");
    Ok(())
}

/// Segments 9 and 10, which stand, and 30, which comes and goes.
#[derive(Clone, Copy)]
struct Segments {
    nine: Vid,
    ten: Vid,
    thirty: Vid,
}

fn three_segments() -> Result<Segments, Fail> {
    Ok(Segments {
        nine: Vid::new(9).ok_or("VID 9")?,
        ten: Vid::new(10).ok_or("VID 10")?,
        thirty: Vid::new(30).ok_or("VID 30")?,
    })
}

/// A list for the one that comes, with limit 5.
fn fresh_list(alloc: Global, vid: Vid) -> Result<ListTables, AllocError> {
    let rules = [TableRule {
        vid,
        limit: 5,
        ageing: 10,
    }];
    ListTables::open(alloc, &rules)
}

/// Twelve calls, one in four of segment 9, one of 10 and two of 30: whether the pool answers as the lists do.
fn agree_in_a_round(
    (lists, fresh): (&mut ListTables, &mut ListTables),
    shared: &mut SharedTables,
    segments: &Segments,
    course: &mut Course,
) -> bool {
    for _call in 0..12u32 {
        course.go_on();
        let (now, call) = (course.now, course.call());
        let holds = match course.quarter() {
            0 => agree(lists, shared, segments.nine, now, call),
            1 => agree(lists, shared, segments.ten, now, call),
            _ => agree(fresh, shared, segments.thirty, now, call),
        };
        if !holds {
            return false;
        }
    }
    true
}

/// A segment comes and goes a thousand times while two others learn: they answer as lists do that know nothing of it,
/// and it answers as a fresh list each time.
#[test]
fn comes_and_goes_a_thousand_times(rt: HostRuntime) -> Result<(), Fail> {
    let segments = three_segments()?;
    let (mut lists, _shared) = opened(rt.alloc(), (7, 10), (10, 10))?;
    let mut shared = pool(rt.alloc(), 22)?;
    let added = add(&mut shared, rule(segments.nine, 7), 0)
        && add(&mut shared, rule(segments.ten, 10), 0);
    check(&rt, added, "the segments that stand");
    let mut course = Course::new();
    for round in 0..1_000 {
        let mut fresh = fresh_list(rt.alloc(), segments.thirty)?;
        let comes = add(&mut shared, rule(segments.thirty, 5), course.now);
        check_at(&rt, comes, "it comes in round", round);
        let holds = agree_in_a_round(
            (&mut lists, &mut fresh),
            &mut shared,
            &segments,
            &mut course,
        );
        check_at(&rt, holds, "the answers of round", round);
        let goes = remove(&mut shared, segments.thirty, course.now);
        check_at(&rt, goes, "it goes in round", round);
    }
    Ok(())
}
