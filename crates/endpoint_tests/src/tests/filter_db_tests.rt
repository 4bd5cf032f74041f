//! Calls of the tables of two segments, answered by both bodies of the trait: a list for each segment, and one pool of
//! slots.
use crate::tests::calls::{
    ABSENT, AT_PORT_1, AT_PORT_2, Answer, Call, FIXED, GENEVE_2, NEW, PORT_1, PORT_2, SECOND,
    VXLAN_2, call_on, opened,
};
use crate::tests::checks::check_at;
use filter_db::{Learned, NotThere, TableFull, Tables};
use std::alloc::Global;
use std::process::Abort;
use std::test::Fail;
use wire::ether::Vid;

const REFRESHED: Answer = Answer::Learned(Learned::Refreshed);

const MOVED: Answer = Answer::Learned(Learned::Moved);

const FULL: Answer = Answer::Learned(Learned::Full);

const STAYS_FIXED: Answer = Answer::Learned(Learned::Fixed);

const NO_ROOM: Answer = Answer::Fixed(Err(TableFull));

const UNFIXED: Answer = Answer::Unfixed(Ok(()));

const NOT_THERE: Answer = Answer::Unfixed(Err(NotThere));

const AT_VXLAN_2: Answer = Answer::Stands(Some(VXLAN_2));

const AT_GENEVE_2: Answer = Answer::Stands(Some(GENEVE_2));

const LIVE_0: Answer = Answer::Count(0);

const LIVE_1: Answer = Answer::Count(1);

const DONE: Answer = Answer::Done;

/// Calls of tables that are opened with this limit and ageing for VID 9 and VID 10: a VID, a moment, a call and its
/// answer each.
struct Run {
    name: &'static str,
    limit: u32,
    ageing: u32,
    calls: &'static [(u16, u64, Call, Answer)],
}

/// Asks both bodies for the answers of runs.
fn answer(rt: &impl Abort, alloc: Global, runs: &[Run]) -> Result<(), Fail> {
    for run in runs {
        let (limits, ageings) = ((run.limit, run.limit), (run.ageing, run.ageing));
        let (mut lists, mut shared) = opened(alloc, limits, ageings)?;
        for (number, told) in run.calls.iter().enumerate() {
            check_at(rt, is_answered(&mut lists, told), run.name, number);
            check_at(rt, is_answered(&mut shared, told), run.name, number);
        }
    }
    Ok(())
}

/// Whether tables answer a call so.
fn is_answered<T: Tables>(tables: &mut T, told: &(u16, u64, Call, Answer)) -> bool {
    let (number, now, call, wanted) = *told;
    match Vid::new(number) {
        Some(vid) => call_on(tables, vid, now, call) == wanted,
        None => false,
    }
}

const AGEING: [Run; 3] = [
    Run {
        name: "ageing 300",
        limit: 8,
        ageing: 300,
        calls: &[
            (10, 0, Call::Learn(1, PORT_1), NEW),
            (10, 299_999_999_999, Call::Look(1), AT_PORT_1),
            (10, 300 * SECOND, Call::Look(1), ABSENT),
            (10, 299_999_999_999, Call::Live, LIVE_1),
            (10, 300 * SECOND, Call::Live, LIVE_0),
        ],
    },
    Run {
        name: "ageing 10",
        limit: 8,
        ageing: 10,
        calls: &[
            (10, 0, Call::Learn(2, PORT_2), NEW),
            (10, 9_999_999_999, Call::Look(2), AT_PORT_2),
            (10, 10_000_000_000, Call::Look(2), ABSENT),
            (10, 5 * SECOND, Call::Learn(2, PORT_2), REFRESHED),
            (10, 14_999_999_999, Call::Look(2), AT_PORT_2),
            (10, 15 * SECOND, Call::Learn(2, PORT_1), NEW),
        ],
    },
    Run {
        name: "ageing raised",
        limit: 8,
        ageing: 10,
        calls: &[
            (10, 0, Call::Learn(2, PORT_2), NEW),
            (10, 15 * SECOND, Call::Learn(3, PORT_2), NEW),
            (10, 20 * SECOND, Call::SetAgeing(300), DONE),
            (10, 20 * SECOND, Call::Look(2), ABSENT),
            (10, 20 * SECOND, Call::Live, LIVE_1),
            (10, 314 * SECOND, Call::Look(3), AT_PORT_2),
            (10, 314 * SECOND, Call::SetAgeing(10), DONE),
            (10, 314 * SECOND, Call::Live, LIVE_0),
        ],
    },
];

#[test]
fn forgets_at_the_ageing(rt: HostRuntime) -> Result<(), Fail> {
    answer(&rt, rt.alloc(), &AGEING)
}

const LIMITS: [Run; 2] = [
    Run {
        name: "limit 2",
        limit: 2,
        ageing: 10,
        calls: &[
            (10, 0, Call::Learn(1, PORT_1), NEW),
            (10, SECOND, Call::Learn(2, PORT_1), NEW),
            (10, 2 * SECOND, Call::Learn(3, PORT_2), FULL),
            (10, 2 * SECOND, Call::Fix(3, PORT_2), NO_ROOM),
            (10, 2 * SECOND, Call::Look(3), ABSENT),
            (10, 3 * SECOND, Call::Learn(2, PORT_1), REFRESHED),
            (10, 10 * SECOND, Call::Learn(3, PORT_2), NEW),
            (10, 10 * SECOND, Call::Look(1), ABSENT),
            (10, 10 * SECOND, Call::Fix(2, PORT_1), FIXED),
            (10, 20 * SECOND, Call::Live, LIVE_1),
        ],
    },
    Run {
        name: "limit 1 of two segments",
        limit: 1,
        ageing: 10,
        calls: &[
            (10, 0, Call::Learn(1, PORT_1), NEW),
            (9, 0, Call::Learn(2, PORT_1), NEW),
            (9, 0, Call::Learn(1, PORT_1), FULL),
            (10, 0, Call::Learn(1, PORT_1), REFRESHED),
            (9, 0, Call::Look(1), ABSENT),
        ],
    },
];

#[test]
fn keeps_to_its_limit(rt: HostRuntime) -> Result<(), Fail> {
    answer(&rt, rt.alloc(), &LIMITS)
}

const APART: [Run; 2] = [
    Run {
        name: "two segments",
        limit: 8,
        ageing: 300,
        calls: &[
            (9, 0, Call::Learn(1, PORT_1), NEW),
            (10, 0, Call::Learn(1, VXLAN_2), NEW),
            (9, 0, Call::Look(1), AT_PORT_1),
            (10, 0, Call::Look(1), AT_VXLAN_2),
            (9, SECOND, Call::Flush, DONE),
            (9, SECOND, Call::Look(1), ABSENT),
            (10, SECOND, Call::Look(1), AT_VXLAN_2),
        ],
    },
    Run {
        name: "places",
        limit: 8,
        ageing: 300,
        calls: &[
            (10, 0, Call::Learn(1, VXLAN_2), NEW),
            (10, 0, Call::Learn(1, GENEVE_2), MOVED),
            (10, 0, Call::Learn(2, VXLAN_2), NEW),
            (10, 0, Call::Learn(3, PORT_1), NEW),
            (10, 0, Call::Fix(4, VXLAN_2), FIXED),
            (10, 0, Call::FlushPlace(VXLAN_2), DONE),
            (10, 0, Call::Look(1), AT_GENEVE_2),
            (10, 0, Call::Look(2), ABSENT),
            (10, 0, Call::Look(3), AT_PORT_1),
            (10, 0, Call::Look(4), AT_VXLAN_2),
        ],
    },
];

#[test]
fn keeps_segments_and_places_apart(rt: HostRuntime) -> Result<(), Fail> {
    answer(&rt, rt.alloc(), &APART)
}

const FIXED_ENTRIES: [Run; 1] = [Run {
    name: "fixed",
    limit: 8,
    ageing: 10,
    calls: &[
        (10, 0, Call::Learn(1, PORT_1), NEW),
        (10, 0, Call::Unfix(1), NOT_THERE),
        (10, 0, Call::Look(1), AT_PORT_1),
        (10, 0, Call::Fix(1, PORT_2), FIXED),
        (10, 0, Call::Learn(1, PORT_1), STAYS_FIXED),
        (10, 0, Call::Look(1), AT_PORT_2),
        (10, 0, Call::Flush, DONE),
        (10, 1_000_000 * SECOND, Call::Look(1), AT_PORT_2),
        (10, 1_000_000 * SECOND, Call::Unfix(1), UNFIXED),
        (10, 1_000_000 * SECOND, Call::Unfix(1), NOT_THERE),
        (10, 1_000_000 * SECOND, Call::Look(1), ABSENT),
    ],
}];

#[test]
fn leaves_fixed_entries_alone(rt: HostRuntime) -> Result<(), Fail> {
    answer(&rt, rt.alloc(), &FIXED_ENTRIES)
}
