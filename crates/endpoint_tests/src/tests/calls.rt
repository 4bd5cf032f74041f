//! Calls of tables, and what they answer.
ghost use Rattle.std.specs.Prelude.{◌≡◌, ◌≤◌, IfOk};
ghost use Rattle.filter_db.specs.Segment.{IsRule};

use filter_db::{Learned, ListTables, NotThere, Place, PoolTables, TableFull, TableRule, Tables};
use shared_tables::SharedTables;
use std::alloc::Global;
use std::test::Fail;
use wire::ether::{Mac, Vid};
use wire::ip_udp::{Addr, Tunnel};

pub(crate) const SECOND: u64 = 1_000_000_000;

pub(crate) const PORT_1: Place = Place::Local(1);

pub(crate) const PORT_2: Place = Place::Local(2);

pub(crate) const PORT_3: Place = Place::Local(3);

pub(crate) const VXLAN_2: Place = Place::Remote(Tunnel::Vxlan, Addr::V4([192, 0, 2, 2]));

pub(crate) const GENEVE_2: Place = Place::Remote(Tunnel::Geneve, Addr::V4([192, 0, 2, 2]));

/// A call. An address is told by its last octet.
#[derive(Clone, Copy)]
pub(crate) enum Call {
    Look(u8),
    Learn(u8, Place),
    Fix(u8, Place),
    Unfix(u8),
    FlushPlace(Place),
    Flush,
    SetAgeing(u32),
    Live,
}

/// What a call answers; Out where it isn't for a segment, comes too early or is out of range.
#[derive(Clone, Copy, PartialEq, Eq)]
pub(crate) enum Answer {
    Stands(Option<Place>),
    Learned(Learned),
    Fixed(Result<(), TableFull>),
    Unfixed(Result<(), NotThere>),
    Count(u32),
    Done,
    Out,
}

pub(crate) const NEW: Answer = Answer::Learned(Learned::New);

pub(crate) const FIXED: Answer = Answer::Fixed(Ok(()));

pub(crate) const ABSENT: Answer = Answer::Stands(None);

pub(crate) const AT_PORT_1: Answer = Answer::Stands(Some(PORT_1));

pub(crate) const AT_PORT_2: Answer = Answer::Stands(Some(PORT_2));

/// The address 02-00-00-00-00 and this octet.
pub(crate) fn mac(last: u8) -> Mac {
    Mac([0x02, 0, 0, 0, 0, last])
}

/// What tables answer to a call at a moment.
pub(crate) fn call_on<T: Tables>(tables: &mut T, vid: Vid, now: u64, call: Call) -> Answer {
    if !tables.has(vid) || now < tables.now() {
        return Answer::Out;
    }
    match call {
        Call::Look(last) => Answer::Stands(tables.look(vid, mac(last), now)),
        Call::Learn(last, place) => Answer::Learned(tables.learn(vid, mac(last), place, now)),
        Call::Fix(last, place) => Answer::Fixed(tables.fix(vid, mac(last), place, now)),
        Call::Unfix(last) => Answer::Unfixed(tables.unfix(vid, mac(last), now)),
        Call::FlushPlace(place) => {
            tables.flush_place(vid, place, now);
            Answer::Done
        }
        Call::Flush => {
            tables.flush(vid, now);
            Answer::Done
        }
        Call::SetAgeing(seconds) => {
            if seconds < 10 || seconds > 1_000_000 {
                return Answer::Out;
            }
            tables.set_ageing(vid, seconds, now);
            Answer::Done
        }
        Call::Live => Answer::Count(tables.live(vid, now)),
    }
}

/// Adds a segment; false where it is there, comes too early or is out of range, or there is no room.
pub(crate) fn add<T: PoolTables>(tables: &mut T, rule: TableRule, now: u64) -> bool {
    let in_range = rule.limit >= 1
        && rule.limit <= 8192
        && rule.ageing >= 10
        && rule.ageing <= 1_000_000;
    if tables.has(rule.vid) || now < tables.now() || !in_range {
        return false;
    }
    if rule.limit > tables.room() {
        return false;
    }
    tables.add(rule, now);
    true
}

/// Removes a segment; false where it isn't there, or the call comes too early.
pub(crate) fn remove<T: PoolTables>(tables: &mut T, vid: Vid, now: u64) -> bool {
    if !tables.has(vid) || now < tables.now() {
        return false;
    }
    tables.remove(vid, now);
    true
}

/// Gives a segment another limit; false where it isn't there, comes too early or is out of range, or there is no room.
pub(crate) fn set_limit<T: PoolTables>(tables: &mut T, vid: Vid, limit: u32, now: u64) -> bool {
    if !tables.has(vid) || now < tables.now() || limit < 1 || limit > 8192 {
        return false;
    }
    let room = u64::from(tables.room()) + u64::from(tables.limit(vid));
    if u64::from(limit) > room {
        return false;
    }
    tables.set_limit(vid, limit, now);
    true
}

/// The rule of a segment, which must be in range.
fn rule_of(vid: Vid, limit: u32, ageing: u32) -> Result<TableRule, Fail>
    ensures in_range { IfOk result IsRule }
    ensures vid { IfOk result (λ rule. rule.vid ≡ vid) }
    ensures limit { IfOk result (λ rule. rule.limit ≡ limit) }
    ensures most { IfOk result (λ rule. rule.limit ≤ 8192) }
{
    if limit < 1 || limit > 8192 || ageing < 10 || ageing > 1_000_000 {
        return Err(Fail::new("a limit or an ageing out of range"));
    }
    Ok(TableRule { vid, limit, ageing })
}

/// Both bodies of the trait, opened for VID 9 and VID 10, each with a limit and an ageing; the pool has room for no more.
pub(crate) fn opened(
    alloc: Global,
    (nine, ten): (u32, u32),
    ageings: (u32, u32),
) -> Result<(ListTables, SharedTables), Fail> {
    let rules = [
        rule_of(Vid::new(9).ok_or("VID 9")?, nine, ageings.0)?,
        rule_of(Vid::new(10).ok_or("VID 10")?, ten, ageings.1)?,
    ];
    let lists = ListTables::open(alloc, &rules)?;
    let shared = SharedTables::open(alloc, &rules, nine + ten)?;
    Ok((lists, shared))
}

/// Whether two tables answer the same to a call, which isn't out of place.
pub(crate) fn agree<S: Tables, T: Tables>(
    one: &mut S,
    other: &mut T,
    vid: Vid,
    now: u64,
    call: Call,
) -> bool {
    let wanted = call_on(one, vid, now, call);
    wanted != Answer::Out && call_on(other, vid, now, call) == wanted
}

/// A course of calls, told by the numbers of a linear congruential sequence. Moments never go back.
#[derive(Drop)]
pub(crate) struct Course {
    number: u64,
    pub(crate) now: u64,
}

impl Course {
    pub(crate) fn new() -> Course {
        Course { number: 1, now: 0 }
    }

    /// Goes on to the next call.
    pub(crate) fn go_on(&mut self) {
        self.number = self
            .number
            .wrapping_mul(6_364_136_223_846_793_005)
            .wrapping_add(1_442_695_040_888_963_407);
        self.now = self
            .now
            .saturating_add((self.number >> 34) % 4 * 500_000_000);
    }

    /// Which of four segments is called.
    pub(crate) fn quarter(&self) -> u64 {
        (self.number >> 5) % 4
    }

    pub(crate) fn call(&self) -> Call {
        call_of(self.number)
    }
}

/// The place that a number tells.
fn place_of(number: u64) -> Place {
    match number % 5 {
        0 => VXLAN_2,
        1 => GENEVE_2,
        2 => PORT_1,
        3 => PORT_2,
        _ => PORT_3,
    }
}

/// The call that a number tells.
fn call_of(number: u64) -> Call {
    let last = ((number >> 16) % 12) as u8;
    let place = place_of(number >> 24);
    match (number >> 40) % 20 {
        0..=7 => Call::Learn(last, place),
        8..=12 => Call::Look(last),
        13..=14 => Call::Fix(last, place),
        15 => Call::Unfix(last),
        16 => Call::FlushPlace(place),
        17 if (number >> 50) % 8 == 0 => Call::Flush,
        18 => Call::SetAgeing(10 + ((number >> 50) % 5) as u32 * 5),
        _ => Call::Live,
    }
}
