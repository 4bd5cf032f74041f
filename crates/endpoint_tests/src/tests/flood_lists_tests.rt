//! Flood lists up to 512 entries and over the edge between 16 and 17; faults by their names.
use crate::tests::checks::{check, check_at};
use crate::tests::flood_lists_tests::Call::{Add, Remove};
use overlay::flood::{FloodFault, FloodList, NotThere, Own, Room};
use std::alloc::{AllocError, Global};
use std::test::Fail;
use wire::ip_udp::{Addr, Tunnel};

const FAULTS: [(FloodFault, &str); 5] = [
    (FloodFault::OutOfRange, "OutOfRange"),
    (FloodFault::NoFamily, "NoFamily"),
    (FloodFault::OwnAddress, "OwnAddress"),
    (FloodFault::AlreadyThere, "AlreadyThere"),
    (FloodFault::FloodFull, "FloodFull"),
];

fn is_named(alloc: Global, fault: FloodFault, name: &str) -> Result<bool, AllocError> {
    Ok(fault.to_string(alloc)?.as_str() == name)
}

#[test]
fn faults_print_their_names(rt: HostRuntime) -> Result<(), Fail> {
    for (fault, name) in &FAULTS {
        check(&rt, is_named(rt.alloc(), *fault, name)?, name);
    }
    let text = NotThere.to_string(rt.alloc())?;
    check(&rt, text.as_str() == "NotThere", "NotThere");
    Ok(())
}

/// The endpoint's own addresses.
const OWN: Own = Own {
    ip4: Some([192, 0, 2, 1]),
    ip6: None,
};

/// A limit that is more than any list holds.
const BEYOND: u16 = 600;

/// The address 10.0.0.0 and so many behind it.
fn addr(number: u16) -> Addr {
    let [high, low] = number.to_be_bytes();
    Addr::V4([10, 0, high, low])
}

/// A list, and the room beside it while the list hasn't taken it.
#[derive(Drop)]
struct ListWithRoom {
    flood: FloodList,
    room: Option<Room>,
}

/// An empty list with a room beside it.
fn opened(alloc: Global) -> Result<ListWithRoom, AllocError> {
    Ok(ListWithRoom {
        flood: FloodList::new(),
        room: Some(Room::new(alloc)?),
    })
}

/// Adds the entry of a number, by a limit. A list of 16 without a room, which none here is, takes nothing.
fn add(held: &mut ListWithRoom, number: u16, most: u16) -> Result<(), FloodFault> {
    if held.flood.targets().len() == 16 && held.room.is_none() {
        return Err(FloodFault::FloodFull);
    }
    held.flood
        .add(Tunnel::Vxlan, addr(number), &OWN, most, &mut held.room)
}

/// Removes the entry of a number; whether it was there. What room comes back lies beside the list.
fn remove(held: &mut ListWithRoom, number: u16) -> bool {
    match held.flood.remove(Tunnel::Vxlan, addr(number)) {
        Ok(Some(room)) => {
            held.room = Some(room);
            true
        }
        Ok(None) => true,
        Err(_) => false,
    }
}

/// Adds the entries of the numbers from 1 to this one; whether each was taken.
fn fill(held: &mut ListWithRoom, last: u16) -> bool {
    for index in 0..last {
        if add(held, index.saturating_add(1), BEYOND).is_err() {
            return false;
        }
    }
    true
}

/// Whether the list's entries are those of these numbers, in this order.
fn is_listed(flood: &FloodList, numbers: &[u16]) -> bool {
    let targets = flood.targets();
    if targets.len() != numbers.len() {
        return false;
    }
    for (target, number) in targets.iter().zip(numbers.iter()) {
        if target.addr != addr(*number) {
            return false;
        }
    }
    true
}

/// What is done with the entry of a number.
#[derive(Clone, Copy)]
enum Call {
    Add(u16),
    Remove(u16),
}

/// Makes a call; whether the list took the entry, or had it.
fn makes(held: &mut ListWithRoom, call: Call) -> bool {
    match call {
        Add(number) => add(held, number, BEYOND).is_ok(),
        Remove(number) => remove(held, number),
    }
}

/// Calls of a list of the entries 1 to 16, each with whether the room lies beside the list then.
const OVER_THE_EDGE: [(Call, bool); 9] = [
    (Add(17), false),
    (Add(18), false),
    (Remove(3), false),
    (Remove(1), true),
    (Add(19), false),
    (Remove(10), true),
    (Remove(2), true),
    (Add(20), true),
    (Add(1), false),
];

/// The entries behind these calls.
const BEHIND_THEM: [u16; 17] = [4, 5, 6, 7, 8, 9, 11, 12, 13, 14, 15, 16, 17, 18, 19, 20, 1];

#[test]
fn a_room_comes_and_goes_with_the_17th_entry(rt: HostRuntime) -> Result<(), Fail> {
    let mut held = opened(rt.alloc())?;
    check(&rt, fill(&mut held, 16), "1 to 16");
    check(&rt, held.room.is_some(), "the room beside 16");
    for (number, (made, is_beside)) in OVER_THE_EDGE.iter().enumerate() {
        check_at(&rt, makes(&mut held, *made), "call", number);
        check_at(&rt, held.room.is_some() == *is_beside, "room", number);
    }
    check(
        &rt,
        is_listed(&held.flood, &BEHIND_THEM),
        "the entries' order",
    );
    Ok(())
}

/// Whether a list takes 512 entries, and a 513th only where another goes.
fn takes_512(held: &mut ListWithRoom) -> bool {
    fill(held, 512)
        && add(held, 513, BEYOND) == Err(FloodFault::FloodFull)
        && add(held, 512, BEYOND) == Err(FloodFault::AlreadyThere)
        && held.flood.targets().len() == 512
        && remove(held, 256)
        && add(held, 513, BEYOND).is_ok()
        && add(held, 256, BEYOND) == Err(FloodFault::FloodFull)
}

/// Whether the entries are those of 1 to 513 in their order, but not that of 256.
fn are_all_but_256(flood: &FloodList) -> bool {
    let mut number: u16 = 0;
    for target in flood.targets() {
        number = number.saturating_add(if number == 255 { 2 } else { 1 });
        if target.addr != addr(number) {
            return false;
        }
    }
    number == 513
}

#[test]
fn a_list_of_512_takes_none_more(rt: HostRuntime) -> Result<(), Fail> {
    let mut held = opened(rt.alloc())?;
    check(&rt, takes_512(&mut held), "512 entries");
    check(&rt, are_all_but_256(&held.flood), "the entries' order");
    Ok(())
}

/// Whether a list takes as many entries as its limit says, and then none more.
fn takes_its_limit(held: &mut ListWithRoom, most: u16) -> bool {
    fill(held, most.saturating_sub(1))
        && add(held, most, most).is_ok()
        && add(held, most.saturating_add(1), most) == Err(FloodFault::FloodFull)
}

#[test]
fn a_list_takes_as_many_as_its_limit_says(rt: HostRuntime) -> Result<(), Fail> {
    for most in &[1, 15, 16, 17, 511, 512] {
        let mut held = opened(rt.alloc())?;
        check_at(
            &rt,
            takes_its_limit(&mut held, *most),
            "limit",
            usize::from(*most),
        );
    }
    Ok(())
}
