//! Runs: a switch's hour, addresses that were chosen to collide, and a whole switch in one file.

use crate::devices::{open, open_all, open_interfaces, run};
use crate::digest::Digest;
use crate::draws::Draws;
use crate::fault::JobFault;
use crate::packets::Bodies;
use crate::traffic::{Captures, PORTS, Traffic, switch_settings};
use pcapng_input::Selection;
use std::alloc::Global;
use stream_run::Unwatched;

/// How many stations a segment of a switch has.
const STATIONS: u32 = 100;

/// Hours of a switch, from a classic capture for each port and for the underlay.
pub fn switch_hours(
    alloc: Global,
    digest: &mut Digest,
    draws: Draws,
    rounds: u32,
    events: u32,
) -> Result<(), JobFault> {
    let settings = switch_settings(alloc, 200)?;
    let mut captures = Captures::new(alloc, PORTS, events)?;
    let mut traffic = Traffic::new(alloc, draws, STATIONS)?;
    for _round in 0..rounds {
        traffic.put(&mut captures, events);
        let ports = open_all(alloc, &captures, PORTS, false)?;
        let underlay = open(alloc, captures.underlay(), Selection::All, false)?;
        run(
            alloc,
            digest,
            settings.as_bytes(),
            &[],
            ports,
            underlay,
            &mut Unwatched,
        )?;
    }
    Ok(())
}

/// The same from one pcapng file each, of which each name reads its own interface.
pub fn one_file(
    alloc: Global,
    digest: &mut Digest,
    draws: Draws,
    rounds: u32,
    events: u32,
) -> Result<(), JobFault> {
    let settings = switch_settings(alloc, 200)?;
    let mut captures = Captures::in_one(alloc, events)?;
    let mut traffic = Traffic::new(alloc, draws, STATIONS)?;
    for _round in 0..rounds {
        traffic.put(&mut captures, events);
        let text = captures.text(0);
        let ports = open_interfaces(alloc, text, PORTS as u32)?;
        let underlay = open(alloc, text, Selection::Number(PORTS as u32), false)?;
        run(
            alloc,
            digest,
            settings.as_bytes(),
            &[],
            ports,
            underlay,
            &mut Unwatched,
        )?;
    }
    Ok(())
}

/// A segment of 8,192 stations at three ports.
const COLLIDING: &str =
    "version = 1\n[underlay]\nmac = \"02:00:00:00:aa:01\"\nnext_hop = \"02:00:00:00:aa:fe\"\n\
    ip4 = \"192.0.2.1\"\n[[port]]\npvid = 10\n[[port]]\npvid = 10\n[[port]]\npvid = 10\n\
    [[segment]]\nvid = 10\nvni = 5000\ntunnel = \"vxlan\"\nlimit = 8192\nuntagged = [1, 2, 3]\n";

/// The VID of that segment.
const VID: u16 = 10;

/// A tenant's stations whose addresses were chosen so that a table that sums the words of an address, and mixes it by a product,
/// finds all of them in one place.
pub fn colliding(
    alloc: Global,
    digest: &mut Digest,
    draws: Draws,
    rounds: u32,
    events: u32,
) -> Result<(), JobFault> {
    let mut draws = draws;
    let bodies = Bodies::new(alloc, &mut draws)?;
    let mut captures = Captures::new(alloc, 3, events)?;
    for _round in 0..rounds {
        let stations = colliding_stations(alloc, &mut draws, 8192)?;
        put_stations(
            &mut captures,
            &mut draws,
            &bodies,
            stations.as_slice(),
            events,
        );
        let ports = open_all(alloc, &captures, 3, false)?;
        let underlay = open(alloc, captures.underlay(), Selection::All, false)?;
        run(
            alloc,
            digest,
            COLLIDING.as_bytes(),
            &[],
            ports,
            underlay,
            &mut Unwatched,
        )?;
    }
    Ok(())
}

/// Begins captures anew and puts frames of these stations, each of which is heard once, and then all in no order.
fn put_stations(
    captures: &mut Captures,
    draws: &mut Draws,
    bodies: &Bodies,
    stations: &[[u8; 6]],
    events: u32,
) {
    captures.begin();
    let count = u32::try_from(stations.len()).unwrap_or(1);
    for event in 0..events {
        let [a, b, c, d, e, f] = address(stations, draws.below(count));
        let from = if event < count {
            event
        } else {
            draws.below(count)
        };
        let [g, h, i, j, k, l] = address(stations, from);
        let moment = u64::from(event).saturating_mul(1000);
        let head = [a, b, c, d, e, f, g, h, i, j, k, l];
        captures.put(
            from as usize % 3,
            moment,
            &head,
            bodies.at(0).octets.as_slice(),
        );
    }
}

/// The address of this number.
fn address(stations: &[[u8; 6]], number: u32) -> [u8; 6] {
    match stations.get(number as usize) {
        Some(address) => *address,
        None => [0; 6],
    }
}

/// So many addresses at most with one sum of words modulo 4,096 and one upper half octet of a product.
fn colliding_stations(
    alloc: Global,
    draws: &mut Draws,
    count: usize,
) -> Result<Vec<[u8; 6]>, JobFault> {
    let mut stations = Vec::new(alloc);
    let sum = draws.below(4096);
    let half = u64::from(draws.below(16));
    for _try in 0..4_000_000 {
        if stations.len() >= count {
            break;
        }
        let [a, b, c, d, ..] = draws.word().to_be_bytes();
        let a = a & 0xFC | 2;
        let first = u32::from(a) << 8 | u32::from(b);
        let second = u32::from(c) << 8 | u32::from(d);
        let known = first.wrapping_add(second).wrapping_add(u32::from(VID));
        let third = sum.wrapping_sub(known) % 4096 | draws.below(16) << 12;
        let [_, _, e, f] = third.to_be_bytes();
        let [high, low] = VID.to_be_bytes();
        let key = u64::from_be_bytes([high, low, a, b, c, d, e, f]);
        if key.wrapping_mul(0x9E37_79B9_7F4A_7C15) >> 60 == half {
            stations.push([a, b, c, d, e, f])?;
        }
    }
    Ok(stations)
}
