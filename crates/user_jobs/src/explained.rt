//! Packets of the underlay taken apart.

use crate::digest::Digest;
use crate::draws::Draws;
use crate::fault::{JobFault, Stage};
use crate::packets::{Bodies, Body, EVERYBODY, Tunnel, body_of, head_of, station};
use crate::tape::Tape;
use crate::traffic::{FIRST_VNI, SEGMENTS, switch_settings};
use explanation::{Values, explain_bytes};
use std::alloc::{AllocError, Global};

/// The layers of captures' packets, one to five tunnels deep, some of them broken: twice with the values of the headers, and
/// then of other packets without them.
pub fn explained(
    alloc: Global,
    digest: &mut Digest,
    draws: Draws,
    rounds: u32,
    packets: u32,
) -> Result<(), JobFault> {
    let settings = switch_settings(alloc, 200)?;
    let mut draws = draws;
    let bodies = Bodies::new(alloc, &mut draws)?;
    let mut tape = Tape::new(
        alloc,
        (packets as usize)
            .saturating_mul(700)
            .saturating_add(100_000),
    )?;
    for _round in 0..rounds {
        for values in [Values::Shown, Values::Shown, Values::Hidden] {
            put_packets(alloc, &mut tape, &mut draws, &bodies, packets)?;
            match explain_bytes(alloc, settings.as_bytes(), tape.text(), 4, values) {
                Ok(text) => digest.add(text.as_slice()),
                Err(_) => return Err(JobFault::Failed(Stage::Explanation)),
            }
        }
    }
    Ok(())
}

/// Begins a capture anew and puts so many packets.
fn put_packets(
    alloc: Global,
    tape: &mut Tape,
    draws: &mut Draws,
    bodies: &Bodies,
    packets: u32,
) -> Result<(), AllocError> {
    tape.begin_capture();
    for number in 0..packets {
        let mut packet = nested(alloc, draws, bodies)?;
        break_some(draws, &mut packet);
        tape.begin_record(u64::from(number).saturating_mul(10_000), packet.len());
        tape.put(packet.as_slice());
    }
    Ok(())
}

/// A packet of one to five tunnels.
fn nested(alloc: Global, draws: &mut Draws, bodies: &Bodies) -> Result<Vec<u8>, AllocError> {
    let segment = draws.below(SEGMENTS);
    let to = if draws.below(20) == 0 {
        EVERYBODY
    } else {
        station(segment, draws.below(100))
    };
    let from = station(segment, draws.below(100));
    // One tunnel is by far the most frequent.
    let depth = match draws.below(16) {
        0..=6 => 1,
        7..=9 => 2,
        10 | 11 => 3,
        12 | 13 => 4,
        _ => 5,
    };
    let body = bodies.at(draws.below(384));
    let mut packet = wrapped(alloc, draws, segment, to, from, body)?;
    for _tunnel in 1..depth {
        let (addresses, rest) = packet.as_slice().split_at(packet.len().min(12));
        let body = body_of(alloc, rest)?;
        let [a, b, c, d, e, f, g, h, i, j, k, l] = match addresses {
            [a, b, c, d, e, f, g, h, i, j, k, l] => [
                *a, *b, *c, *d, *e, *f, *g, *h, *i, *j, *k, *l,
            ],
            _ => [0; 12],
        };
        packet = wrapped(
            alloc,
            draws,
            segment,
            [a, b, c, d, e, f],
            [g, h, i, j, k, l],
            &body,
        )?;
    }
    Ok(packet)
}

/// A frame in a tunnel of a segment.
fn wrapped(
    alloc: Global,
    draws: &mut Draws,
    segment: u32,
    to: [u8; 6],
    from: [u8; 6],
    body: &Body,
) -> Result<Vec<u8>, AllocError> {
    let [low, high, options, remote, ..] = draws.word().to_le_bytes();
    let tunnel = Tunnel {
        is_geneve: segment % 2 == 1,
        vni: FIRST_VNI.saturating_add(segment),
        remote: (remote % 8).saturating_add(10),
        options: options % 4,
    };
    let [a, b, c, d, e, f] = to;
    let [g, h, i, j, k, l] = from;
    let mut room = [0; 160];
    let length = head_of(alloc, tunnel, 1)?.put(
        &mut room,
        &[a, b, c, d, e, f, g, h, i, j, k, l],
        body,
        u16::from_le_bytes([low, high]) | 0xC000,
        low % 2 == 0,
    );
    let mut packet = Vec::with_capacity(alloc, length.saturating_add(body.octets.len()))?;
    packet.extend_from_slice(room.as_slice().get(..length).unwrap_or(&[]))?;
    packet.extend_from_slice(body.octets.as_slice())?;
    Ok(packet)
}

/// Of twenty packets one is cut short, and one has an octet of its headers changed.
fn break_some(draws: &mut Draws, packet: &mut Vec<u8>) {
    let place = draws.below(80) as usize;
    match draws.below(20) {
        0 => packet.truncate(place.saturating_add(14)),
        1 => {
            let octet = draws.octet();
            if let Some(there) = packet.as_mut_slice().get_mut(place) {
                *there = octet;
            }
        }
        _ => {}
    }
}
