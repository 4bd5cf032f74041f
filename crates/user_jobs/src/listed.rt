//! Runs over tables of stations that came in the order of their addresses and were seen again in no order, of which stories
//! and listings are asked.

use crate::devices::{open, open_all, run};
use crate::digest::Digest;
use crate::draws::Draws;
use crate::fault::JobFault;
use crate::packets::{Bodies, Body, Head, Tunnel, head_of, station};
use crate::traffic::Captures;
use crate::watched::add_told;
use pcapng_input::Selection;
use run_reports::{Onlooker, Reports};
use segment_set::SegmentSet;
use std::alloc::{AllocError, Global};
use std::fmt::Write;

/// How many stations the first tenant has, and each of the others.
const MANY: u32 = 8192;

const SOME: u32 = 1000;

/// How many tenants there are, of VIDs from this one on, and VNIs from that.
const TENANTS: u32 = 9;

const FIRST_VID: u32 = 10;

const FIRST_VNI: u32 = 5000;

/// How many stations all tenants have.
const STATIONS: u32 = 16_192;

/// How many ports there are, and how many remote endpoints.
const PORTS: usize = 4;

const REMOTES: u32 = 4;

/// Of how many events one asks why they came out as they did.
const NAMES: u32 = 256;

/// At how many moments one asks for the tables besides.
const MOMENTS: u32 = 4;

/// How many nanoseconds lie between two events.
const STEP: u64 = 1_000_000;

/// Runs of which stories and listings are asked: in each round one of stories, and some of listings at a moment.
pub fn listed(
    alloc: Global,
    digest: &mut Digest,
    draws: Draws,
    rounds: u32,
    events: u32,
) -> Result<(), JobFault> {
    let mut draws = draws;
    let bodies = Bodies::new(alloc, &mut draws)?;
    let heads = heads_of(alloc)?;
    let settings = tenant_settings(alloc)?;
    let mut captures = Captures::new(alloc, PORTS, events)?;
    let tenants = Tenants {
        bodies: &bodies,
        heads: heads.as_slice(),
    };
    for _round in 0..rounds {
        put_events(&mut captures, &mut draws, tenants, events);
        let names = names_text(alloc, &mut draws, events)?;
        let settings = settings.as_bytes();
        told_run(
            alloc,
            digest,
            &mut draws,
            settings,
            &captures,
            events,
            names.as_slice(),
        )?;
        for _moment in 0..MOMENTS {
            told_run(alloc, digest, &mut draws, settings, &captures, events, &[])?;
        }
    }
    Ok(())
}

/// A run of which the stories of these names are asked, and listings at a moment and at the end.
fn told_run(
    alloc: Global,
    digest: &mut Digest,
    draws: &mut Draws,
    settings: &[u8],
    captures: &Captures,
    events: u32,
    names: &[String],
) -> Result<(), JobFault> {
    let mut asked = Vec::new(alloc);
    for name in names {
        asked.push(name.as_str())?;
    }
    let segments = SegmentSet::all();
    let moment = moment_of(late_event(draws, events));
    let reports = Reports::new(alloc, asked.as_slice(), &[], &segments, Some(moment), true)?;
    let mut onlooker = Onlooker {
        reports,
        counts: None,
    };
    let ports = open_all(alloc, captures, PORTS, false)?;
    let underlay = open(alloc, captures.underlay(), Selection::All, false)?;
    run(alloc, digest, settings, &[], ports, underlay, &mut onlooker)?;
    add_told(digest, onlooker)
}

/// An event, from 0, of those by which stations are seen again; one of the second half where there are none.
fn late_event(draws: &mut Draws, events: u32) -> u32 {
    let early = if events > STATIONS {
        STATIONS
    } else {
        events / 2
    };
    early.saturating_add(draws.below(events.saturating_sub(early)))
}

/// The moment of the event of this number, from 0, in nanoseconds.
fn moment_of(event: u32) -> u64 {
    u64::from(event).saturating_mul(STEP)
}

/// How many stations a tenant has.
fn stations_of(tenant: u32) -> u32 {
    if tenant == 0 { MANY } else { SOME }
}

/// Settings of an endpoint whose tables hold all stations.
fn tenant_settings(alloc: Global) -> Result<String, AllocError> {
    let mut text = String::new(alloc);
    text.push_str("version = 1\n[underlay]\nmac = \"02:00:00:00:aa:01\"\n")?;
    text.push_str("next_hop = \"02:00:00:00:aa:fe\"\n")?;
    text.push_str("ip4 = \"192.0.2.1\"\nip6 = \"2001:db8::1\"\n")?;
    for _port in 0..PORTS {
        text.push_str("[[port]]\npvid = 1\n")?;
    }
    for tenant in 0..TENANTS {
        let vid = FIRST_VID.saturating_add(tenant);
        let vni = FIRST_VNI.saturating_add(tenant);
        let limit = stations_of(tenant);
        write!(
            text,
            "[[segment]]\nvid = {vid}\nvni = {vni}\ntunnel = \"vxlan\"\nlimit = {limit}\n"
        )?;
        text.push_str("tagged = [1, 2, 3, 4]\n")?;
        text.push_str("flood = [\"192.0.2.10\", \"2001:db8::b\"]\n")?;
    }
    Ok(text)
}

/// The heads of packets of each tenant from each remote endpoint.
fn heads_of(alloc: Global) -> Result<Vec<Head>, AllocError> {
    let mut heads = Vec::new(alloc);
    for tenant in 0..TENANTS {
        for remote in 10..10 + REMOTES as u8 {
            let tunnel = Tunnel {
                is_geneve: false,
                vni: FIRST_VNI.saturating_add(tenant),
                remote,
                options: 0,
            };
            heads.push(head_of(alloc, tunnel, 1)?)?;
        }
    }
    Ok(heads)
}

/// Of what the frames of tenants are made.
#[derive(Clone, Copy)]
struct Tenants<'a> {
    bodies: &'a Bodies,
    /// For each tenant and remote endpoint the head of a packet.
    heads: &'a [Head],
}

/// Begins captures anew and puts so many events: each station is heard once, tenant by tenant in the order of addresses, each
/// to one that came before it, and then stations in no order.
fn put_events(captures: &mut Captures, draws: &mut Draws, tenants: Tenants<'_>, events: u32) {
    captures.begin();
    for event in 0..events {
        let is_first = event < STATIONS;
        let place = if is_first {
            event
        } else {
            draws.below(STATIONS)
        };
        let (tenant, from) = tenant_of(place);
        let known = if is_first { from } else { stations_of(tenant) };
        let to = draws.below(known);
        let body = tenants.bodies.at(draws.below(224));
        let port = draws.below(16_384).wrapping_add(0xC000);
        let frame = Frame {
            tenant,
            from,
            to,
            port: u16::try_from(port).unwrap_or(0xC000),
        };
        put_frame(captures, tenants.heads, moment_of(event), frame, body);
    }
}

/// The tenant of a station by its number among all, and its number among the tenant's.
fn tenant_of(place: u32) -> (u32, u32) {
    if place < MANY {
        return (0, place);
    }
    let behind = place.saturating_sub(MANY);
    ((behind / SOME).saturating_add(1), behind % SOME)
}

/// A frame of a tenant, from one of its stations to another.
#[derive(Clone, Copy)]
struct Frame {
    tenant: u32,
    from: u32,
    to: u32,
    /// The source port of its packet, where it comes in one.
    port: u16,
}

/// Puts a frame: the lower half of eight homes are ports, the upper remote endpoints.
fn put_frame(captures: &mut Captures, heads: &[Head], moment: u64, frame: Frame, body: &Body) {
    let [a, b, c, d, e, f] = station(frame.tenant, frame.to);
    let [g, h, i, j, k, l] = station(frame.tenant, frame.from);
    let home = frame.from % 8;
    if home < 4 {
        let [high, low] = u16::try_from(FIRST_VID.saturating_add(frame.tenant))
            .unwrap_or(1)
            .to_be_bytes();
        let head = [a, b, c, d, e, f, g, h, i, j, k, l, 0x81, 0, high, low];
        captures.put(home as usize, moment, &head, body.octets.as_slice());
        return;
    }
    let number = frame
        .tenant
        .wrapping_mul(REMOTES)
        .wrapping_add(home.wrapping_sub(4));
    if let Some(head) = heads.get(number as usize) {
        let mut room = [0; 160];
        let addresses = [a, b, c, d, e, f, g, h, i, j, k, l];
        let length = head.put(&mut room, &addresses, body, frame.port, true);
        let head = room.as_slice().get(..length).unwrap_or(&[]);
        captures.put(PORTS, moment, head, body.octets.as_slice());
    }
}

/// Names of events, half of them by their number in the run and half by their source: one of eight comes at each port, and half
/// of them from the underlay.
fn names_text(alloc: Global, draws: &mut Draws, events: u32) -> Result<Vec<String>, AllocError> {
    let mut names = Vec::new(alloc);
    for name in 0..NAMES {
        let number = late_event(draws, events).saturating_add(1);
        let port = draws.below(4).saturating_add(1);
        let text = match name % 4 {
            0 | 2 => format!(in alloc; "{number}")?,
            1 => format!(in alloc; "p{port}:{}", number / 8)?,
            _ => format!(in alloc; "u:{}", number / 2)?,
        };
        names.push(text)?;
    }
    Ok(names)
}
