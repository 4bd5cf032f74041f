//! Steps of flood lists: up to their limit and not beyond, down again, and away with their segment.
use crate::events::{broadcast, remote};
use crate::steps::later;
use endpoint_core::{Change, ChangeFault, Endpoint, Outlets};
use overlay_config::TimedChange;
use wire::ether::Vid;

/// How many remotes each list may have, by the settings.
const MOST: u8 = 40;

/// How many the list of the settings has.
const TOLD: u8 = 18;

/// How many are taken from a full list, so that 10 are left.
const TAKEN: u8 = 30;

/// How often two lists fill up, shrink and go.
const ROUNDS: u16 = 50;

/// A segment, the port that its frames come in at, and the changes that it comes by.
#[derive(Drop)]
struct Inlet<'a> {
    vid: Vid,
    /// Its VID's last octet.
    octet: u8,
    port: u8,
    coming: &'a [TimedChange],
}

/// A change is asked for a second later.
fn asked(endpoint: &mut Endpoint, change: Change) -> Result<(), ChangeFault> {
    let now = later(endpoint);
    endpoint.change(now, change)
}

/// A remote is added to a segment's flood list.
fn add(endpoint: &mut Endpoint, vid: Vid, last: u8) -> Result<(), ChangeFault> {
    let change = Change::AddFlood {
        vid,
        addr: remote(last),
        tunnel: None,
    };
    asked(endpoint, change)
}

/// A remote is taken from it.
fn remove(endpoint: &mut Endpoint, vid: Vid, last: u8) -> Result<(), ChangeFault> {
    let change = Change::RemoveFlood {
        vid,
        addr: remote(last),
        tunnel: None,
    };
    asked(endpoint, change)
}

/// Whether each of the remotes behind one number up to another is added.
fn adds(endpoint: &mut Endpoint, vid: Vid, before: u8, last: u8) -> bool {
    for index in before..last {
        if add(endpoint, vid, index.wrapping_add(1)).is_err() {
            return false;
        }
    }
    true
}

/// Whether the first remotes are taken, so many.
fn removes(endpoint: &mut Endpoint, vid: Vid, count: u8) -> bool {
    for index in 0..count {
        if remove(endpoint, vid, index.wrapping_add(1)).is_err() {
            return false;
        }
    }
    true
}

/// Whether a list takes none beyond its most.
fn is_full(endpoint: &mut Endpoint, vid: Vid) -> bool {
    add(endpoint, vid, MOST + 1) == Err(ChangeFault::FloodFull)
}

/// By how many places a frame to everybody leaves that comes in at a segment's port a second later.
fn reached(endpoint: &mut Endpoint, inlet: &Inlet, places: &mut Outlets) -> usize {
    let octets = broadcast(inlet.octet);
    if inlet.port == 0 || inlet.port > endpoint.ports() {
        return 0;
    }
    let now = later(endpoint);
    let _forwarding = endpoint.take_frame(now, inlet.port, 18, &octets, places);
    places.as_slice().len()
}

/// Whether a list that has the first remotes fills up, none beyond them is added, and a frame leaves by all remotes and by so
/// many ports.
fn fills(
    endpoint: &mut Endpoint,
    inlet: &Inlet,
    first: u8,
    ports: u8,
    places: &mut Outlets,
) -> bool {
    adds(endpoint, inlet.vid, first, MOST)
        && is_full(endpoint, inlet.vid)
        && reached(endpoint, inlet, places) == usize::from(MOST) + usize::from(ports)
}

/// Whether changes are made, one after another.
fn makes(endpoint: &mut Endpoint, changes: &[TimedChange]) -> bool {
    for timed in changes {
        if asked(endpoint, timed.change).is_err() {
            return false;
        }
    }
    true
}

/// Whether a segment goes.
fn goes(endpoint: &mut Endpoint, vid: Vid) -> bool {
    asked(endpoint, Change::RemoveSegment { vid }).is_ok()
}

/// Whether a segment comes, and its list fills up.
fn comes(endpoint: &mut Endpoint, inlet: &Inlet, places: &mut Outlets) -> bool {
    makes(endpoint, inlet.coming) && fills(endpoint, inlet, 0, 0, places)
}

/// Whether 10 of a full list are left, and a frame leaves by them.
fn shrinks(endpoint: &mut Endpoint, inlet: &Inlet, places: &mut Outlets) -> bool {
    removes(endpoint, inlet.vid, TAKEN)
        && reached(endpoint, inlet, places) == usize::from(MOST - TAKEN)
}

/// Whether the remotes that were taken are added again, none beyond them, and a frame leaves by all.
fn grows(endpoint: &mut Endpoint, inlet: &Inlet, places: &mut Outlets) -> bool {
    adds(endpoint, inlet.vid, 0, TAKEN)
        && is_full(endpoint, inlet.vid)
        && reached(endpoint, inlet, places) == usize::from(MOST)
}

/// Whether two segments come and fill up, the first one shrinks and the second one goes, comes again and fills up, the first one
/// grows again, and both go.
fn round(endpoint: &mut Endpoint, first: &Inlet, second: &Inlet, places: &mut Outlets) -> bool {
    comes(endpoint, first, places)
        && comes(endpoint, second, places)
        && shrinks(endpoint, first, places)
        && goes(endpoint, second.vid)
        && comes(endpoint, second, places)
        && grows(endpoint, first, places)
        && goes(endpoint, first.vid)
        && goes(endpoint, second.vid)
}

/// So many rounds.
fn rounds(endpoint: &mut Endpoint, first: &Inlet, second: &Inlet, places: &mut Outlets) -> bool {
    for _ in 0..ROUNDS {
        if !round(endpoint, first, second, places) {
            return false;
        }
    }
    true
}

/// The segment of a VID, with a port, and the changes that it comes by.
fn inlet_of<'a>(octet: u8, port: u8, coming: &'a [TimedChange]) -> Option<Inlet<'a>> {
    let vid = Vid::new(u16::from(octet))?;
    Some(Inlet {
        vid,
        octet,
        port,
        coming,
    })
}

/// Fills the list of the settings up, has its segment go, and goes on in rounds with two segments that come by these changes.
/// Whether each step was answered as it should be.
pub(crate) fn are_taken(
    endpoint: &mut Endpoint,
    ten: &[TimedChange],
    twenty: &[TimedChange],
) -> bool {
    let Some(first) = inlet_of(10, 1, ten) else {
        return false;
    };
    let Some(second) = inlet_of(20, 2, twenty) else {
        return false;
    };
    let mut places = Outlets::new();
    fills(endpoint, &first, TOLD, 2, &mut places)
        && goes(endpoint, first.vid)
        && rounds(endpoint, &first, &second, &mut places)
}
