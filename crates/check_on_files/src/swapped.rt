//! Captures of a port and of the underlay that look swapped.
use decapsulate::ip_view;
use overlay::underlay::Underlay;
use overlay_config::settings_of;
use program_files::{is_read_once, open_capture};
use std::alloc::{AllocError, Global};
use std::fmt::{self, Write};
use std::io::Input;
use std::rt::Files;
use text_calls::tap_of;
use wire::ether::EtherView;
use wire::ip_udp::{UDP, UdpView};

/// How many records of a capture are looked at, at most.
const MOST_RECORDS: u32 = 1_000;

/// What the first records of a capture are.
#[derive(Clone, Copy)]
struct Looked {
    records: u32,
    /// How many of them are packets in a tunnel to the endpoint's own address.
    arriving: u32,
}

impl Looked {
    /// Whether most of them are.
    fn is_of_underlay(self) -> bool {
        self.records.saturating_sub(self.arriving) < self.arriving
    }
}

impl fmt::Display for Looked {
    fn fmt<W: fmt::Write>(&self, f: &mut fmt::Formatter<W>) -> fmt::Result {
        let records = self.records;
        let arriving = self.arriving;
        write!(f, "{arriving} of {records}")
    }
}

/// Lines, begun by two spaces, that tell which captures of ports look swapped with that of the underlay: most of the first
/// records of the one are packets in a tunnel to the endpoint's own address, and none of the other is. What can be read only
/// once isn't looked at.
pub(crate) fn swapped_lines<R: Files + Input + AllocGlobal>(
    rt: &R,
    settings: &[u8],
    underlay: &str,
    ports: &[&str],
) -> Result<String, AllocError> {
    let mut lines = String::new(rt.alloc());
    let Some(own) = underlay_of(rt.alloc(), settings) else {
        return Ok(lines);
    };
    let Some(outer) = look(rt, &own, underlay) else {
        return Ok(lines);
    };
    if outer.arriving > 0 {
        return Ok(lines);
    }
    for (index, name) in ports.iter().enumerate() {
        let Some(inner) = look(rt, &own, *name) else {
            continue;
        };
        if inner.is_of_underlay() {
            let tap = tap_of(index);
            writeln!(
                lines,
                "  {tap} and u look swapped: {inner} packets of {tap} are in a tunnel to this endpoint, {outer} of u"
            )?;
        }
    }
    Ok(lines)
}

/// The underlay of a settings text.
fn underlay_of(alloc: Global, settings: &[u8]) -> Option<Underlay> {
    match settings_of(alloc, settings) {
        Ok(settings) => Some(settings.into_parts().underlay),
        Err(_) => None,
    }
}

/// Looks at the first records of a capture, as far as they can be read.
fn look<R: Files + Input + AllocGlobal>(rt: &R, own: &Underlay, name: &str) -> Option<Looked> {
    if is_read_once(rt, name) {
        return None;
    }
    let Ok(mut capture) = open_capture(rt, name, false) else {
        return None;
    };
    let mut looked = Looked {
        records: 0,
        arriving: 0,
    };
    if capture.open().is_err() {
        return None;
    }
    for number in 0..MOST_RECORDS {
        if capture.fill().is_err() {
            return Some(looked);
        }
        let Some(record) = capture.head() else {
            return Some(looked);
        };
        looked.records = number + 1;
        if arrives(own, record.octets) {
            looked.arriving = looked.arriving.saturating_add(1);
        }
    }
    Some(looked)
}

/// Whether a packet goes to the endpoint's own address and a port of tunnels.
fn arrives(own: &Underlay, octets: &[u8]) -> bool {
    let Ok(frame) = EtherView::read(octets) else {
        return false;
    };
    let Ok(packet) = ip_view(frame.after_addresses()) else {
        return false;
    };
    if !own.is_own(packet.dst()) || packet.is_fragment() || packet.proto() != UDP {
        return false;
    }
    match UdpView::read(packet.payload()) {
        Ok(datagram) => own.kind_at(datagram.dport()).is_some(),
        Err(_) => false,
    }
}
