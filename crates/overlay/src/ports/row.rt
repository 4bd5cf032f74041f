//! What is asked of each port where a frame is flooded.
ghost use Rattle.std.specs.Prelude.{◌≡◌, ◌≤◌, length};
ghost use Rattle.overlay.specs.Row.{is_up, member_ports, serves};

use crate::ports::{PortRule, Walk, words};
use std::marker::Model;
use wire::ether::Vid;

/// The ports, and the members of a segment, where there is one. It is taken once for all ports that are asked.
#[derive(Debug, Drop)]
pub struct Row<'s> {
    /// Port 1 stands first.
    pub(crate) ports: &'s [PortRule],
    pub(crate) words: &'s [u64],
    pub(crate) vid: Vid,
}

impl<'s> Model for Row<'s> {
    ghost use Rattle.std.specs.Prelude.{◌≤◌, ◌<◌, ◌+◌, ◌*◌, ◌/◌, length};
    ghost use Rattle.overlay.specs.Row.{Row};
    ghost use Rattle.overlay.specs.PortsCode.{row_code};
    ghost use Rattle.overlay.specs.Bits.{segment_in};

    ghost Value = { Row };

    ghost coded = { row_code };

    ghost view = { λ r. record { ports = r.ports.now; members = segment_in (length r.ports.now) r.words.now r.vid } };

    ghost invariant = { λ r. (length r.ports.now ≤ 255) × ((length r.ports.now / 64 + 1) * 8192 ≤ length r.words.now) × (r.vid < 4096) };
}

impl<'s> Row<'s> {
    /// Whether a port is up. The port is 1 to how many there are.
    #[inline(always)]
    pub fn is_up(&self, port: u8) -> bool
        requires low { 1 ≤ port }
        requires high { port ≤ length self.now.ports }
        ensures { result ≡ is_up self.now port }
    {
        self.ports[usize::from(port) - 1].up
    }

    /// Whether frames of the segment may leave by a port: the port is up, and a member. The port is 1 to how many there are.
    #[inline(always)]
    pub fn serves(&self, port: u8) -> bool
        requires low { 1 ≤ port }
        requires high { port ≤ length self.now.ports }
        ensures { result ≡ serves self.now port }
    {
        if !self.is_up(port) {
            return false;
        }
        if !words::stands(self.words, self.vid) {
            return false;
        }
        words::egress(self.words, self.vid, port).is_some()
    }

    /// A walk over the members, rising.
    #[inline(always)]
    pub fn members(&self) -> Walk<'s>
        ensures { result ≡ member_ports self.now }
    {
        let ports = if words::stands(self.words, self.vid) {
            self.ports.len() as u8
        } else {
            0
        };
        Walk::new(self.words, self.vid, ports)
    }
}
