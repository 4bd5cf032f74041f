//! One segment's configuration, as its bridge sees it.
ghost use Rattle.std.specs.Prelude.{◌≡◌, ◌≤◌, IsTrue, length};
ghost use Rattle.tunnel_learning.specs.Bridge.{config_of, is_up_at, serves, group_of, in_one_group, is_shut};

use filter_db::Place;
use overlay::flood::FloodList;
use overlay::ports::PortSet;
use wire::ether::Vid;
use wire::ip_udp::Tunnel;

/// The configuration of one segment's bridge.
#[derive(Clone, Copy)]
pub struct Bridge<'s> {
    /// The segment.
    pub vid: Vid,
    /// Whether sources are learned.
    pub learning: bool,
    /// The horizon groups of the segment's VXLAN and Geneve tunnel, 0 for a kind that it lacks.
    pub groups: [u8; 2],
    /// The local ports, and the members of each segment.
    pub ports: &'s PortSet,
    /// The remotes that the segment floods to, in order.
    pub flood: &'s FloodList,
}

impl<'s> Bridge<'s> {
    /// Whether there is a local port of this number, and it is up.
    #[inline(always)]
    pub fn is_up(&self, port: u8) -> bool
        ensures value { result ≡ is_up_at (config_of self.now).up port }
        ensures there { IsTrue result → (1 ≤ port) × (port ≤ length self.now.ports.now.ports) }
    {
        if port == 0 || port > self.ports.ports() {
            return false;
        }
        self.ports.is_up(port)
    }

    /// Whether frames of the segment may leave by a local port: the port is up, and a member.
    fn serves(&self, port: u8) -> bool
        ensures { result ≡ serves (config_of self.now) port }
    {
        if !self.is_up(port) {
            return false;
        }
        self.ports.egress(self.vid, port).is_some()
    }

    /// The horizon group of the segment's tunnel of a kind.
    fn group_of(&self, kind: Tunnel) -> u8
        ensures { result ≡ group_of (config_of self.now) kind }
    {
        match kind {
            Tunnel::Vxlan => self.groups[0],
            Tunnel::Geneve => self.groups[1],
        }
    }

    /// Whether both places are remotes of one horizon group.
    pub fn in_one_group(&self, from: &Place, to: &Place) -> bool
        ensures { result ≡ in_one_group (config_of self.now) from.now to.now }
    {
        match (from, to) {
            (Place::Remote(one, _), Place::Remote(other, _)) => {
                self.group_of(*one) == self.group_of(*other)
            }
            _ => false,
        }
    }

    /// Whether a place is a local port where no frame of the segment leaves.
    pub(crate) fn is_shut(&self, place: &Place) -> bool
        ensures { result ≡ is_shut (config_of self.now) place.now }
    {
        match place {
            Place::Local(port) => !self.serves(*port),
            Place::Remote(..) => false,
        }
    }
}
