//! The networks of a fabric.
ghost use Rattle.std.specs.Prelude.{◌≡◌, IfOk};
ghost use Rattle.fabric_ways.specs.Networks.{first_number, last_number, link, links, number_of};

use crate::labels::{label, settle};
use crate::member::Member;
use overlay::underlay::SegmentTunnel;
use std::alloc::{AllocError, Global};
use std::collections::HashMap;
use wire::ip_udp::Tunnel;

/// The number of a tunnel's kind and VNI.
fn number_of(tunnel: SegmentTunnel) -> u32
    ensures { result ≡ number_of tunnel }
{
    let vni = tunnel.vni.get();
    match tunnel.kind {
        Tunnel::Vxlan => 2 * vni,
        Tunnel::Geneve => 2 * vni + 1,
    }
}

/// The number of a segment's first tunnel.
fn first_number(x: &Member) -> u32
    ensures { result ≡ first_number x.now }
{
    match (x.tunnels.of(Tunnel::Vxlan), x.tunnels.of(Tunnel::Geneve)) {
        (Some(tunnel), _) => number_of(tunnel),
        (None, Some(tunnel)) => number_of(tunnel),
        (None, None) => 0,
    }
}

/// The number of its last.
fn last_number(x: &Member) -> u32
    ensures { result ≡ last_number x.now }
{
    match (x.tunnels.of(Tunnel::Geneve), x.tunnels.of(Tunnel::Vxlan)) {
        (Some(tunnel), _) => number_of(tunnel),
        (None, Some(tunnel)) => number_of(tunnel),
        (None, None) => 0,
    }
}

/// The numbers of a segment's tunnels.
fn link(x: &Member) -> (u32, u32)
    ensures { result ≡ link x.now }
{
    (first_number(x), last_number(x))
}

/// The numbers of each segment's tunnels.
fn links_of(alloc: Global, members: &[Member]) -> Result<Vec<(u32, u32)>, AllocError>
    ensures { IfOk result (λ all. all.items ≡ links members.now) }
{
    members.iter().map(|x| link(x)).collect(alloc)
}

/// The networks of a fabric.
#[derive(Drop)]
pub struct Networks {
    labels: HashMap<u32, u32>,
}

impl Networks {
    ghost use Rattle.std.specs.Prelude.{◌≡◌, ◌==◌, IfOk, OnOk, IsPermutation, IsSortedByKey, length, take_while};
    ghost use Rattle.std.specs.List.Sorted.{IsStableByKey};
    ghost use Rattle.std.specs.Ordering.{nat_cmp};
    ghost use Rattle.fabric_ways.specs.Networks.{AreNumbers, number_in};

    /// The networks of these segments.
    pub fn of(alloc: Global, members: &[Member]) -> Result<Networks, AllocError>
        ensures { IfOk result (λ networks. AreNumbers members.now (number_in networks.labels)) }
    {
        let links = links_of(alloc, members)?;
        let labels = settle(alloc, links.as_slice())?;
        Ok(Networks { labels })
    }

    /// The number of a segment's network.
    pub fn number(&self, x: &Member) -> u32
        ensures { result ≡ number_in self.now.labels x.now }
    {
        label(&self.labels, first_number(x))
    }

    /// Sorts segments by their networks: those of one stand together, in the order that they had.
    pub fn sort(&self, alloc: Global, members: &mut [Member]) -> Result<(), AllocError>
        ensures permutation { IsPermutation members.old members.new }
        ensures sorted { OnOk result (IsSortedByKey (number_in self.now.labels) nat_cmp members.new) }
        ensures stable { OnOk result (IsStableByKey (number_in self.now.labels) nat_cmp members.old members.new) }
    {
        members.sort_by_key(alloc, |x| self.number(x))?;
        Ok(())
    }

    /// How many segments at the front are of the network of this number.
    pub fn front(&self, number: u32, members: &[Member]) -> usize
        ensures { result ≡ length (take_while (λ x. number_in self.now.labels x == number) members.now) }
    {
        members
            .iter()
            .take_while(|x| self.number(x) == number)
            .count()
    }
}
