//! The segments of a fabric.
ghost use Rattle.std.specs.Prelude.{◌≡◌, ◌++◌, map, true, slice_get, IfOk};
ghost use Rattle.overlay.specs.Flood.{is_entry};
ghost use Rattle.fabric_ways.specs.Members.{facts, facts_of, is_listed};

use overlay::flood::{Own, Remote};
use overlay::settings::{SegmentRule, Settings};
use overlay::underlay::{PeerRule, Tunnels, Underlay};
use std::alloc::{AllocError, Global};
use std::rc::Rc;
use wire::ether::Vid;

/// A segment of an endpoint, with what counts of its settings for who reaches whom.
#[derive(Drop)]
pub struct Member {
    /// The number of its leaf, which is the endpoint.
    pub leaf: u16,
    pub vid: Vid,
    /// The own addresses of the endpoint.
    pub own: Own,
    /// The UDP port of its VXLAN tunnels.
    pub vxlan_port: u16,
    /// The UDP port of its Geneve tunnels.
    pub geneve_port: u16,
    /// Whether it computes UDP checksums over IPv6.
    pub sum6: bool,
    /// Whether it accepts a UDP checksum of 0 over IPv6.
    pub zero6: bool,
    pub tunnels: Tunnels,
    /// The remotes that a frame is flooded to. Segments with one list share it.
    pub flood: Rc<Vec<Remote>>,
    /// Whether only remotes on the list may send to it.
    pub listed: bool,
    /// Whether it learns.
    pub learns: bool,
}

/// Whether a rule asks for listed senders.
fn is_listed(peers: PeerRule) -> bool
    ensures { result ≡ is_listed peers }
{
    match peers {
        PeerRule::Any => false,
        PeerRule::Listed => true,
    }
}

/// Whether two entries are the same.
fn is_same_entry(one: Remote, other: Remote) -> bool
    ensures { result ≡ is_entry other.tunnel other.addr one }
{
    one.tunnel == other.tunnel && one.addr == other.addr
}

/// The entry of a list at a place.
pub(crate) fn entry_at(list: &[Remote], place: usize) -> Option<Remote>
    ensures { result ≡ slice_get list.now place }
{
    list.get(place).copied()
}

/// Whether two lists have the same entry at a place.
fn is_same_at(one: &[Remote], other: &[Remote], place: usize) -> bool
    ensures { result ≡ true → slice_get one.now place ≡ slice_get other.now place }
{
    match (entry_at(one, place), entry_at(other, place)) {
        (Some(a), Some(b)) => is_same_entry(a, b),
        _ => false,
    }
}

/// Whether two lists are the same.
fn is_same(one: &[Remote], other: &[Remote]) -> bool
    ensures { result ≡ true → one.now ≡ other.now }
{
    if one.len() != other.len() {
        return false;
    }
    for place in 0..one.len() {
        if !is_same_at(one, other, place) {
            return false;
        }
    }
    true
}

/// A copy of a list.
fn copy_of(alloc: Global, list: &[Remote]) -> Result<Rc<Vec<Remote>>, AllocError>
    ensures { IfOk result (λ flood. flood.value.items ≡ list.now) }
{
    let mut entries = Vec::with_capacity(alloc, list.len())?;
    entries.extend_from_slice(list)?;
    Ok(Rc::new(alloc, entries)?)
}

/// A list, which is that of the last segment where it is the same.
fn shared(alloc: Global, members: &[Member], list: &[Remote]) -> Result<Rc<Vec<Remote>>, AllocError>
    ensures { IfOk result (λ flood. flood.value.items ≡ list.now) }
{
    if let Some(last) = members.last() {
        if is_same(last.flood.as_slice(), list) {
            return Ok(last.flood.clone()?);
        }
    }
    copy_of(alloc, list)
}

/// A segment of a leaf.
fn member_of(leaf: u16, underlay: &Underlay, rule: &SegmentRule, flood: Rc<Vec<Remote>>) -> Member
    requires { flood.value.items ≡ rule.now.flood }
    ensures { facts result ≡ facts_of leaf underlay.now rule.now }
{
    Member {
        leaf,
        vid: rule.vid,
        own: underlay.own(),
        vxlan_port: underlay.vxlan_port,
        geneve_port: underlay.geneve_port,
        sum6: underlay.sum6,
        zero6: underlay.zero6,
        tunnels: rule.tunnels,
        flood,
        listed: is_listed(rule.peers),
        learns: rule.learning,
    }
}

/// Puts the segments of a leaf behind those of the leaves before it.
fn add_rules(
    alloc: Global,
    members: &mut Vec<Member>,
    leaf: u16,
    underlay: &Underlay,
    rules: &[SegmentRule],
) -> Result<(), AllocError>
    ensures { IfOk result (λ _. map facts members.new.items
        ≡ map facts members.old.items ++ map (facts_of leaf underlay.now) rules.now) }
{
    for rule in rules {
        let flood = shared(alloc, members.as_slice(), rule.flood.targets())?;
        members.push(member_of(leaf, underlay, rule, flood))?;
    }
    Ok(())
}

/// Puts the segments of a leaf, which has these settings, behind those of the leaves before it.
pub fn add_leaf(
    alloc: Global,
    members: &mut Vec<Member>,
    leaf: u16,
    settings: Settings,
) -> Result<(), AllocError>
    ensures { IfOk result (λ _. map facts members.new.items
        ≡ map facts members.old.items ++ map (facts_of leaf settings.underlay) settings.segments) }
{
    let parts = settings.into_parts();
    add_rules(
        alloc,
        members,
        leaf,
        &parts.underlay,
        parts.segments.as_slice(),
    )
}
