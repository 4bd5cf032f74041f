//! What becomes of the broadcasts of one segment at another.
ghost use Rattle.std.specs.Prelude.{◌≡◌, true, false};
ghost use Rattle.std.specs.Option.{option_map_or};
ghost use Rattle.overlay.specs.Flood.{holds, is_own};
ghost use Rattle.fabric_ways.specs.Hops.{source, port_of, sends_no_sum, shares, aims, knows, outcome, comes, hops, hops_by, is_straight, lost_back};
ghost use Rattle.fabric_ways.specs.Hops.{last_straight, unanswered, is_one_owner, is_one_family, later, farther, furthest, hole};

use crate::member::{Member, entry_at};
use fabric_grid::Hole;
use overlay::flood::{Own, Remote};
use wire::ether::Reason;
use wire::ip_udp::{Addr, Tunnel};

/// Where packets to an address come from.
fn source(own: &Own, addr: Addr) -> Option<Addr>
    ensures { result ≡ source own.now addr }
{
    match addr {
        Addr::V4(_) => match own.ip4 {
            Some(octets) => Some(Addr::V4(octets)),
            None => None,
        },
        Addr::V6(_) => match own.ip6 {
            Some(octets) => Some(Addr::V6(octets)),
            None => None,
        },
    }
}

/// The UDP port of a segment's tunnels of a kind.
fn port_of(x: &Member, kind: Tunnel) -> u16
    ensures { result ≡ port_of x.now kind }
{
    match kind {
        Tunnel::Vxlan => x.vxlan_port,
        Tunnel::Geneve => x.geneve_port,
    }
}

/// Whether packets to an address have no checksum over IPv6.
fn sends_no_sum(x: &Member, addr: Addr) -> bool
    ensures { result ≡ sends_no_sum x.now addr }
{
    match addr {
        Addr::V4(_) => false,
        Addr::V6(_) => !x.sum6,
    }
}

/// Whether two segments have a tunnel of a kind, with one VNI.
fn shares(x: &Member, kind: Tunnel, y: &Member) -> bool
    ensures { result ≡ shares x.now kind y.now }
{
    match (x.tunnels.of(kind), y.tunnels.of(kind)) {
        (Some(t), Some(u)) => t.vni.get() == u.vni.get(),
        _ => false,
    }
}

/// Whether what an entry sends may come to a segment.
fn aims(entry: Remote, y: &Member) -> bool
    ensures { result ≡ aims entry y.now }
{
    y.own.is_own(entry.addr) || entry.addr.is_group()
}

/// Whether a remote is on a segment's flood list.
fn holds(y: &Member, kind: Tunnel, addr: Addr) -> bool
    ensures { result ≡ holds y.now.flood.value.items kind addr }
{
    y.flood
        .iter()
        .any(|entry| entry.tunnel == kind && entry.addr == addr)
}

/// Whether the remote from which a packet comes is on a segment's flood list.
fn knows(y: &Member, kind: Tunnel, from: Option<Addr>) -> bool
    ensures { result ≡ knows y.now kind from }
{
    match from {
        Some(addr) => holds(y, kind, addr),
        None => false,
    }
}

/// Whether a packet's source is an own address of the endpoint that it comes to.
fn is_own_source(own: &Own, from: Option<Addr>) -> bool
    ensures { result ≡ option_map_or (is_own own.now) from false }
{
    match from {
        Some(addr) => own.is_own(addr),
        None => false,
    }
}

/// Why a segment drops what another one sends by an entry.
fn outcome(x: &Member, entry: Remote, y: &Member) -> Option<Reason>
    ensures { result ≡ outcome x.now entry y.now }
{
    let from = source(&x.own, entry.addr);
    if is_own_source(&y.own, from) {
        return Some(Reason::BadOuterSource);
    }
    if port_of(x, entry.tunnel) != port_of(y, entry.tunnel) {
        return Some(Reason::NotTunnel);
    }
    if sends_no_sum(x, entry.addr) && !y.zero6 {
        return Some(Reason::ZeroSum);
    }
    if !shares(x, entry.tunnel, y) {
        return Some(Reason::UnknownVni);
    }
    if entry.addr.is_group() && !holds(y, entry.tunnel, entry.addr) {
        return Some(Reason::WrongGroup);
    }
    if y.listed && !knows(y, entry.tunnel, from) {
        return Some(Reason::UnknownPeer);
    }
    None
}

/// Whether what a segment sends by an entry comes to another one.
fn comes(x: &Member, entry: Remote, y: &Member) -> bool
    ensures { result ≡ comes x.now entry y.now }
{
    aims(entry, y) && outcome(x, entry, y).is_none()
}

/// Whether what a segment sends by an entry comes to another one in a tunnel of a kind.
fn hops_by(x: &Member, entry: Remote, kind: Tunnel, y: &Member) -> bool
    ensures { result ≡ hops_by x.now kind y.now entry }
{
    entry.tunnel == kind && comes(x, entry, y)
}

/// Whether it does so by the entry at a place.
fn hops_at(x: &Member, kind: Tunnel, y: &Member, place: usize) -> bool
    ensures { result ≡ true → hops x.now kind y.now ≡ true }
{
    match entry_at(x.flood.as_slice(), place) {
        Some(entry) => hops_by(x, entry, kind, y),
        None => false,
    }
}

/// Whether it does so by any.
fn hops_somewhere(x: &Member, kind: Tunnel, y: &Member) -> bool
    ensures { result ≡ hops x.now kind y.now }
{
    x.flood.iter().any(|entry| hops_by(x, *entry, kind, y))
}

/// Whether what a segment floods comes to another one in a tunnel of a kind.
pub(crate) fn hops(x: &Member, kind: Tunnel, y: &Member) -> bool
    ensures { result ≡ hops x.now kind y.now }
{
    if !shares(x, kind, y) {
        return false;
    }
    // Most lists have the remotes in the order of the leaves, but for the leaf itself: so it is mostly one of these two.
    let place = usize::from(y.leaf);
    if hops_at(x, kind, y, place) {
        return true;
    }
    if hops_at(x, kind, y, place.saturating_sub(1)) {
        return true;
    }
    hops_somewhere(x, kind, y)
}

/// Whether what a segment floods comes to another one.
fn is_straight(x: &Member, y: &Member) -> bool
    ensures { result ≡ is_straight x.now y.now }
{
    x.flood.iter().any(|entry| comes(x, *entry, y))
}

/// Why the answer to what came by an entry is lost.
fn lost_back(x: &Member, entry: Remote, y: &Member) -> Option<Hole>
    ensures { result ≡ lost_back x.now entry y.now }
{
    if y.learns {
        let addr = source(&x.own, entry.addr)?;
        let tunnel = entry.tunnel;
        let reason = outcome(y, Remote { tunnel, addr }, x)?;
        return Some(Hole::Dropped(reason));
    }
    if is_straight(y, x) {
        None
    } else {
        Some(Hole::NotListed)
    }
}

/// The last entry of a list by which a segment comes to another one.
fn last_straight(x: &Member, y: &Member, flood: &[Remote]) -> Option<Remote>
    ensures { result ≡ last_straight x.now y.now flood.now }
{
    let mut rest = flood;
    while let Some((last, before)) = rest.split_last() {
        if comes(x, *last, y) {
            return Some(*last);
        }
        rest = before;
    }
    None
}

/// Why the answer to a segment's broadcasts that come to another one is lost.
pub(crate) fn unanswered(x: &Member, y: &Member) -> Option<Hole>
    ensures { result ≡ unanswered x.now y.now }
{
    match last_straight(x, y, x.flood.as_slice()) {
        Some(last) => lost_back(x, last, y),
        None => None,
    }
}

/// Whether two endpoints have an own address in common.
fn is_one_owner(a: &Own, b: &Own) -> bool
    ensures { result ≡ is_one_owner a.now b.now }
{
    let four = match a.ip4 {
        Some(octets) => b.ip4 == Some(octets),
        None => false,
    };
    let six = match a.ip6 {
        Some(octets) => b.ip6 == Some(octets),
        None => false,
    };
    four || six
}

/// Whether two endpoints have addresses of one family.
fn is_one_family(a: &Own, b: &Own) -> bool
    ensures { result ≡ is_one_family a.now b.now }
{
    a.ip4.is_some() && b.ip4.is_some() || a.ip6.is_some() && b.ip6.is_some()
}

/// The later of two reasons.
fn later(far: Option<Reason>, reason: Option<Reason>) -> Option<Reason>
    ensures { result ≡ later far reason }
{
    match (far, reason) {
        (None, _) => reason,
        (Some(_), None) => far,
        (Some(a), Some(b)) => { if a.number() < b.number() { reason } else { far } }
    }
}

/// What one entry more adds to how far broadcasts get.
fn farther(x: &Member, y: &Member, far: Option<Reason>, entry: Remote) -> Option<Reason>
    ensures { result ≡ farther x.now y.now far entry }
{
    if shares(x, entry.tunnel, y) && aims(entry, y) {
        later(far, outcome(x, entry, y))
    } else {
        far
    }
}

/// The reason of the broadcast that gets furthest, of those by a list.
fn furthest(x: &Member, y: &Member, flood: &[Remote]) -> Option<Reason>
    ensures { result ≡ furthest x.now y.now flood.now }
{
    let mut far = None;
    for entry in flood {
        far = farther(x, y, far, *entry);
    }
    far
}

/// Why nothing comes of one segment to another.
pub(crate) fn hole(x: &Member, y: &Member) -> Hole
    ensures { result ≡ hole x.now y.now }
{
    if !(shares(x, Tunnel::Vxlan, y) || shares(x, Tunnel::Geneve, y)) {
        return Hole::NoTunnel;
    }
    if is_one_owner(&x.own, &y.own) {
        return Hole::TwoOwners;
    }
    if let Some(reason) = furthest(x, y, x.flood.as_slice()) {
        return Hole::Dropped(reason);
    }
    if is_one_family(&x.own, &y.own) {
        Hole::NotListed
    } else {
        Hole::NoFamily
    }
}
