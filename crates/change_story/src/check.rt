//! Checks: why each refuses, whether it does, and what it saw.
ghost use Rattle.std.specs.Prelude.{◌≡◌, ◌++◌, ◌∷◌, [], OnOk, nat_lt};
ghost use Rattle.std.specs.FinMap.{get, len};
ghost use Rattle.filter_db.specs.Table.{Table};
ghost use Rattle.change_story.specs.Checks as checks;

use crate::seen::Seen;
use endpoint_core::state::{ChangeFault, is_ageing, is_limit};
use filter_db::Entry;
use overlay::flood::Own;
use std::alloc::AllocError;
use wire::ether::{Mac, Vid};
use wire::ip_udp::{Addr, Tunnel};

/// The most remote endpoints of a flood list, whatever its limit.
const MOST_REMOTES: u16 = 512;

/// A check of a change.
#[derive(Clone, Copy)]
pub struct Check {
    /// Why it refuses.
    pub fault: ChangeFault,
    /// Whether it does.
    pub fails: bool,
    /// What it saw.
    pub saw: Seen,
}

impl Check {
    /// A check that refuses for `fault` where it `fails`, and what it saw.
    fn new(fault: ChangeFault, fails: bool, saw: Seen) -> Check
        ensures { result ≡ checks.check_of fault fails saw }
    {
        Check { fault, fails, saw }
    }
}

/// Puts a check behind the others.
pub(crate) fn put(checks: &mut Vec<Check>, check: Check) -> Result<(), AllocError>
    ensures { OnOk result (checks.new.items ≡ checks.old.items ++ check ∷ []) }
{
    checks.push(check)?;
    Ok(())
}

/// Puts checks behind the others.
pub(crate) fn put_all(checks: &mut Vec<Check>, more: &[Check]) -> Result<(), AllocError>
    ensures { OnOk result (checks.new.items ≡ checks.old.items ++ more.now) }
{
    checks.extend_from_slice(more)
}

/// There is a segment of this VID.
pub(crate) fn segment_check(vid: Vid, there: bool) -> Check
    ensures { result ≡ checks.segment_check vid there }
{
    Check::new(
        ChangeFault::NoSegment,
        !there,
        Seen::Segment {
            vid: vid.get(),
            there,
        },
    )
}

/// No segment has this VID.
pub(crate) fn vid_check(vid: Vid, there: bool) -> Check
    ensures { result ≡ checks.vid_check vid there }
{
    Check::new(
        ChangeFault::SegmentThere,
        there,
        Seen::Segment {
            vid: vid.get(),
            there,
        },
    )
}

/// There is a port of this number, among so many.
pub(crate) fn port_check(ports: u8, port: u8) -> Check
    ensures { result ≡ checks.port_check ports port }
{
    Check::new(
        ChangeFault::NoPort,
        !(1 <= port && port <= ports),
        Seen::Port { port, ports },
    )
}

/// The segment has the tunnel that is named, or has a first one where none is.
pub(crate) fn tunnel_check(named: Option<Tunnel>, found: Option<Tunnel>) -> Check
    ensures { result ≡ checks.tunnel_check named found }
{
    Check::new(
        ChangeFault::NoTunnel,
        found.is_none(),
        Seen::Tunnel { named, found },
    )
}

/// Somebody can have this address.
pub(crate) fn usable_check(addr: Addr) -> Check
    ensures { result ≡ checks.usable_check addr }
{
    let usable = addr.is_usable();
    Check::new(ChangeFault::OutOfRange, !usable, Seen::Usable { usable })
}

/// It is no group's.
pub(crate) fn group_check(addr: Addr) -> Check
    ensures { result ≡ checks.group_check addr }
{
    let group = addr.is_group();
    Check::new(ChangeFault::GroupAddress, group, Seen::AddrGroup { group })
}

/// The endpoint has an own address of its family.
pub(crate) fn family_check(own: &Own, addr: Addr) -> Check
    ensures { result ≡ checks.family_check own.now addr }
{
    let there = own.has_family(addr);
    Check::new(ChangeFault::NoFamily, !there, Seen::Family { there })
}

/// It isn't the endpoint's own.
pub(crate) fn own_check(own: &Own, addr: Addr) -> Check
    ensures { result ≡ checks.own_check own.now addr }
{
    let own = own.is_own(addr);
    Check::new(ChangeFault::OwnAddress, own, Seen::Own { own })
}

/// It isn't on the flood list yet.
pub(crate) fn absent_check(listed: bool) -> Check
    ensures { result ≡ checks.absent_check listed }
{
    Check::new(ChangeFault::AlreadyThere, listed, Seen::Listed { listed })
}

/// It is on the flood list.
pub(crate) fn listed_check(listed: bool) -> Check
    ensures { result ≡ checks.listed_check listed }
{
    Check::new(ChangeFault::NotThere, !listed, Seen::Listed { listed })
}

/// The flood list has room: it has fewer remotes than its limit says, and than 512.
pub(crate) fn flood_check(most: u16, remotes: usize) -> Check
    ensures { result ≡ checks.flood_check most remotes }
{
    let most = most.min(MOST_REMOTES);
    Check::new(
        ChangeFault::FloodFull,
        remotes >= usize::from(most),
        Seen::FloodRoom { remotes, most },
    )
}

/// A MAC address is no group's.
pub(crate) fn mac_check(mac: Mac) -> Check
    ensures { result ≡ checks.mac_check mac }
{
    let group = mac.is_group();
    Check::new(ChangeFault::GroupAddress, group, Seen::MacGroup { group })
}

/// A table with this limit and so many entries has room for a fixed entry of an address for which this stands.
pub(crate) fn room_check(limit: u32, stood: Option<Entry>, entries: usize) -> Check
    ensures { (mac : _) (m : Table) → get m mac ≡ stood → len m ≡ entries → result ≡ checks.room_check limit mac m }
{
    Check::new(
        ChangeFault::TableFull,
        stood.is_none() && entries >= limit as usize,
        Seen::Room {
            stood,
            entries,
            limit,
        },
    )
}

/// An address for which this stands has a fixed entry.
pub(crate) fn fixed_check(stood: Option<Entry>) -> Check
    ensures { (mac : _) (m : Table) → get m mac ≡ stood → result ≡ checks.fixed_check mac m }
{
    let fixed = match stood {
        Some(entry) => entry.is_fixed(),
        None => false,
    };
    Check::new(ChangeFault::NotThere, !fixed, Seen::Stood { stood })
}

/// Ageings have 10 to 1,000,000 seconds.
pub(crate) fn ageing_check(seconds: u32) -> Check
    ensures { result ≡ checks.ageing_check seconds }
{
    Check::new(
        ChangeFault::OutOfRange,
        !is_ageing(seconds),
        Seen::Ageing { seconds },
    )
}

/// Limits are 1 to the most entries of a segment.
pub(crate) fn limit_check(most: u32, limit: u32) -> Check
    ensures { result ≡ checks.limit_check most limit }
{
    Check::new(
        ChangeFault::OutOfRange,
        !is_limit(most, limit),
        Seen::Limit { limit, most },
    )
}

/// No segment has a tunnel of the kind and VNI of one of the new one's.
pub(crate) fn vnis_check(free: bool) -> Check
    ensures { result ≡ checks.vnis_check free }
{
    Check::new(ChangeFault::SegmentThere, !free, Seen::Vnis { free })
}

/// There are fewer segments than there may be.
pub(crate) fn count_check(segments: u32, most: u16) -> Check
    ensures { result ≡ checks.count_check segments most }
{
    Check::new(
        ChangeFault::SegmentsFull,
        !(segments < u32::from(most)),
        Seen::Segments { segments, most },
    )
}

/// A limit is no more than what is left of the pool for it.
pub(crate) fn pool_check(limit: u32, room: u64) -> Check
    ensures { result ≡ checks.pool_check (nat_lt room limit) room }
{
    Check::new(
        ChangeFault::PoolFull,
        u64::from(limit) > room,
        Seen::Pool { room },
    )
}
