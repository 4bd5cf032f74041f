//! The underlay's table.
ghost use Rattle.std.specs.Prelude.{◌≡◌, OnOk, IfErr, Ok};
ghost use Rattle.std.specs.FinMap.{empty};
ghost use Rattle.std.specs.List.{list_any};
ghost use Rattle.wire.specs.Addr.{same_addr};
ghost use Rattle.config_text.specs.declared.fault.SettingsFault.TheVariants.{OutOfMemory};
ghost use Rattle.config_text.specs.Fault.{Gives};
ghost use Rattle.config_text.specs.Reader.{place_of};
ghost use Rattle.overlay_config.specs.Underlay.{exceptions, with_exception, hop_of, hops_of};
ghost use Rattle.overlay_config.specs.Underlay.{own_addrs_of, partial_of, tunnel_ports_of, underlay_of};

use crate::known::KnownOptions;
use crate::version::Version;
use config_text::{
    EndpointAddr, IndividualMac, ListRow, OwnIp4, OwnIp6, Reader, SettingsFault, Truth, U8Range,
    U16Range, read_rows,
};
use overlay::underlay::{Hops, Limits, Underlay};
use std::alloc::Global;
use wire::ether::Mac;
use wire::geneve::Known;
use wire::ip_udp::Addr;

const HOP_KEYS: [&str; 2] = ["addr", "mac"];

const PORT: U16Range = U16Range {
    low: 1,
    high: 65535,
};

/// Reads the underlay's table, in settings of a version, beside the limits in force.
#[tactic(auto, unfolding(crate::specs::Underlay::underlay_of))]
pub(crate) fn read_underlay(
    alloc: Global,
    version: Version,
    limits: Limits,
    at: &Reader,
) -> Result<Underlay, SettingsFault>
    ensures { Gives result (underlay_of version limits (place_of at.now)) }
{
    at.only(version.underlay_keys())?;
    let mac = at.required("mac", &IndividualMac)?;
    let next_hop = at.required("next_hop", &IndividualMac)?;
    let (ip4, ip6) = read_own_addrs(at)?;
    let mtu = at.defaulted(
        "mtu",
        &U16Range {
            low: 1280,
            high: 65535,
        },
        1550,
    )?;
    let ttl = at.defaulted("ttl", &U8Range { low: 1, high: 255 }, 64)?;
    let (vxlan_port, geneve_port) = read_tunnel_ports(at)?;
    let sum4 = at.defaulted("sum4", &Truth, false)?;
    let sum6 = at.defaulted("sum6", &Truth, true)?;
    let zero6 = at.defaulted("zero6", &Truth, true)?;
    let partial = read_partial(version, at)?;
    let known = at.listed("known", 16, &KnownOptions, Known::new())?;
    let hops = read_hops(alloc, limits.hops, at)?;
    Ok(Underlay {
        mac,
        next_hop,
        ip4,
        ip6,
        mtu,
        ttl,
        vxlan_port,
        geneve_port,
        sum4,
        sum6,
        zero6,
        partial,
        known,
        hops,
        limits,
    })
}

/// Whether checksums left to the card are taken, which versions before the third can't ask for.
fn read_partial(version: Version, at: &Reader) -> Result<bool, SettingsFault>
    ensures { result ≡ partial_of version (place_of at.now) }
{
    match version {
        Version::One | Version::Two => Ok(false),
        Version::Three => at.defaulted("partial", &Truth, false),
    }
}

/// The endpoint's own addresses, of which there is one at least.
#[tactic(auto, unfolding(crate::specs::Underlay::own_addrs_of))]
fn read_own_addrs(at: &Reader) -> Result<(Option<[u8; 4]>, Option<[u8; 16]>), SettingsFault>
    ensures { result ≡ own_addrs_of (place_of at.now) }
{
    let ip4 = at.optional("ip4", &OwnIp4)?;
    let ip6 = at.optional("ip6", &OwnIp6)?;
    if ip4.is_none() && ip6.is_none() {
        return Err(SettingsFault::Missing(at.path("ip4")));
    }
    Ok((ip4, ip6))
}

/// The UDP ports of VXLAN and of Geneve, which differ.
#[tactic(auto, unfolding(crate::specs::Underlay::tunnel_ports_of))]
fn read_tunnel_ports(at: &Reader) -> Result<(u16, u16), SettingsFault>
    ensures { result ≡ tunnel_ports_of (place_of at.now) }
{
    let vxlan_port = at.defaulted("vxlan_port", &PORT, 4789)?;
    let geneve_port = at.defaulted("geneve_port", &PORT, 6081)?;
    if geneve_port == vxlan_port {
        return Err(SettingsFault::BadValue(at.path("geneve_port")));
    }
    Ok((vxlan_port, geneve_port))
}

/// The next hops to single endpoints, so many at most.
#[tactic(auto, unfolding(crate::specs::Underlay::hops_of))]
fn read_hops(alloc: Global, most: u16, at: &Reader) -> Result<Hops, SettingsFault>
    ensures { Gives result (hops_of most (place_of at.now)) }
{
    let tables = at.limited_items("hop", usize::from(most))?;
    let hops = read_rows(alloc, &HopRow, "underlay.hop", tables)?;
    exceptions(alloc, hops.as_slice())
}

/// Adds an exception, where there is none for its address.
fn add_exception(hops: &mut Hops, addr: Addr, mac: Mac) -> Result<(), SettingsFault>
    ensures value { OnOk result (hops.new ≡ with_exception hops.old (addr, mac)) }
    ensures memory { IfErr result (λ e. e ≡ OutOfMemory) }
{
    if hops.get(addr).is_none() {
        hops.insert(addr, mac)?;
    }
    Ok(())
}

/// These exceptions from the next hop.
fn exceptions(alloc: Global, hops: &[(Addr, Mac)]) -> Result<Hops, SettingsFault>
    ensures { Gives result (Ok (exceptions empty hops.now)) }
{
    let mut kept = Hops::new(alloc);
    for hop in hops {
        add_exception(&mut kept, hop.0, hop.1)?;
    }
    Ok(kept)
}

/// Whether there is a hop to this address.
fn has_hop(hops: &[(Addr, Mac)], addr: Addr) -> bool
    ensures { result ≡ list_any (λ h. same_addr h.0 addr) hops.now }
{
    hops.iter().any(|hop| hop.0 == addr)
}

/// The table of a hop.
#[derive(Clone, Copy)]
struct HopRow;

impl ListRow for HopRow {
    type Out = (Addr, Mac);

    ghost means = { λ _. hop_of };

    #[tactic(auto, unfolding(crate::specs::Underlay::hop_of))]
    fn read(&self, earlier: &[(Addr, Mac)], at: &Reader) -> Result<(Addr, Mac), SettingsFault> {
        at.only(&HOP_KEYS)?;
        let addr = at.required("addr", &EndpointAddr)?;
        if has_hop(earlier, addr) {
            return Err(SettingsFault::BadValue(at.path("addr")));
        }
        let mac = at.required("mac", &IndividualMac)?;
        Ok((addr, mac))
    }
}
