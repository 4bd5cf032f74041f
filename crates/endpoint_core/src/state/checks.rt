//! What is asked of a change before anything is changed.
ghost use Rattle.std.specs.Prelude.{◌≡◌, IfOk, IsSome, is_some, length, true, None};
ghost use Rattle.wire.specs.First.{first, fault_of};
ghost use Rattle.overlay.specs.Overlay.{tunnel_at};
ghost use Rattle.endpoint_core.specs.Settings.{segment_at, kind_named};
ghost use Rattle.endpoint_core.specs.Change.{in_segment, port_fault, addr_faults};
ghost use Rattle.endpoint_core.specs.Tunnel.{tunnel_in};
ghost use Rattle.endpoint_core.specs.Sound.{IsSound};
ghost use Rattle.endpoint_core.specs.State.{settings_of};

use crate::state::ChangeFault;
use crate::state::parts::Parts;
use filter_db::Tables;
use overlay::flood::Own;
use overlay::ports::PortSet;
use overlay::underlay::Tunnels;
use wire::ether::Vid;
use wire::ip_udp::{Addr, Tunnel};

impl<T: Tables> Parts<T> {
    /// Whether there is a segment.
    pub(crate) fn check_segment(&self, vid: Vid) -> Result<(), ChangeFault>
        requires sound { IsSound T.segments self.now }
        ensures fault { fault_of result ≡ in_segment (segment_at (settings_of T.segments T.pool self.now) vid) (λ s. None) }
        ensures there { IfOk result (λ done. IsSome (T.segments self.now.tables vid)) }
    {
        if !self.tables.has(vid) {
            return Err(ChangeFault::NoSegment);
        }
        Ok(())
    }

    /// The kind of the tunnel that a change of a segment means.
    pub(crate) fn kind_named(&self, vid: Vid, tunnel: Option<Tunnel>) -> Result<Tunnel, ChangeFault>
        requires sound { IsSound T.segments self.now }
        ensures kind { result ≡ tunnel_in (segment_at (settings_of T.segments T.pool self.now) vid) tunnel }
        ensures there { IfOk result (λ kind. IsSome (T.segments self.now.tables vid)) }
        ensures tunnel { IfOk result (λ kind. is_some (tunnel_at self.now.under vid kind) ≡ true) }
    {
        self.check_segment(vid)?;
        kind_of(&self.under.segment(vid).tunnels, tunnel).ok_or(ChangeFault::NoTunnel)
    }
}

/// The kind of the tunnel that a change of a segment with these tunnels means: the named one's, where there is it, or the
/// first one's, where none is named.
pub fn kind_of(tunnels: &Tunnels, named: Option<Tunnel>) -> Option<Tunnel>
    ensures { result ≡ kind_named tunnels.now named }
{
    match named {
        Some(kind) => tunnels.of(kind).map(|t| t.kind),
        None => Some(tunnels.first().kind),
    }
}

/// Whether there is a port of this number.
pub(crate) fn check_port(ports: &PortSet, port: u8) -> Result<(), ChangeFault>
    ensures { fault_of result ≡ port_fault (length ports.now.ports) port }
{
    if port < 1 || port > ports.ports() {
        return Err(ChangeFault::NoPort);
    }
    Ok(())
}

/// Whether an address is that of one other endpoint that can be sent to.
pub(crate) fn check_addr(own: &Own, addr: Addr) -> Result<(), ChangeFault>
    ensures { fault_of result ≡ first (addr_faults own.now addr) }
{
    if !addr.is_usable() {
        return Err(ChangeFault::OutOfRange);
    }
    if addr.is_group() {
        return Err(ChangeFault::GroupAddress);
    }
    if !own.has_family(addr) {
        return Err(ChangeFault::NoFamily);
    }
    if own.is_own(addr) {
        return Err(ChangeFault::OwnAddress);
    }
    Ok(())
}
