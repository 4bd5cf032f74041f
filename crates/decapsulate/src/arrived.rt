//! A frame out of a tunnel.
use wire::ether::{BridgeFrame, Vid};
use wire::ip_udp::{Addr, Tunnel};

/// A frame that came through a tunnel.
#[derive(Debug, Drop)]
pub struct Arrived<'a> {
    /// The segment that it is for.
    pub vid: Vid,
    /// The kind of the tunnel, and the outer source address: the endpoint that sent it.
    pub from: (Tunnel, Addr),
    /// The frame, with priority 0: a tunnel carries none.
    pub frame: BridgeFrame<'a>,
}
