//! A remote endpoint, as a segment's tunnels name it.
ghost use Rattle.std.specs.Prelude.{◌≡◌};
ghost use Rattle.overlay.specs.Flood.{blank};

use wire::ip_udp::{Addr, Tunnel};

/// A remote endpoint of a tunnel: the tunnel's kind, and the endpoint's address or that of a group.
#[derive(Clone, Copy, Debug, PartialEq, Eq)]
pub struct Remote {
    pub tunnel: Tunnel,
    pub addr: Addr,
}

/// What stands in the places of a list that hold no entry.
impl Default for Remote {
    ghost is_default = { λ remote. remote ≡ blank };

    fn default() -> Remote {
        Remote {
            tunnel: Tunnel::Vxlan,
            addr: Addr::V4([0; 4]),
        }
    }
}
