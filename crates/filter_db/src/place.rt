//! Places.
//!
//! A [`Place`] has a default, port 0, which is no port: a list of fixed capacity fills its free places with it.
ghost use Rattle.std.specs.Prelude.{◌≡◌};
ghost use Rattle.filter_db.specs.Place.{same_place, no_place};

use wire::ip_udp::{Addr, Tunnel};

/// Where the frames of a segment come from and go to.
#[derive(Clone, Copy, Debug, PartialEq, Eq)]
pub enum Place {
    /// The local port of this number, from 1.
    Local(u8),
    /// The remote endpoint at this address, by a tunnel of this kind.
    Remote(Tunnel, Addr),
}

impl Default for Place {
    ghost is_default = { λ place. place ≡ no_place };

    /// Port 0, which is no port: what stands in the free places of a list of fixed capacity.
    fn default() -> Place {
        Place::Local(0)
    }
}

impl Place {
    /// Whether the two are one place.
    #[inline(always)]
    pub fn is_same(self, other: Place) -> bool
        ensures { result ≡ same_place self other }
    {
        self == other
    }
}
