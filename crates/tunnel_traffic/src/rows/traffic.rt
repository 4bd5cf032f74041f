//! Traffic in both directions.
ghost use Rattle.std.specs.Prelude.{◌≡◌};
ghost use Rattle.tunnel_traffic.specs.Traffic.{came_of, left_of};

use ranked_rows::Counts;

/// What came, and what left. Each count ends at 2^64 - 1.
#[derive(Clone, Copy, Debug, PartialEq, Eq)]
pub struct Traffic {
    /// Packets that came.
    pub came: u64,
    /// Their octets together.
    pub came_octets: u64,
    /// Packets that left.
    pub left: u64,
    /// Their octets together.
    pub left_octets: u64,
}

impl Traffic {
    /// One packet that came, with so many octets.
    pub fn one_came(octets: u64) -> Traffic
        ensures { result ≡ came_of octets }
    {
        Traffic {
            came: 1,
            came_octets: octets,
            left: 0,
            left_octets: 0,
        }
    }

    /// One packet that left, with so many octets.
    pub fn one_left(octets: u64) -> Traffic
        ensures { result ≡ left_of octets }
    {
        Traffic {
            came: 0,
            came_octets: 0,
            left: 1,
            left_octets: octets,
        }
    }
}

impl Counts for Traffic {
    ghost use Rattle.tunnel_traffic.specs.Sums.{nothing_is, with_grouped, with_turned, with_whole};
    ghost use Rattle.tunnel_traffic.specs.Traffic.{no_traffic, traffic_with};

    ghost none = { no_traffic };

    ghost joined = { traffic_with };

    fn none() -> Traffic {
        Traffic {
            came: 0,
            came_octets: 0,
            left: 0,
            left_octets: 0,
        }
    }

    fn with(self, other: Traffic) -> Traffic {
        Traffic {
            came: self.came.saturating_add(other.came),
            came_octets: self.came_octets.saturating_add(other.came_octets),
            left: self.left.saturating_add(other.left),
            left_octets: self.left_octets.saturating_add(other.left_octets),
        }
    }

    ghost grouped = { with_grouped };

    ghost turned = { with_turned };

    ghost whole = { with_whole };

    ghost nothing = { nothing_is };
}
