//! The tunnels of a segment.
ghost use Rattle.std.specs.Prelude.{◌≡◌, ◌≢◌, [], ◌∷◌, length, ◌==◌, slice_get, Some};
ghost use Rattle.std.specs.Option.{option_to_list};
ghost use Rattle.overlay.specs.Tunnels.{of_kind};

use std::marker::Model;
use wire::ip_udp::Tunnel;
use wire::vxlan::Vni;

/// One of a segment's tunnels.
#[derive(Clone, Copy, Debug, PartialEq, Eq)]
pub struct SegmentTunnel {
    pub kind: Tunnel,
    /// The number of the segment's network in tunnels of this kind.
    pub vni: Vni,
    /// Its horizon group: frames from a remote of a group aren't sent to the others of that group.
    pub group: u8,
}

/// A segment's one or two tunnels, of different kinds, seen by contracts as the list of them.
#[derive(Clone, Copy, Debug, PartialEq, Eq)]
pub struct Tunnels {
    /// Meant where a change names no kind.
    first: SegmentTunnel,
    second: Option<SegmentTunnel>,
}

impl Model for Tunnels {
    ghost use Rattle.std.specs.Prelude.{List, ◌∷◌, ◌≢◌, IfSome, slice_get, slice_index_or};
    ghost use Rattle.std.specs.Option.{option_to_list};
    ghost use Rattle.overlay.specs.declared.underlay.tunnels.SegmentTunnel.{SegmentTunnel};
    ghost use Rattle.overlay.specs.Tunnels.{no_tunnel, second_of};

    ghost Value = { List SegmentTunnel };

    ghost view = { λ t. t.first ∷ option_to_list t.second };

    ghost invariant = { λ t. IfSome t.second (λ second. second.kind ≢ t.first.kind) };

    ghost inverse = { λ l. record { first = slice_index_or l 0 no_tunnel; second = slice_get l 1 } };

    ghost inverse_ok = { λ t h i. record { first = t.first; second = second_of t.first t.second i } };
}

impl Tunnels {
    /// One tunnel.
    pub fn one(tunnel: SegmentTunnel) -> Tunnels
        ensures { result ≡ tunnel ∷ [] }
    {
        Tunnels {
            first: tunnel,
            second: None,
        }
    }

    /// Two tunnels, of different kinds. The first is meant where a change names none.
    pub fn two(first: SegmentTunnel, second: SegmentTunnel) -> Tunnels
        requires { second.kind ≢ first.kind }
        ensures { result ≡ first ∷ second ∷ [] }
    {
        Tunnels {
            first,
            second: Some(second),
        }
    }

    /// The tunnel that is meant where a change names none.
    pub fn first(&self) -> SegmentTunnel
        ensures { slice_get self.now 0 ≡ Some result }
    {
        self.first
    }

    /// The first tunnel, and the second where there is one.
    pub(crate) fn both(&self) -> (SegmentTunnel, Option<SegmentTunnel>)
        ensures { self.now ≡ result.0 ∷ option_to_list result.1 }
    {
        (self.first, self.second)
    }

    /// Whether there are two.
    pub fn are_two(&self) -> bool
        ensures { result ≡ (length self.now == 2) }
    {
        self.second.is_some()
    }

    /// The tunnel of a kind, where there is one.
    pub fn of(&self, kind: Tunnel) -> Option<SegmentTunnel>
        ensures { result ≡ of_kind kind self.now }
    {
        if self.first.kind == kind {
            Some(self.first)
        } else {
            self.second.filter(|tunnel| tunnel.kind == kind)
        }
    }
}
