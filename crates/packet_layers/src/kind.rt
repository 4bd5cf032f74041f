//! What a head is, and why no more is taken off.
ghost use Rattle.std.specs.Prelude.{◌≡◌};
ghost use Rattle.packet_layers.specs.declared.kind.Stop.TheVariants.{At};

use wire::ether::Reason;

/// The header that a head is, or a part of one.
#[derive(Clone, Copy, Debug, PartialEq, Eq)]
pub enum HeadKind {
    /// The two addresses of a frame, 12 octets.
    Ether,
    /// A VLAN tag, 4 octets.
    Tag,
    /// The type of a frame, 2 octets; printed `type`.
    Kind,
    /// An IPv4 header with its options.
    Ip4,
    /// An IPv6 header.
    Ip6,
    /// A UDP header, 8 octets.
    Udp,
    /// A VXLAN header, 8 octets.
    Vxlan,
    /// A Geneve header with its options.
    Geneve,
}

/// Why no more is taken off.
#[derive(Clone, Copy, Debug, PartialEq, Eq)]
pub enum Stop {
    /// The next layer isn't there: Runt, NotIp to BadIpSum, or Fragment to CriticalOption.
    At(Reason),
    /// There is a datagram to a tunnel port, and as many tunnel headers as wanted are taken off.
    Deep,
}

impl From<Reason> for Stop {
    ghost from_gives = { λ reason stop. stop ≡ At reason };

    fn from(reason: Reason) -> Stop {
        Stop::At(reason)
    }
}
