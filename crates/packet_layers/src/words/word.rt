//! The words of kinds.
ghost use Rattle.std.specs.Prelude.{◌≡◌};
ghost use Rattle.packet_layers.specs.Values.{word_of};

use crate::HeadKind;

/// The word of a kind of header: `ether`, `tag`, `type`, `ip4`, `ip6`, `udp`, `vxlan` or `geneve`.
pub fn word_of(kind: HeadKind) -> &'static str
    ensures { result.now ≡ word_of kind }
{
    match kind {
        HeadKind::Ether => "ether",
        HeadKind::Tag => "tag",
        HeadKind::Kind => "type",
        HeadKind::Ip4 => "ip4",
        HeadKind::Ip6 => "ip6",
        HeadKind::Udp => "udp",
        HeadKind::Vxlan => "vxlan",
        HeadKind::Geneve => "geneve",
    }
}
