//! What is allowed under each key.
ghost use Rattle.std.specs.Prelude.{◌≡◌, map, option_map};
ghost use Rattle.text_advice.specs.Allowed.{sentence_row_of, sentence_in, sentence_of};

use crate::allowed_changes::CHANGE_SENTENCES;
use crate::known::{TextKind, fits};

/// The path of a key without the numbers of tables; the version of the text, or nothing for any other; the fault that the
/// sentence is for, with a space behind, or nothing for any other; and what is allowed under the key, behind a semicolon also
/// which key raises a limit.
pub type Sentence = (&'static str, &'static str, &'static str, &'static str);

/// What is allowed under each key of settings.
pub const SETTINGS_SENTENCES: [Sentence; 67] = [
    (
        "version",
        "",
        "",
        "the number 1, or 2 where segments have tables of tunnels, or 3, which is 2 with underlay.partial and limits",
    ),
    (
        "pool",
        "",
        "OverLimit ",
        "the limits of all segments sum to the pool at most; pool raises it",
    ),
    (
        "pool",
        "3",
        "",
        "a number, 1 to 65536, or to limits.addresses where it is given; limits.addresses raises it, up to 1048576",
    ),
    (
        "pool",
        "",
        "",
        "a number, 1 to 65536; version 3 with limits.addresses raises it",
    ),
    (
        "limit",
        "3",
        "",
        "the limits of all segments sum to 65536 at most, or to limits.addresses where it is given; limits.addresses raises it, \
        up to 1048576",
    ),
    (
        "limit",
        "",
        "",
        "the limits of all segments sum to 65536 at most; version 3 with limits.addresses raises it",
    ),
    ("limits", "", "", "one table, headed [limits]"),
    ("limits.ports", "", "", "a number, 1 to 255"),
    ("limits.segments", "", "", "a number, 1 to 4094"),
    (
        "limits.flood",
        "",
        "OverLimit ",
        "limits.segments times limits.flood is 1048576 at most",
    ),
    ("limits.flood", "", "", "a number, 1 to 512"),
    ("limits.hops", "", "", "a number, 1 to 4096"),
    ("limits.entries", "", "", "a number, 1 to 131072"),
    ("limits.addresses", "", "", "a number, 1 to 1048576"),
    ("underlay", "", "", "one table, headed [underlay]"),
    (
        "underlay.mac",
        "",
        "",
        "a MAC address in quotes that is no group's, as \"02:00:00:00:00:01\"",
    ),
    (
        "underlay.next_hop",
        "",
        "",
        "a MAC address in quotes that is no group's, as \"02:00:00:00:00:01\"",
    ),
    (
        "underlay.ip4",
        "",
        "",
        "an IPv4 address in quotes, as \"192.0.2.1\", not 0.0.0.0, 255.255.255.255 or a group; one of ip4 and ip6 has to be there",
    ),
    (
        "underlay.ip6",
        "",
        "",
        "an IPv6 address in quotes, as \"2001:db8::1\", not :: or a group; one of ip4 and ip6 has to be there",
    ),
    ("underlay.mtu", "", "", "a number of octets, 1280 to 65535"),
    ("underlay.ttl", "", "", "a number, 1 to 255"),
    ("underlay.vxlan_port", "", "", "a number, 1 to 65535"),
    (
        "underlay.geneve_port",
        "",
        "",
        "a number, 1 to 65535, by default 6081, not that of vxlan_port, by default 4789",
    ),
    ("underlay.sum4", "", "", "true or false"),
    ("underlay.sum6", "", "", "true or false"),
    ("underlay.zero6", "", "", "true or false"),
    ("underlay.partial", "", "", "true or false"),
    (
        "underlay.known",
        "",
        "",
        "a list of at most 16 lists [class, type], of numbers 0 to 65535 and 0 to 255, none twice",
    ),
    (
        "underlay.hop",
        "3",
        "OverLimit ",
        "at most 64 tables with addr and mac, or as many as limits.hops says where it is given, each headed [[underlay.hop]]; \
        limits.hops raises it, up to 4096",
    ),
    (
        "underlay.hop",
        "",
        "OverLimit ",
        "at most 64 tables with addr and mac, each headed [[underlay.hop]]; version 3 with limits.hops raises it",
    ),
    (
        "underlay.hop",
        "3",
        "",
        "at most 64 tables with addr and mac, or as many as limits.hops says where it is given, each headed [[underlay.hop]]",
    ),
    (
        "underlay.hop",
        "",
        "",
        "at most 64 tables with addr and mac, each headed [[underlay.hop]]",
    ),
    (
        "underlay.hop.addr",
        "",
        "",
        "an address in quotes, as in ip4 or ip6, none twice",
    ),
    (
        "underlay.hop.mac",
        "",
        "",
        "a MAC address in quotes that is no group's, as \"02:00:00:00:00:01\"",
    ),
    (
        "port",
        "3",
        "OverLimit ",
        "1 to 16 tables, or to limits.ports where it is given, each headed [[port]]; limits.ports raises it, up to 255",
    ),
    (
        "port",
        "",
        "OverLimit ",
        "1 to 16 tables, each headed [[port]]; version 3 with limits.ports raises it",
    ),
    (
        "port",
        "3",
        "",
        "1 to 16 tables, or to limits.ports where it is given, each headed [[port]]",
    ),
    ("port", "", "", "1 to 16 tables, each headed [[port]]"),
    ("port.pvid", "", "", "a number, 1 to 4094"),
    ("port.accept", "", "", "\"all\", \"tagged\" or \"untagged\""),
    ("port.up", "", "", "true or false"),
    (
        "segment",
        "",
        "TwoSegments ",
        "a vid, and for each tunnel a kind and VNI, that no earlier segment has",
    ),
    (
        "segment",
        "3",
        "OverLimit ",
        "1 to 256 tables, or to limits.segments where it is given, each headed [[segment]]; limits.segments raises it, up to 4094",
    ),
    (
        "segment",
        "",
        "OverLimit ",
        "1 to 256 tables, each headed [[segment]]; version 3 with limits.segments raises it",
    ),
    (
        "segment",
        "3",
        "",
        "1 to 256 tables, or to limits.segments where it is given, each headed [[segment]]",
    ),
    (
        "segment",
        "",
        "",
        "1 to 256 tables, each headed [[segment]]",
    ),
    ("segment.vid", "", "", "a number, 1 to 4094"),
    ("segment.vni", "", "", "a number, 0 to 16777215"),
    (
        "segment.tunnel",
        "",
        "",
        "\"vxlan\" or \"geneve\"; from version 2 on instead 1 or 2 tables, each headed [[segment.tunnel]]",
    ),
    (
        "segment.tunnel.kind",
        "",
        "",
        "\"vxlan\" or \"geneve\", not that of the table before",
    ),
    ("segment.tunnel.vni", "", "", "a number, 0 to 16777215"),
    ("segment.tunnel.group", "", "", "a number, 0 to 255"),
    (
        "segment.tunnel.flood",
        "3",
        "OverLimit ",
        "a list of addresses in quotes, groups too, at most 16 over both tables, or as many as limits.flood says where it is \
        given, none twice, none 0.0.0.0, 255.255.255.255, ::, an own address, or of a family without an own address; limits.flood \
        raises it, up to 512",
    ),
    (
        "segment.tunnel.flood",
        "",
        "OverLimit ",
        "a list of addresses in quotes, groups too, at most 16 over both tables, none twice, none 0.0.0.0, 255.255.255.255, ::, \
        an own address, or of a family without an own address; version 3 with limits.flood raises it",
    ),
    (
        "segment.tunnel.flood",
        "3",
        "",
        "a list of addresses in quotes, groups too, at most 16 over both tables, or as many as limits.flood says where it is \
        given, none twice, none 0.0.0.0, 255.255.255.255, ::, an own address, or of a family without an own address",
    ),
    (
        "segment.tunnel.flood",
        "",
        "",
        "a list of addresses in quotes, groups too, at most 16 over both tables, none twice, none 0.0.0.0, 255.255.255.255, ::, \
        an own address, or of a family without an own address",
    ),
    (
        "segment.limit",
        "3",
        "",
        "a number, 1 to 8192, or to limits.entries where it is given; limits.entries raises it, up to 131072",
    ),
    (
        "segment.limit",
        "",
        "",
        "a number, 1 to 8192; version 3 with limits.entries raises it",
    ),
    (
        "segment.ageing",
        "",
        "",
        "a number of seconds, 10 to 1000000",
    ),
    ("segment.learn", "", "", "true or false"),
    ("segment.peers", "", "", "\"any\" or \"listed\""),
    ("segment.tags", "3", "", "\"drop\", \"pass\" or \"never\""),
    ("segment.tags", "", "", "\"drop\" or \"pass\""),
    (
        "segment.untagged",
        "",
        "",
        "a list of numbers of ports, of which the first [[port]] is 1, none twice",
    ),
    (
        "segment.tagged",
        "",
        "",
        "a list of numbers of ports, of which the first [[port]] is 1, none twice, none of them untagged",
    ),
    (
        "segment.flood",
        "",
        "OverLimit ",
        "a list of at most 16 addresses in quotes, groups too, none twice, none 0.0.0.0, 255.255.255.255, ::, an own address, or \
        of a family without an own address; version 3 with limits.flood raises it",
    ),
    (
        "segment.flood",
        "",
        "",
        "a list of at most 16 addresses in quotes, groups too, none twice, none 0.0.0.0, 255.255.255.255, ::, an own address, or \
        of a family without an own address",
    ),
];

/// The first sentence of this path that is for the variant and for the fault, or for any.
fn sentence_in(rows: &[Sentence], path: &[u8], variant: &[u8], fault: &[u8]) -> Option<&'static str>
    ensures { option_map (λ s. s.now) result ≡ sentence_in (map sentence_row_of rows.now) path.now variant.now fault.now }
{
    for row in rows {
        if row.0.as_bytes() == path && fits(row.1, variant) && fits(row.2, fault) {
            return Some(row.3);
        }
    }
    None
}

/// What is allowed under the key of a path, in a text of a variant, for a fault.
#[tactic(auto, unfolding(crate::specs::Allowed::sentence_of))]
pub(crate) fn sentence_of(
    kind: TextKind,
    path: &[u8],
    variant: &[u8],
    fault: &[u8],
) -> Option<&'static str>
    ensures { option_map (λ s. s.now) result ≡ sentence_of kind path.now variant.now fault.now }
{
    match kind {
        TextKind::Settings => sentence_in(&SETTINGS_SENTENCES, path, variant, fault),
        TextKind::Changes => sentence_in(&CHANGE_SENTENCES, path, variant, fault),
    }
}
