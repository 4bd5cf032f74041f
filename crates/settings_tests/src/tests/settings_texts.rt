//! Texts of settings, and what they mean: each with its settings as `Debug` writes them.
use std::alloc::{AllocError, Global};
use test_inputs::settings::{ENDPOINT, bridge, peer, replaced, with_one_port};

/// A text, and what it means.
pub(crate) type Meant = (String, String);

/// What the settings of the endpoint mean: its underlay and its ports, and each of its segments.
const UNDERLAY_AND_PORTS: &str = "\
Settings { parts: Parts { underlay: Underlay { mac: Mac([2, 0, 0, 0, 170, 1]), \
next_hop: Mac([2, 0, 0, 0, 170, 254]), ip4: Some([192, 0, 2, 1]), \
ip6: Some([32, 1, 13, 184, 0, 0, 0, 0, 0, 0, 0, 0, 0, 0, 0, 1]), mtu: 1550, ttl: 64, vxlan_port: 4789, \
geneve_port: 6081, sum4: false, sum6: true, zero6: true, partial: false, known: Known { pairs: [] }, \
hops: Hops { exceptions: [] }, limits: Limits { ports: 16, segments: 256, flood: 16, hops: 64, entries: 8192, \
addresses: 65536 } }, ports: [PortRule { pvid: Vid { number: 10 }, accept: All, up: true }, \
PortRule { pvid: Vid { number: 10 }, accept: All, up: true }, PortRule { pvid: Vid { number: 10 }, accept: All, \
up: true }], segments: [";

const FIRST_SEGMENT: &str = "\
SegmentRule { vid: Vid { number: 10 }, tunnels: Tunnels { first: SegmentTunnel { kind: Vxlan, \
vni: Vni { number: 5000 }, group: 0 }, second: None }, flood: FloodList { entries: Stored { few: [Remote { tunnel: Vxlan, \
addr: V4([192, 0, 2, 2]) }], many: None } }, limit: 256, ageing: 300, learning: true, peers: Any, tags: Drop, \
untagged: PortList { numbers: [1, 2] }, tagged: PortList { numbers: [3] } }";

const SECOND_SEGMENT: &str = "\
SegmentRule { vid: Vid { number: 20 }, tunnels: Tunnels { first: SegmentTunnel { kind: Geneve, \
vni: Vni { number: 6000 }, group: 0 }, second: None }, flood: FloodList { entries: Stored { few: [Remote { tunnel: Geneve, \
addr: V4([192, 0, 2, 2]) }], many: None } }, limit: 256, ageing: 300, learning: true, peers: Any, tags: Drop, \
untagged: PortList { numbers: [] }, tagged: PortList { numbers: [2, 3] } }";

fn endpoint_means(alloc: Global) -> Result<String, AllocError> {
    [
        UNDERLAY_AND_PORTS,
        FIRST_SEGMENT,
        ", ",
        SECOND_SEGMENT,
        "], pool: 512 } }",
    ]
    .concat(alloc)
}

/// What differs in what the settings of its peer mean.
const OF_PEER: [(&str, &str); 4] = [
    ("Mac([2, 0, 0, 0, 170, 1])", "Mac([2, 0, 0, 0, 170, 2])"),
    ("ip4: Some([192, 0, 2, 1])", "ip4: Some([192, 0, 2, 2])"),
    ("0, 0, 0, 1])", "0, 0, 0, 2])"),
    ("V4([192, 0, 2, 2])", "V4([192, 0, 2, 1])"),
];

fn peer_means(alloc: Global) -> Result<String, AllocError> {
    replaced(alloc, &endpoint_means(alloc)?, &OF_PEER)
}

/// What differs in the segment of the bridge.
const OF_BRIDGE: [(&str, &str); 3] = [
    ("Remote { tunnel: Vxlan, addr: V4([192, 0, 2, 2]) }", ""),
    (
        "untagged: PortList { numbers: [1, 2] }",
        "untagged: PortList { numbers: [1, 2, 3] }",
    ),
    (
        " tagged: PortList { numbers: [3] }",
        " tagged: PortList { numbers: [] }",
    ),
];

fn bridge_means(alloc: Global) -> Result<String, AllocError> {
    let segment = replaced(alloc, FIRST_SEGMENT, &OF_BRIDGE)?;
    [UNDERLAY_AND_PORTS, segment.as_str(), "], pool: 256 } }"].concat(alloc)
}

/// Settings in which each key that may be left out has another value than it has then.
const OTHER_VALUES: &str = r#"version = 1
pool = 10000
[underlay]
mac = "02:00:00:00:AA:01"
next_hop = "02:00:00:00:aa:fe"
ip4 = "192.0.2.1"
mtu = 65535
ttl = 255
vxlan_port = 6081
geneve_port = 65535
sum4 = true
sum6 = false
zero6 = false
known = [[258, 128], [65535, 255]]
[[underlay.hop]]
addr = "2001:DB8::9"
mac = "02:00:00:00:BB:09"
[[port]]
pvid = 10
accept = "tagged"
up = false
[[port]]
pvid = 4094
accept = "untagged"
[[segment]]
vid = 10
vni = 5000
tunnel = "vxlan"
limit = 8192
ageing = 1000000
learn = false
peers = "listed"
tags = "pass"
untagged = [2, 1]
flood = ["192.0.2.3", "239.1.1.1"]
"#;

const OTHER_VALUES_MEAN: &str = "\
Settings { parts: Parts { underlay: Underlay { mac: Mac([2, 0, 0, 0, 170, 1]), \
next_hop: Mac([2, 0, 0, 0, 170, 254]), ip4: Some([192, 0, 2, 1]), ip6: None, mtu: 65535, ttl: 255, \
vxlan_port: 6081, geneve_port: 65535, sum4: true, sum6: false, zero6: false, partial: false, \
known: Known { pairs: [(258, 128), (65535, 255)] }, \
hops: Hops { exceptions: [Hop { addr: V6([32, 1, 13, 184, 0, 0, 0, 0, 0, 0, 0, 0, 0, 0, 0, 9]), \
mac: Mac([2, 0, 0, 0, 187, 9]) }] }, limits: Limits { ports: 16, segments: 256, flood: 16, hops: 64, entries: 8192, \
addresses: 65536 } }, ports: [PortRule { pvid: Vid { number: 10 }, accept: Tagged, up: false }, \
PortRule { pvid: Vid { number: 4094 }, accept: Untagged, up: true }], \
segments: [SegmentRule { vid: Vid { number: 10 }, tunnels: Tunnels { first: SegmentTunnel { kind: Vxlan, \
vni: Vni { number: 5000 }, group: 0 }, second: None }, flood: FloodList { entries: Stored { few: [Remote { tunnel: Vxlan, \
addr: V4([192, 0, 2, 3]) }, Remote { tunnel: Vxlan, addr: V4([239, 1, 1, 1]) }], many: None } }, limit: 8192, ageing: 1000000, \
learning: false, peers: Listed, tags: Pass, untagged: PortList { numbers: [2, 1] }, \
tagged: PortList { numbers: [] } }], pool: 10000 } }";

/// Settings of version 1.
pub(crate) fn first_version(alloc: Global) -> Result<[Meant; 4], AllocError> {
    Ok([
        (String::from_str(alloc, ENDPOINT)?, endpoint_means(alloc)?),
        (peer(alloc)?, peer_means(alloc)?),
        (bridge(alloc)?, bridge_means(alloc)?),
        (
            String::from_str(alloc, OTHER_VALUES)?,
            String::from_str(alloc, OTHER_VALUES_MEAN)?,
        ),
    ])
}

/// Segments of version 2, of which one has two tunnels and another one has one.
const TWO_TUNNELS_AND_ONE: &str = r#"[[segment]]
vid = 10
limit = 100
untagged = [1]
[[segment.tunnel]]
kind = "geneve"
vni = 9000
group = 255
flood = ["192.0.2.3", "192.0.2.2"]
[[segment.tunnel]]
kind = "vxlan"
vni = 5000
group = 1
flood = ["192.0.2.2"]
[[segment]]
vid = 20
[[segment.tunnel]]
kind = "vxlan"
vni = 9000
"#;

const TWO_TUNNELS_AND_ONE_MEAN: &str = "\
Settings { parts: Parts { underlay: Underlay { mac: Mac([2, 0, 0, 0, 170, 1]), \
next_hop: Mac([2, 0, 0, 0, 170, 254]), ip4: Some([192, 0, 2, 1]), ip6: None, mtu: 1550, ttl: 64, vxlan_port: 4789, \
geneve_port: 6081, sum4: false, sum6: true, zero6: true, partial: false, known: Known { pairs: [] }, \
hops: Hops { exceptions: [] }, limits: Limits { ports: 16, segments: 256, flood: 16, hops: 64, entries: 8192, \
addresses: 65536 } }, ports: [PortRule { pvid: Vid { number: 10 }, accept: All, up: true }], \
segments: [SegmentRule { vid: Vid { number: 10 }, tunnels: Tunnels { first: SegmentTunnel { kind: Geneve, \
vni: Vni { number: 9000 }, group: 255 }, second: Some(SegmentTunnel { kind: Vxlan, vni: Vni { number: 5000 }, \
group: 1 }) }, flood: FloodList { entries: Stored { few: [Remote { tunnel: Geneve, addr: V4([192, 0, 2, 3]) }, \
Remote { tunnel: Geneve, addr: V4([192, 0, 2, 2]) }, Remote { tunnel: Vxlan, addr: V4([192, 0, 2, 2]) }], \
many: None } }, \
limit: 100, ageing: 300, learning: true, peers: Any, tags: Drop, untagged: PortList { numbers: [1] }, \
tagged: PortList { numbers: [] } }, SegmentRule { vid: Vid { number: 20 }, \
tunnels: Tunnels { first: SegmentTunnel { kind: Vxlan, vni: Vni { number: 9000 }, group: 0 }, second: None }, \
flood: FloodList { entries: Stored { few: [], many: None } }, limit: 256, ageing: 300, learning: true, peers: Any, tags: Drop, \
untagged: PortList { numbers: [] }, tagged: PortList { numbers: [] } }], pool: 1000 } }";

/// Settings of version 2.
pub(crate) fn second_version(alloc: Global) -> Result<Meant, AllocError> {
    Ok((
        with_one_port(alloc, "version = 2\npool = 1000\n", TWO_TUNNELS_AND_ONE)?,
        String::from_str(alloc, TWO_TUNNELS_AND_ONE_MEAN)?,
    ))
}

/// The limits at their most, in front of the same in version 3; each has a value of its own. With 4,094 segments there may be
/// 256 remotes of each.
const AT_MOST: &str = "\
version = 3
pool = 1000
[limits]
addresses = 1048576
entries = 131072
hops = 4096
flood = 256
segments = 4094
ports = 255
";

/// What differs in the segments: the first tunnel has 16 remotes, so that the second one's is the 17th.
const OF_TUNNELS: [(&str, &str); 1] = [(
    r#"["192.0.2.3", "192.0.2.2"]"#,
    r#"["192.0.2.17", "192.0.2.16", "192.0.2.15", "192.0.2.14", "192.0.2.13", "192.0.2.12", "192.0.2.11",
"192.0.2.10", "192.0.2.9", "192.0.2.8", "192.0.2.7", "192.0.2.6", "192.0.2.5", "192.0.2.4", "192.0.2.3", "192.0.2.2"]"#,
)];

/// What differs in what they mean.
const OF_LIMITS: [(&str, &str); 2] = [
    (
        "Limits { ports: 16, segments: 256, flood: 16, hops: 64, entries: 8192, addresses: 65536 }",
        "Limits { ports: 255, segments: 4094, flood: 256, hops: 4096, entries: 131072, addresses: 1048576 }",
    ),
    (
        "few: [Remote { tunnel: Geneve, addr: V4([192, 0, 2, 3]) }, Remote { tunnel: Geneve, addr: V4([192, 0, 2, 2]) }, \
Remote { tunnel: Vxlan, addr: V4([192, 0, 2, 2]) }], many: None",
        "few: [], many: Some([Remote { tunnel: Geneve, addr: V4([192, 0, 2, 17]) }, \
Remote { tunnel: Geneve, addr: V4([192, 0, 2, 16]) }, Remote { tunnel: Geneve, addr: V4([192, 0, 2, 15]) }, \
Remote { tunnel: Geneve, addr: V4([192, 0, 2, 14]) }, Remote { tunnel: Geneve, addr: V4([192, 0, 2, 13]) }, \
Remote { tunnel: Geneve, addr: V4([192, 0, 2, 12]) }, Remote { tunnel: Geneve, addr: V4([192, 0, 2, 11]) }, \
Remote { tunnel: Geneve, addr: V4([192, 0, 2, 10]) }, Remote { tunnel: Geneve, addr: V4([192, 0, 2, 9]) }, \
Remote { tunnel: Geneve, addr: V4([192, 0, 2, 8]) }, Remote { tunnel: Geneve, addr: V4([192, 0, 2, 7]) }, \
Remote { tunnel: Geneve, addr: V4([192, 0, 2, 6]) }, Remote { tunnel: Geneve, addr: V4([192, 0, 2, 5]) }, \
Remote { tunnel: Geneve, addr: V4([192, 0, 2, 4]) }, Remote { tunnel: Geneve, addr: V4([192, 0, 2, 3]) }, \
Remote { tunnel: Geneve, addr: V4([192, 0, 2, 2]) }, \
Remote { tunnel: Vxlan, addr: V4([192, 0, 2, 2]) }])",
    ),
];

/// Settings of version 3.
pub(crate) fn third_version(alloc: Global) -> Result<Meant, AllocError> {
    let text = with_one_port(alloc, AT_MOST, TWO_TUNNELS_AND_ONE)?;
    Ok((
        replaced(alloc, &text, &OF_TUNNELS)?,
        replaced(alloc, TWO_TUNNELS_AND_ONE_MEAN, &OF_LIMITS)?,
    ))
}

/// A segment of version 2, with one tunnel.
const ONE_TUNNEL: &str = r#"[[segment]]
vid = 10
[[segment.tunnel]]
kind = "vxlan"
flood = ["192.0.2.2", "239.1.1.1"]
vni = 5000
"#;

/// The same in version 1.
const ONE_TUNNEL_BEFORE: &str = r#"[[segment]]
vid = 10
vni = 5000
tunnel = "vxlan"
flood = ["192.0.2.2", "239.1.1.1"]
"#;

/// Settings of one segment in version 2.
pub(crate) fn one_tunnel(alloc: Global) -> Result<String, AllocError> {
    with_one_port(alloc, "version = 2\n", ONE_TUNNEL)
}

/// The same in version 1.
pub(crate) fn one_tunnel_before(alloc: Global) -> Result<String, AllocError> {
    with_one_port(alloc, "version = 1\n", ONE_TUNNEL_BEFORE)
}
