//! Settings of endpoints, as texts.
use std::alloc::{AllocError, Global};

/// An endpoint at 192.0.2.1 and 2001:db8::1 with three ports, and with a VXLAN segment and a Geneve segment that flood to
/// the peer.
pub const ENDPOINT: &str = r#"version = 1
[underlay]
mac = "02:00:00:00:aa:01"
next_hop = "02:00:00:00:aa:fe"
ip4 = "192.0.2.1"
ip6 = "2001:db8::1"
[[port]]
pvid = 10
[[port]]
pvid = 10
[[port]]
pvid = 10
[[segment]]
vid = 10
vni = 5000
tunnel = "vxlan"
untagged = [1, 2]
tagged = [3]
flood = ["192.0.2.2"]
[[segment]]
vid = 20
vni = 6000
tunnel = "geneve"
tagged = [2, 3]
flood = ["192.0.2.2"]
"#;

/// What differs in the settings of its peer at 192.0.2.2 and 2001:db8::2.
const OF_PEER: [(&str, &str); 4] = [
    ("aa:01", "aa:02"),
    ("ip4 = \"192.0.2.1\"", "ip4 = \"192.0.2.2\""),
    ("2001:db8::1", "2001:db8::2"),
    ("flood = [\"192.0.2.2\"]", "flood = [\"192.0.2.1\"]"),
];

/// The settings of its peer.
pub fn peer(alloc: Global) -> Result<String, AllocError> {
    replaced(alloc, ENDPOINT, &OF_PEER)
}

/// A text with other words for some of its own, each pair in turn.
pub fn replaced(alloc: Global, text: &str, pairs: &[(&str, &str)]) -> Result<String, AllocError> {
    let mut text = String::from_str(alloc, text)?;
    for (own, other) in pairs {
        text = text.replace(alloc, own, other)?;
    }
    Ok(text)
}

/// The settings of a learning bridge alone: that VXLAN segment by itself, with all three ports untagged and no remotes.
pub fn bridge(alloc: Global) -> Result<String, AllocError> {
    let (front, _members) = ENDPOINT.split_once("untagged").unwrap_or((ENDPOINT, ""));
    let mut text = String::from_str(alloc, front)?;
    text.push_str("untagged = [1, 2, 3]\ntagged = []\nflood = []\n")?;
    Ok(text)
}

/// An underlay at 192.0.2.1 alone.
const UNDERLAY: &str = r#"[underlay]
mac = "02:00:00:00:aa:01"
next_hop = "02:00:00:00:aa:fe"
ip4 = "192.0.2.1"
"#;

/// A port.
const PORT: &str = "[[port]]\npvid = 10\n";

/// Settings of one port on such an underlay, with the lines in front of the tables, and with the segments, as texts.
pub fn with_one_port(alloc: Global, front: &str, segments: &str) -> Result<String, AllocError> {
    [front, UNDERLAY, PORT, segments].concat(alloc)
}
