//! The endpoints and the changes.
use endpoint_core::Endpoint;
use overlay_config::{Settings, TimedChange, changes_of, settings_of};
use std::alloc::Global;
use std::test::Fail;

/// Changes of every kind, in two segments and in a third that comes and goes. Each can be made once those in front of it
/// were, over and over, but for the last, which is refused: there is no VID 400.
pub(crate) fn kinds<'a>() -> &'a str {
    r#"change = [
    {kind = "set_limit", at = 0, vid = 10, limit = 100},
    {kind = "set_limit", at = 0, vid = 20, limit = 50},
    {kind = "add_segment", at = 0, vid = 128, vni = 7000, tunnel = "vxlan", limit = 100},
    {kind = "set_member", at = 0, vid = 128, port = 2, egress = "tagged"},
    {kind = "set_member", at = 0, vid = 128, port = 3, egress = "tagged"},
    {kind = "add_flood", at = 0, vid = 128, addr = "192.0.2.8"},
    {kind = "fix", at = 0, vid = 128, mac = "02:00:00:00:00:01", port = 2},
    {kind = "add_flood", at = 0, vid = 10, addr = "2001:db8::9"},
    {kind = "fix", at = 0, vid = 20, mac = "02:00:00:00:00:01", remote = "192.0.2.9"},
    {kind = "set_ageing", at = 0, vid = 10, seconds = 10},
    {kind = "set_learning", at = 0, vid = 20, on = false},
    {kind = "set_limit", at = 0, vid = 128, limit = 4},
    {kind = "port_down", at = 0, port = 3},
    {kind = "port_up", at = 0, port = 3},
    {kind = "set_learning", at = 0, vid = 20, on = true},
    {kind = "unfix", at = 0, vid = 20, mac = "02:00:00:00:00:01"},
    {kind = "remove_flood", at = 0, vid = 10, addr = "2001:db8::9"},
    {kind = "flush", at = 0, vid = 10},
    {kind = "set_ageing", at = 0, vid = 10, seconds = 300},
    {kind = "remove_segment", at = 0, vid = 128},
    {kind = "flush", at = 0, vid = 400},
]
"#
}

/// A segment that comes with a member and a remote endpoint, gets another limit, and goes.
pub(crate) fn one_segment<'a>() -> &'a str {
    r#"change = [
    {kind = "add_segment", at = 0, vid = 128, vni = 7000, tunnel = "vxlan", limit = 100},
    {kind = "set_member", at = 0, vid = 128, port = 3, egress = "tagged"},
    {kind = "add_flood", at = 0, vid = 128, addr = "192.0.2.8"},
    {kind = "set_limit", at = 0, vid = 128, limit = 1},
    {kind = "remove_segment", at = 0, vid = 128},
]
"#
}

/// Settings of two segments at most and flood lists of 40 remotes at most, with one segment whose list has 18.
pub(crate) fn wide<'a>() -> &'a str {
    r#"version = 3
pool = 512
[limits]
segments = 2
flood = 40
[underlay]
mac = "02:00:00:00:aa:01"
next_hop = "02:00:00:00:aa:fe"
ip4 = "192.0.2.1"
[[port]]
pvid = 10
[[port]]
pvid = 10
[[port]]
pvid = 10
[[segment]]
vid = 10
untagged = [1, 2]
tagged = [3]
[[segment.tunnel]]
kind = "vxlan"
vni = 5000
flood = [
    "198.51.100.1", "198.51.100.2", "198.51.100.3", "198.51.100.4", "198.51.100.5", "198.51.100.6", "198.51.100.7",
    "198.51.100.8", "198.51.100.9", "198.51.100.10", "198.51.100.11", "198.51.100.12", "198.51.100.13", "198.51.100.14",
    "198.51.100.15", "198.51.100.16", "198.51.100.17", "198.51.100.18",
]
"#
}

/// The segment that these settings have, with one of its ports.
pub(crate) fn first_segment<'a>() -> &'a str {
    r#"change = [
    {kind = "add_segment", at = 0, vid = 10, vni = 5000, tunnel = "vxlan"},
    {kind = "set_member", at = 0, vid = 10, port = 1, egress = "tagged"},
]
"#
}

/// Another one, with another port.
pub(crate) fn second_segment<'a>() -> &'a str {
    r#"change = [
    {kind = "add_segment", at = 0, vid = 20, vni = 6000, tunnel = "geneve"},
    {kind = "set_member", at = 0, vid = 20, port = 2, egress = "tagged"},
]
"#
}

/// The changes of a text.
pub(crate) fn changes(alloc: Global, text: &str) -> Result<Vec<TimedChange>, Fail> {
    match changes_of(alloc, text.as_bytes()) {
        Ok(changes) => Ok(changes),
        Err(_) => Err(Fail::new("no changes")),
    }
}

/// The settings of a text.
fn settings(alloc: Global, text: &str) -> Result<Settings, Fail> {
    match settings_of(alloc, text.as_bytes()) {
        Ok(settings) => Ok(settings),
        Err(_) => Err(Fail::new("no settings")),
    }
}

/// An endpoint with the settings of a text.
pub(crate) fn endpoint(alloc: Global, text: &str) -> Result<Endpoint, Fail> {
    match Endpoint::open(alloc, settings(alloc, text)?) {
        Ok(endpoint) => Ok(endpoint),
        Err(_) => Err(Fail::new("no endpoint")),
    }
}
