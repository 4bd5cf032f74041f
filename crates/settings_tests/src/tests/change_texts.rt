//! Texts of changes, and what they mean.

/// A text, and what it means.
pub(crate) type Meaning<'a> = (&'a str, &'a str);

/// Texts of one change of each kind, and of those of its forms that differ; and what they mean, a moment and a change on each
/// line. In the second text the first change has each default of a segment of settings.
pub(crate) fn meanings<'a>() -> &'a [Meaning<'a>] {
    &[
        (
            r#"
[[change]]
kind = "add_flood"
at = 0
vid = 10
addr = "192.0.2.9"
[[change]]
kind = "add_flood"
at = 1
vid = 4094
addr = "::"
tunnel = "geneve"
[[change]]
kind = "remove_flood"
at = 1
vid = 1
addr = "255.255.255.255"
tunnel = "vxlan"
[[change]]
kind = "fix"
at = 2
vid = 10
mac = "01:00:5e:00:00:01"
port = 255
[[change]]
kind = "fix"
at = 2
vid = 10
mac = "02:00:00:00:00:01"
remote = "239.1.1.1"
[[change]]
kind = "fix"
at = 2
vid = 10
mac = "02:00:00:00:00:01"
remote = "192.0.2.9"
tunnel = "geneve"
[[change]]
kind = "unfix"
at = 3
vid = 10
mac = "FF:ff:FF:ff:FF:ff"
[[change]]
kind = "set_ageing"
at = 4
vid = 10
seconds = 4294967295
[[change]]
kind = "set_learning"
at = 5
vid = 10
on = false
[[change]]
kind = "set_member"
at = 6
vid = 10
port = 3
egress = "tagged"
[[change]]
kind = "set_member"
at = 6
vid = 10
port = 3
egress = "untagged"
[[change]]
kind = "set_member"
at = 6
vid = 10
port = 0
egress = "none"
[[change]]
kind = "port_up"
at = 7
port = 9
[[change]]
kind = "port_down"
at = 8
port = 9
[[change]]
kind = "flush"
at = 4294967295999999999
vid = 10
"#,
            r#"0: AddFlood { vid: Vid { number: 10 }, addr: V4([192, 0, 2, 9]), tunnel: None }
1: AddFlood { vid: Vid { number: 4094 }, addr: V6([0, 0, 0, 0, 0, 0, 0, 0, 0, 0, 0, 0, 0, 0, 0, 0]), tunnel: Some(Geneve) }
1: RemoveFlood { vid: Vid { number: 1 }, addr: V4([255, 255, 255, 255]), tunnel: Some(Vxlan) }
2: Fix { vid: Vid { number: 10 }, mac: Mac([1, 0, 94, 0, 0, 1]), target: Local(255) }
2: Fix { vid: Vid { number: 10 }, mac: Mac([2, 0, 0, 0, 0, 1]), target: Remote(V4([239, 1, 1, 1]), None) }
2: Fix { vid: Vid { number: 10 }, mac: Mac([2, 0, 0, 0, 0, 1]), target: Remote(V4([192, 0, 2, 9]), Some(Geneve)) }
3: Unfix { vid: Vid { number: 10 }, mac: Mac([255, 255, 255, 255, 255, 255]) }
4: SetAgeing { vid: Vid { number: 10 }, seconds: 4294967295 }
5: SetLearning { vid: Vid { number: 10 }, on: false }
6: SetMember { vid: Vid { number: 10 }, port: 3, egress: Some(Tagged) }
6: SetMember { vid: Vid { number: 10 }, port: 3, egress: Some(Untagged) }
6: SetMember { vid: Vid { number: 10 }, port: 0, egress: None }
7: PortUp { port: 9 }
8: PortDown { port: 9 }
4294967295999999999: Flush { vid: Vid { number: 10 } }
"#,
        ),
        (
            r#"
[[change]]
kind = "add_segment"
at = 1
vid = 30
vni = 7000
tunnel = "geneve"
[[change]]
kind = "add_segment"
at = 2
vid = 4094
vni = 16777215
tunnel = "vxlan"
limit = 0
ageing = 4294967295
learn = false
peers = "listed"
tags = "pass"
[[change]]
kind = "add_segment"
at = 2
vid = 31
vni = 0
tunnel = "vxlan"
group = 255
[[change]]
kind = "add_segment"
at = 2
vid = 32
vni = 5000
tunnel = "vxlan"
vni2 = 9000
[[change]]
kind = "add_segment"
at = 2
vid = 33
vni = 9000
tunnel = "geneve"
group = 1
vni2 = 9000
group2 = 2
limit = 1
[[change]]
kind = "set_limit"
at = 3
vid = 30
limit = 4294967295
[[change]]
kind = "remove_segment"
at = 4
vid = 30
"#,
            "\
1: AddSegment(NewSegment { vid: Vid { number: 30 }, tunnels: Tunnels { first: SegmentTunnel { kind: Geneve, \
vni: Vni { number: 7000 }, group: 0 }, second: None }, limit: 256, ageing: 300, learning: true, peers: Any, tags: Drop })\n\
2: AddSegment(NewSegment { vid: Vid { number: 4094 }, tunnels: Tunnels { first: SegmentTunnel { kind: Vxlan, \
vni: Vni { number: 16777215 }, group: 0 }, second: None }, limit: 0, ageing: 4294967295, learning: false, peers: Listed, \
tags: Pass })\n\
2: AddSegment(NewSegment { vid: Vid { number: 31 }, tunnels: Tunnels { first: SegmentTunnel { kind: Vxlan, vni: Vni { number: 0 }, \
group: 255 }, second: None }, limit: 256, ageing: 300, learning: true, peers: Any, tags: Drop })\n\
2: AddSegment(NewSegment { vid: Vid { number: 32 }, tunnels: Tunnels { first: SegmentTunnel { kind: Vxlan, vni: Vni { number: 5000 }, \
group: 0 }, second: Some(SegmentTunnel { kind: Geneve, vni: Vni { number: 9000 }, group: 0 }) }, limit: 256, ageing: 300, \
learning: true, peers: Any, tags: Drop })\n\
2: AddSegment(NewSegment { vid: Vid { number: 33 }, tunnels: Tunnels { first: SegmentTunnel { kind: Geneve, \
vni: Vni { number: 9000 }, group: 1 }, second: Some(SegmentTunnel { kind: Vxlan, vni: Vni { number: 9000 }, group: 2 }) }, limit: 1, \
ageing: 300, learning: true, peers: Any, tags: Drop })\n\
3: SetLimit { vid: Vid { number: 30 }, limit: 4294967295 }\n\
4: RemoveSegment { vid: Vid { number: 30 } }\n",
        ),
    ]
}
