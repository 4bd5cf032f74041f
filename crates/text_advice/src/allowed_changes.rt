//! What is allowed under each key of changes.

use crate::allowed::Sentence;

/// What is allowed under each key of changes.
pub const CHANGE_SENTENCES: [Sentence; 25] = [
    (
        "version",
        "",
        "",
        "the number 2, for up to 100000 tables; or no version, for up to 10000",
    ),
    (
        "change",
        "",
        "NotRising ",
        "a moment not below that of the change before",
    ),
    (
        "change",
        "2",
        "",
        "at most 100000 tables, each headed [[change]]",
    ),
    (
        "change",
        "",
        "OverLimit ",
        "at most 10000 tables, each headed [[change]]; version = 2 raises it to 100000",
    ),
    (
        "change",
        "",
        "",
        "at most 10000 tables, each headed [[change]]",
    ),
    (
        "change.kind",
        "",
        "",
        "\"add_flood\", \"remove_flood\", \"fix\", \"unfix\", \"set_ageing\", \"set_learning\", \"set_member\", \"port_up\", \
        \"port_down\", \"flush\", \"add_segment\", \"remove_segment\" or \"set_limit\"",
    ),
    (
        "change.at",
        "",
        "",
        "a number of nanoseconds, 0 to 4294967295999999999",
    ),
    ("change.vid", "", "", "a number, 1 to 4094"),
    (
        "change.addr",
        "",
        "",
        "an address in quotes, as \"192.0.2.2\" or \"2001:db8::2\"",
    ),
    (
        "change.tunnel",
        "",
        "",
        "\"vxlan\" or \"geneve\"; in a fix beside remote alone",
    ),
    (
        "change.mac",
        "",
        "",
        "a MAC address in quotes, as \"02:00:00:00:00:01\"",
    ),
    (
        "change.port",
        "",
        "",
        "a number, 0 to 255; in a fix one of port and remote",
    ),
    (
        "change.remote",
        "",
        "",
        "an address in quotes, as \"192.0.2.2\" or \"2001:db8::2\"; in a fix one of port and remote",
    ),
    (
        "change.seconds",
        "",
        "",
        "a number of seconds, 0 to 4294967295",
    ),
    ("change.on", "", "", "true or false"),
    (
        "change.egress",
        "",
        "",
        "\"tagged\", \"untagged\" or \"none\"",
    ),
    ("change.vni", "", "", "a number, 0 to 16777215"),
    ("change.group", "", "", "a number, 0 to 255"),
    ("change.vni2", "", "", "a number, 0 to 16777215"),
    (
        "change.group2",
        "",
        "",
        "a number, 0 to 255; beside vni2 alone",
    ),
    ("change.limit", "", "", "a number, 0 to 4294967295"),
    (
        "change.ageing",
        "",
        "",
        "a number of seconds, 0 to 4294967295",
    ),
    ("change.learn", "", "", "true or false"),
    ("change.peers", "", "", "\"any\" or \"listed\""),
    ("change.tags", "", "", "\"drop\", \"pass\" or \"never\""),
];
