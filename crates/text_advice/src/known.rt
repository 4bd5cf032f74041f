//! The keys of each table.
ghost use Rattle.std.specs.Prelude.{◌≡◌, map};
ghost use Rattle.text_advice.specs.Known.{row_of, fits, keys_in, keys_of};

/// Which text it is.
#[derive(Clone, Copy, Debug)]
pub enum TextKind {
    Settings,
    Changes,
}

/// The path of a table's keys, without the numbers of tables and with `*` for a key; the version of the text or the kind
/// of the change, or nothing for any other; and the keys that the table may have.
pub type TableKeys = (&'static str, &'static str, &'static [&'static str]);

/// The tables of settings.
pub const SETTINGS_KEYS: [TableKeys; 11] = [
    (
        "*",
        "3",
        &["version", "pool", "limits", "underlay", "port", "segment"],
    ),
    ("*", "", &["version", "pool", "underlay", "port", "segment"]),
    (
        "limits.*",
        "",
        &["ports", "segments", "flood", "hops", "entries", "addresses"],
    ),
    (
        "underlay.*",
        "3",
        &[
            "mac",
            "next_hop",
            "ip4",
            "ip6",
            "mtu",
            "ttl",
            "vxlan_port",
            "geneve_port",
            "sum4",
            "sum6",
            "zero6",
            "partial",
            "known",
            "hop",
        ],
    ),
    (
        "underlay.*",
        "",
        &[
            "mac",
            "next_hop",
            "ip4",
            "ip6",
            "mtu",
            "ttl",
            "vxlan_port",
            "geneve_port",
            "sum4",
            "sum6",
            "zero6",
            "known",
            "hop",
        ],
    ),
    ("underlay.hop.*", "", &["addr", "mac"]),
    ("port.*", "", &["pvid", "accept", "up"]),
    (
        "segment.*",
        "3",
        &[
            "vid", "tunnel", "limit", "ageing", "learn", "peers", "tags", "untagged", "tagged",
        ],
    ),
    (
        "segment.*",
        "2",
        &[
            "vid", "tunnel", "limit", "ageing", "learn", "peers", "tags", "untagged", "tagged",
        ],
    ),
    (
        "segment.*",
        "",
        &[
            "vid", "vni", "tunnel", "limit", "ageing", "learn", "peers", "tags", "untagged",
            "tagged", "flood",
        ],
    ),
    ("segment.tunnel.*", "", &["kind", "vni", "group", "flood"]),
];

/// The tables of changes.
pub const CHANGE_KEYS: [TableKeys; 14] = [
    ("*", "", &["version", "change"]),
    (
        "change.*",
        "add_flood",
        &["kind", "at", "vid", "addr", "tunnel"],
    ),
    (
        "change.*",
        "remove_flood",
        &["kind", "at", "vid", "addr", "tunnel"],
    ),
    (
        "change.*",
        "fix",
        &["kind", "at", "vid", "mac", "port", "remote", "tunnel"],
    ),
    ("change.*", "unfix", &["kind", "at", "vid", "mac"]),
    ("change.*", "set_ageing", &["kind", "at", "vid", "seconds"]),
    ("change.*", "set_learning", &["kind", "at", "vid", "on"]),
    (
        "change.*",
        "set_member",
        &["kind", "at", "vid", "port", "egress"],
    ),
    ("change.*", "port_up", &["kind", "at", "port"]),
    ("change.*", "port_down", &["kind", "at", "port"]),
    ("change.*", "flush", &["kind", "at", "vid"]),
    (
        "change.*",
        "add_segment",
        &[
            "kind", "at", "vid", "vni", "tunnel", "group", "vni2", "group2", "limit", "ageing",
            "learn", "peers", "tags",
        ],
    ),
    ("change.*", "remove_segment", &["kind", "at", "vid"]),
    ("change.*", "set_limit", &["kind", "at", "vid", "limit"]),
];

/// Whether a row is for what is told: a row for nothing is for all.
pub(crate) fn fits(own: &str, told: &[u8]) -> bool
    ensures { result ≡ fits own.now told.now }
{
    match own.as_bytes() {
        [] => true,
        own => own == told,
    }
}

/// The keys of the first row of this path that fits the variant; none where there is no such row.
fn keys_in(rows: &[TableKeys], path: &[u8], variant: &[u8]) -> &'static [&'static str]
    ensures { map (λ k. k.now) result.now ≡ keys_in (map row_of rows.now) path.now variant.now }
{
    for row in rows {
        if row.0.as_bytes() == path && fits(row.1, variant) {
            return row.2;
        }
    }
    &[]
}

/// The keys of a table by the path of its keys; none where the path is that of a single key.
#[tactic(auto, unfolding(crate::specs::Known::keys_of))]
pub(crate) fn keys_of(kind: TextKind, path: &[u8], variant: &[u8]) -> &'static [&'static str]
    ensures { map (λ k. k.now) result.now ≡ keys_of kind path.now variant.now }
{
    match kind {
        TextKind::Settings => keys_in(&SETTINGS_KEYS, path, variant),
        TextKind::Changes => keys_in(&CHANGE_KEYS, path, variant),
    }
}
