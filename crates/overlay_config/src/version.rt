//! The versions of settings.
ghost use Rattle.std.specs.Prelude.{◌≡◌, map};
ghost use Rattle.overlay_config.specs.Segment.{segment_keys};
ghost use Rattle.overlay_config.specs.Underlay.{underlay_keys};
ghost use Rattle.overlay_config.specs.Version.{version_named};

/// The versions of settings, which differ in what a segment says of its tunnels, and in keys at the top and of the underlay.
#[derive(Clone, Copy)]
pub(crate) enum Version {
    One,
    /// A segment has one tunnel or two, each in a table of its own.
    Two,
    /// As the second, and there may be limits of its own, and the underlay says whether checksums left to the card are taken.
    Three,
}

/// The keys of the underlay's table; one more stands before the last two, where it is given.
macro_rules! underlay_keys {
    ($($added:literal)?) => {
        [
            "mac",
            "next_hop",
            "ip4",
            "ip6",
            "mtu",
            "ttl",
            "vxlan_port",
            "geneve_port",
            "sum4",
            "sum6",
            "zero6",
            $($added,)?
            "known",
            "hop",
        ]
    };
}

const UNDERLAY_KEYS: [&str; 13] = underlay_keys!();

const UNDERLAY_KEYS_THREE: [&str; 14] = underlay_keys!("partial");

const SEGMENT_KEYS_ONE: [&str; 11] = [
    "vid", "vni", "tunnel", "limit", "ageing", "learn", "peers", "tags", "untagged", "tagged",
    "flood",
];

const SEGMENT_KEYS_TWO: [&str; 9] = [
    "vid", "tunnel", "limit", "ageing", "learn", "peers", "tags", "untagged", "tagged",
];

impl Version {
    /// The version of this number, 1 to 3.
    pub(crate) fn named(number: u8) -> Version
        ensures { result ≡ version_named number }
    {
        match number {
            1 => Version::One,
            2 => Version::Two,
            _ => Version::Three,
        }
    }

    /// The keys of the underlay's table.
    pub(crate) fn underlay_keys(self) -> &'static [&'static str]
        ensures { map (λ k. k.now) result.now ≡ underlay_keys self }
    {
        match self {
            Version::One | Version::Two => &UNDERLAY_KEYS,
            Version::Three => &UNDERLAY_KEYS_THREE,
        }
    }

    /// The keys of a segment's table.
    pub(crate) fn segment_keys(self) -> &'static [&'static str]
        ensures { map (λ k. k.now) result.now ≡ segment_keys self }
    {
        match self {
            Version::One => &SEGMENT_KEYS_ONE,
            Version::Two | Version::Three => &SEGMENT_KEYS_TWO,
        }
    }
}
