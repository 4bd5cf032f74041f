//! The kinds of changes, and the keys of each.

/// The kind of a change.
#[derive(Clone, Copy)]
pub(crate) enum Kind {
    AddFlood,
    RemoveFlood,
    Fix,
    Unfix,
    SetAgeing,
    SetLearning,
    SetMember,
    PortUp,
    PortDown,
    Flush,
    AddSegment,
    RemoveSegment,
    SetLimit,
}

/// The kinds by their words.
pub(crate) const KINDS: [(&str, Kind); 13] = [
    ("add_flood", Kind::AddFlood),
    ("remove_flood", Kind::RemoveFlood),
    ("fix", Kind::Fix),
    ("unfix", Kind::Unfix),
    ("set_ageing", Kind::SetAgeing),
    ("set_learning", Kind::SetLearning),
    ("set_member", Kind::SetMember),
    ("port_up", Kind::PortUp),
    ("port_down", Kind::PortDown),
    ("flush", Kind::Flush),
    ("add_segment", Kind::AddSegment),
    ("remove_segment", Kind::RemoveSegment),
    ("set_limit", Kind::SetLimit),
];

const FLOOD: [&str; 5] = ["kind", "at", "vid", "addr", "tunnel"];

const FIX: [&str; 7] = ["kind", "at", "vid", "mac", "port", "remote", "tunnel"];

const UNFIX: [&str; 4] = ["kind", "at", "vid", "mac"];

const AGEING: [&str; 4] = ["kind", "at", "vid", "seconds"];

const LEARNING: [&str; 4] = ["kind", "at", "vid", "on"];

const MEMBER: [&str; 5] = ["kind", "at", "vid", "port", "egress"];

const PORT: [&str; 3] = ["kind", "at", "port"];

const SEGMENT: [&str; 3] = ["kind", "at", "vid"];

const NEW_SEGMENT: [&str; 13] = [
    "kind", "at", "vid", "vni", "tunnel", "group", "vni2", "group2", "limit", "ageing", "learn",
    "peers", "tags",
];

const LIMIT: [&str; 4] = ["kind", "at", "vid", "limit"];

impl Kind {
    ghost use Rattle.std.specs.Prelude.{◌≡◌, map};
    ghost use Rattle.overlay_config.specs.Change.{keys_of};

    /// The keys of the kind's table.
    pub(crate) fn keys(self) -> &'static [&'static str]
        ensures { map (λ k. k.now) result.now ≡ keys_of self }
    {
        match self {
            Kind::AddFlood | Kind::RemoveFlood => &FLOOD,
            Kind::Fix => &FIX,
            Kind::Unfix => &UNFIX,
            Kind::SetAgeing => &AGEING,
            Kind::SetLearning => &LEARNING,
            Kind::SetMember => &MEMBER,
            Kind::PortUp | Kind::PortDown => &PORT,
            Kind::Flush | Kind::RemoveSegment => &SEGMENT,
            Kind::AddSegment => &NEW_SEGMENT,
            Kind::SetLimit => &LIMIT,
        }
    }
}
