//! The law of isolation.
ghost use Rattle.std.specs.Prelude.{◌≡◌, ℕ, List, [], ◌∷◌, ◌++◌};
ghost use Rattle.endpoint_core.specs.Settings.{Settings};
ghost use Rattle.endpoint_core.specs.Event.{Event, IsRising};
ghost use Rattle.endpoint_core.specs.Step.{opened, state_after};
ghost use Rattle.noninterference.specs.Alone.{only, told, told_in, Agree};

/// Of any events whose moments never fall, leave out the changes that name another segment, but for those by which one
/// comes, goes or gets another limit, and the frames and packets whose decision carries another segment or none. Then the
/// segment's decisions and emissions come at the same moments and are the same, octet for octet. Before each event both
/// runs agree, from that event's moment on, in the segment's table and settings, in the ports and their states, in the
/// pool, and in which segments there are, with their tunnels and limits.
pub fn alone()
    ensures told { (vid : ℕ) (S : Settings) (es : List Event) → IsRising 0 es →
        told (opened S) (only vid (opened S) es) ≡ told_in vid (opened S) es }
    ensures agree { (vid : ℕ) (S : Settings) (es : List Event) (e : Event) → IsRising 0 (es ++ e ∷ []) →
        Agree vid e.at (state_after (opened S) es).bridges (state_after (opened S) (only vid (opened S) es)).bridges }

    // What is left of events is what is left of the first of them, and behind it what is left of the others.
    ensures in_turn { (vid : ℕ) (S : Settings) (es others : List Event) →
        only vid (opened S) (es ++ others) ≡ only vid (opened S) es ++ only vid (state_after (opened S) es) others }
    // The moments of what is left never fall.
    ensures rising { (vid : ℕ) (S : Settings) (es : List Event) → IsRising 0 es → IsRising 0 (only vid (opened S) es) }
    // Of what is left nothing more is left out.
    ensures settled { (vid : ℕ) (S : Settings) (es : List Event) → IsRising 0 es →
        only vid (opened S) (only vid (opened S) es) ≡ only vid (opened S) es }
{}
