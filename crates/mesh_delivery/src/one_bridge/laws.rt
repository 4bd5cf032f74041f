//! An endpoint decides by the bridge of one segment.
ghost use Rattle.std.specs.Prelude.{◌≡◌, ◌≤◌, ℕ, false, List, [], ◌∷◌, ◌++◌, Option};
ghost use Rattle.std.specs.Option.{option_map};
ghost use Rattle.std.specs.FinMap.{empty};
ghost use Rattle.wire.specs.Frame.{Frame};
ghost use Rattle.filter_db.specs.declared.place.Place.{Place};
ghost use Rattle.endpoint_core.specs.Settings.{Settings, segment_at};
ghost use Rattle.endpoint_core.specs.Arrival.{Arrival};
ghost use Rattle.endpoint_core.specs.Event.{Event};
ghost use Rattle.endpoint_core.specs.Run.{settings_after, is_own, decision};
ghost use Rattle.endpoint_core.specs.Step.{State, Decided, answer, after};
ghost use Rattle.mesh_delivery.specs.Bridge.{Bridge, aged};
ghost use Rattle.mesh_delivery.specs.Segment.{bridge_by, bridge_of, bridge_after, IsBrought, step_in, decision_of};

/// Behind any events, what is decided of a frame or packet that comes to a segment is what the bridge of that segment does
/// with it, each outlet with its octets; and the segment's bridge is then the one that this leaves. An event that isn't a
/// segment's own leaves its bridge as it is, whole.
pub fn decisions()
    ensures answer { (S : Settings) (es : List Event) (e : Event) (x : Arrival) →
        IsBrought (settings_after S es) e.input x →
        decision S es e ≡
        Decided (decision_of (settings_after S es).overlay.underlay (segment_at (settings_after S es) x.vid) x
        (step_in (bridge_after x.vid S es) e.at x.from x.frame).0) }
    ensures bridge { (S : Settings) (es : List Event) (e : Event) (x : Arrival) →
        IsBrought (settings_after S es) e.input x →
        bridge_after x.vid S (es ++ e ∷ []) ≡ (step_in (bridge_after x.vid S es) e.at x.from x.frame).1 }
    ensures others { (S : Settings) (es : List Event) (e : Event) (vid : ℕ) →
        is_own vid (settings_after S es) e.input ≡ false → bridge_after vid S (es ++ e ∷ []) ≡ bridge_after vid S es }
    // It begins without entries.
    ensures begins { (S : Settings) (vid : ℕ) → bridge_after vid S [] ≡ bridge_by vid S empty }
{}

/// The same of an endpoint in whatever state: its answer to a frame or packet that comes to a segment is what the bridge of
/// that segment does with it. Behind an event it keeps of each table what is live then: of the segment's own that which `step`
/// leaves, and of any other segment's the one before.
pub fn steps()
    ensures answer { (s : State) (e : Event) (x : Arrival) → IsBrought s.bridges.settings e.input x →
        answer s e ≡
        Decided (decision_of s.bridges.settings.overlay.underlay (segment_at s.bridges.settings x.vid) x
        (step_in (bridge_of x.vid s.bridges) e.at x.from x.frame).0) }
    ensures bridge { (s : State) (e : Event) (x : Arrival) → IsBrought s.bridges.settings e.input x →
        bridge_of x.vid (after s e).bridges ≡
        option_map (aged e.at) (step_in (bridge_of x.vid s.bridges) e.at x.from x.frame).1 }
    ensures others { (s : State) (e : Event) (vid : ℕ) → is_own vid s.bridges.settings e.input ≡ false →
        bridge_of vid (after s e).bridges ≡ option_map (aged e.at) (bridge_of vid s.bridges) }

    // To keep no longer what is dead changes nothing later.
    ensures earlier { (b : Option Bridge) (t u : ℕ) (from : Place) (f : Frame) → t ≤ u →
        step_in (option_map (aged t) b) u from f ≡ step_in b u from f }
{}
