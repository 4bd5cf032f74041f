//! The law of a mesh and the two facts that it follows from, each the contract of a function that does nothing.
ghost use Rattle.std.specs.Prelude.{◌≡◌, ◌≤◌, ℕ, List, Some, Ok};
ghost use Rattle.std.specs.List.{AllByRecursion, count_by};
ghost use Rattle.overlay.specs.declared.underlay.settings.Underlay.{Underlay};
ghost use Rattle.overlay.specs.UnderlaySettings.{is_own};
ghost use Rattle.overlay.specs.Rules.{MeetsRules};
ghost use Rattle.overlay.specs.Settings.{Settings as Told};
ghost use Rattle.endpoint_core.specs.Opened.{settings_told};
ghost use Rattle.endpoint_core.specs.Settings.{SegmentSettings, segment_at};
ghost use Rattle.endpoint_core.specs.Event.{Event, frame_at, packet_at};
ghost use Rattle.endpoint_core.specs.Step.{State, opened, answer, state_after};
ghost use Rattle.mesh_delivery.specs.Full.{AreOneGroup, IsMesh, Throughout};
ghost use Rattle.mesh_delivery.specs.Mesh.{Happening, mesh_run, new_mesh, outcomes_of};
ghost use Rattle.mesh_delivery.specs.Offspring.{IsLocal, IsOffspring, is_left, is_remote_of};

/// In a full mesh the offspring of a frame leave at most once at each local port of all endpoints, never at the port where
/// it came in, only in its own segment at its own endpoint or in segments with the tunnel kind and VNI that it was sent
/// with, and with its destination, source and body.
pub fn mesh()
    ensures once { (told : ℕ → Told) (hs : List Happening) → IsMesh told → Throughout (new_mesh told) hs →
        (number endpoint port : ℕ) → count_by (is_left number endpoint port) (mesh_run (new_mesh told) hs).left ≤ 1 }
    ensures offspring { (told : ℕ → Told) (hs : List Happening) → IsMesh told → Throughout (new_mesh told) hs →
        AllByRecursion IsOffspring (mesh_run (new_mesh told) hs).left }
{}

/// From the opening with settings that keep to the rules on, over any events, what comes by a tunnel goes to local ports alone, where
/// all tunnels of each segment are of one horizon group.
pub fn deliveries_stay_local()
    ensures { (told : Told) (es : List Event) (t original : ℕ) (b : List ℕ) → MeetsRules told →
        ((vid : ℕ) (s : SegmentSettings) →
        segment_at (state_after (opened (settings_told told)) es).bridges.settings vid ≡ Some s → AreOneGroup s.tunnels) →
        AllByRecursion (λ o. IsLocal o.place)
        (outcomes_of (answer (state_after (opened (settings_told told)) es) (packet_at t original b))) }
{}

/// A local frame goes to at most one remote place of an endpoint, where each flood list has at most one entry of it.
pub fn once_to_each_endpoint()
    ensures { (state : State) (t port original : ℕ) (b : List ℕ) (U : Underlay) →
        ((vid : ℕ) (s : SegmentSettings) → segment_at state.bridges.settings vid ≡ Some s →
        count_by (λ r. is_own U r.addr) s.flood ≤ 1) →
        count_by (λ o. is_remote_of U o.place) (outcomes_of (answer state (frame_at t port original b))) ≤ 1 }
{}
