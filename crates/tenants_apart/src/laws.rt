//! The laws of two runs with two settings.
ghost use Rattle.std.specs.Prelude.{◌≡◌, ◌↔◌, ◌<◌, ◌≤◌, ℕ, false, true, ◌||◌, List, ◌++◌, length, Ok, Err};
ghost use Rattle.std.specs.List.{AllByRecursion};
ghost use Rattle.timeline.specs.Timeline.{Timeline};
ghost use Rattle.timeline.specs.declared.source.Source.{Source};
ghost use Rattle.timeline.specs.declared.source.Tap.{Tap};
ghost use Rattle.wire.specs.Octets.{IsText};
ghost use Rattle.wire.specs.Frame.{Frame, IsFrame};
ghost use Rattle.wire.specs.Refusal.{nowhere};
ghost use Rattle.wire.specs.Tag.{IsVid, begins_tag};
ghost use Rattle.wire.specs.declared.ether.reason.Reason.TheVariants.{BadVid, CutTag};
ghost use Rattle.filter_db.specs.declared.place.Place.TheVariants.{Local};
ghost use Rattle.overlay.specs.Ingress.{enters};
ghost use Rattle.overlay.specs.Ports.{Ports, port_at, is_up, members_at};
ghost use Rattle.overlay.specs.declared.ports.member.Egress.TheVariants.{Tagged, Untagged};
ghost use Rattle.overlay.specs.Overlay.{Overlay, segment_at, flood_at};
ghost use Rattle.encapsulate.specs.Emission.{local_text};
ghost use Rattle.overlay.specs.Rules.{MeetsRules};
ghost use Rattle.overlay.specs.Settings.{Settings as Told};
ghost use Rattle.overlay.specs.declared.settings.change.Change.{Change};
ghost use Rattle.endpoint_core.specs.Change.{refused};
ghost use Rattle.endpoint_core.specs.Effect.{effect};
ghost use Rattle.endpoint_core.specs.Opened.{settings_told};
ghost use Rattle.endpoint_core.specs.Settings.{Settings};
ghost use Rattle.endpoint_core.specs.Arrival.{came_at, came_by, let_in};
ghost use Rattle.endpoint_core.specs.Arrival.{Arrival};
ghost use Rattle.endpoint_core.specs.Event.{Event, FrameAt, Packet, Asks, IsRising, frame_at, packet_at, change_at};
ghost use Rattle.endpoint_core.specs.Run.{settings_after};
ghost use Rattle.endpoint_core.specs.Step.{State, opened, answer, passed, state_after};
ghost use Rattle.table_lines.specs.Lines.{segment_lines};
ghost use Rattle.capture_run.specs.Outputs.{Outputs};
ghost use Rattle.noninterference.specs.Alone.{all_see, concerns, only};
ghost use Rattle.noninterference.specs.Coming.{Inputs, IsRunOf, ChangesNeverFall, coming, coming_to};
ghost use Rattle.noninterference.specs.Leaving.{rows, rows_of, departing, departures, departures_in, lines_in, records_in};
ghost use Rattle.tenants_apart.specs.Again.{IsForwarded, TakesInto, as_untagged, IsTagless, IsBehindTag, IsTextIn, LeavesAsText};
ghost use Rattle.tenants_apart.specs.Own.{Needs, everything, common, part_of, names_or_concerns, own_events, own_rows};
ghost use Rattle.tenants_apart.specs.Own.{AreBrought, AreMembers, AreWithin, IsEnough, IsReached, IsFrontOf, IsOneFront};
ghost use Rattle.tenants_apart.specs.Own.{asks_within, is_own_change, room_replies, lacks_room, HasRoom};
ghost use Rattle.tenants_apart.specs.Single.{single};
ghost use Rattle.tenants_apart.specs.Texts.{TellAlike, own_coming, replies_of, as_changed};
ghost use Rattle.tenants_apart.specs.Until.{AgreeUntil};
ghost use Rattle.tenants_apart.specs.Vnis.{AreVnisApart};

/// Two lists of events whose moments never fall, to endpoints with two settings that agree in all that one segment has, or in
/// that it isn't there, and in what it needs of what all share: own addresses, the ports of tunnels, TTL, checksums, options
/// and MTU; the ports of its members and those that its changes name; the next hop to each remote that something is sent to
/// in it; and the room that its flood list and its limits ask for. Other ports, next hops and limits may differ, and the pool.
/// They agree in the segment's own events: the frames and packets that come to it or are refused in it, by the settings in
/// force; the changes that name it; and those of ports that it needs. And its own `AddSegment` and `SetLimit`, which alone
/// need room that others may have taken, are answered alike. Then each of these events is answered alike, and what leaves in
/// the segment is the same, moment, place and octets, in order, and so are its decision lines but for their numbers: whatever
/// other segments have, do, add, remove, fill or limit.
pub fn events()
    ensures answers { (vid : ℕ) (needs : Needs) (S T : Settings) (es fs : List Event) → IsRising 0 es → IsRising 0 fs →
        IsEnough vid needs S es → part_of vid needs S ≡ part_of vid needs T →
        own_events vid needs S es ≡ own_events vid needs T fs →
        room_replies vid S es ≡ room_replies vid T fs →
        own_rows vid needs (opened S) es ≡ own_rows vid needs (opened T) fs }
    ensures leaving { (vid : ℕ) (needs : Needs) (S T : Settings) (es fs : List Event) → IsRising 0 es → IsRising 0 fs →
        IsEnough vid needs S es → part_of vid needs S ≡ part_of vid needs T →
        own_events vid needs S es ≡ own_events vid needs T fs →
        room_replies vid S es ≡ room_replies vid T fs →
        departures_in vid (rows (opened S) es) ≡ departures_in vid (rows (opened T) fs) }
    ensures told { (vid : ℕ) (needs : Needs) (S T : Settings) (es fs : List Event) → IsRising 0 es → IsRising 0 fs →
        IsEnough vid needs S es → part_of vid needs S ≡ part_of vid needs T →
        own_events vid needs S es ≡ own_events vid needs T fs →
        room_replies vid S es ≡ room_replies vid T fs →
        lines_in vid (rows (opened S) es) ≡ lines_in vid (rows (opened T) fs) }
{}

/// Settings with the same underlay and the same ports agree in whatever a segment needs of these. It never needs more than
/// everything.
pub fn enough()
    ensures of_all { (vid : ℕ) (S : Settings) (es : List Event) → IsEnough vid everything S es }
    ensures agree { (vid : ℕ) (needs : Needs) (S T : Settings) →
        S.overlay.underlay ≡ T.overlay.underlay → S.ports.ports ≡ T.ports.ports →
        members_at S.ports vid ≡ members_at T.ports vid → segment_at S.overlay vid ≡ segment_at T.overlay vid →
        S.bridges vid ≡ T.bridges vid → part_of vid needs S ≡ part_of vid needs T }
{}

/// Something is sent in a segment to remotes alone that what came in told: those of its flood list, those that its own changes
/// name, and the senders of its packets.
pub fn remotes()
    ensures { (vid : ℕ) (needs : Needs) (S : Settings) (es : List Event) →
        AllByRecursion (λ r. needs.remotes r.addr ≡ true) (flood_at S.overlay vid) → AreBrought vid needs S es →
        AllByRecursion (λ row. IsReached needs row.reply) (own_rows vid needs (opened S) es) }
{}

/// Of the same two lists, at a moment that isn't before the last event of either: what is live of the segment's table then is the
/// same, and so are the lines that tell it.
pub fn tables()
    ensures live { (vid : ℕ) (needs : Needs) (S T : Settings) (es fs : List Event) (moment : ℕ) → IsRising 0 es →
        IsRising 0 fs →
        AreMembers vid needs S → AreWithin vid needs S es → part_of vid needs S ≡ part_of vid needs T →
        own_events vid needs S es ≡ own_events vid needs T fs →
        room_replies vid S es ≡ room_replies vid T fs →
        (state_after (opened S) es).moment ≤ moment → (state_after (opened T) fs).moment ≤ moment →
        (passed moment (state_after (opened S) es)).bridges.tables vid ≡ (passed moment (state_after (opened T) fs)).bridges.tables vid }
    ensures shown { (vid : ℕ) (needs : Needs) (S T : Settings) (es fs : List Event) (moment : ℕ) → IsRising 0 es →
        IsRising 0 fs →
        AreMembers vid needs S → AreWithin vid needs S es → part_of vid needs S ≡ part_of vid needs T →
        own_events vid needs S es ≡ own_events vid needs T fs →
        room_replies vid S es ≡ room_replies vid T fs →
        (state_after (opened S) es).moment ≤ moment → (state_after (opened T) fs).moment ≤ moment →
        segment_lines (passed moment (state_after (opened S) es)) vid ≡ segment_lines (passed moment (state_after (opened T) fs)) vid }
{}

/// The same as far as the one goes: the segment's own events of the one are the first of those of the other. Then its answers,
/// what leaves in it, and its decision lines are the first of the other's.
pub fn fronts()
    ensures answers { (vid : ℕ) (needs : Needs) (S T : Settings) (es fs : List Event) → IsRising 0 es → IsRising 0 fs →
        IsEnough vid needs S es → part_of vid needs S ≡ part_of vid needs T →
        IsFrontOf (own_events vid needs S es) (own_events vid needs T fs) →
        IsFrontOf (room_replies vid S es) (room_replies vid T fs) →
        IsFrontOf (own_rows vid needs (opened S) es) (own_rows vid needs (opened T) fs) }
    ensures leaving { (vid : ℕ) (needs : Needs) (S T : Settings) (es fs : List Event) → IsRising 0 es → IsRising 0 fs →
        IsEnough vid needs S es → part_of vid needs S ≡ part_of vid needs T →
        IsFrontOf (own_events vid needs S es) (own_events vid needs T fs) →
        IsFrontOf (room_replies vid S es) (room_replies vid T fs) →
        IsFrontOf (departures_in vid (rows (opened S) es)) (departures_in vid (rows (opened T) fs)) }
    ensures told { (vid : ℕ) (needs : Needs) (S T : Settings) (es fs : List Event) → IsRising 0 es → IsRising 0 fs →
        IsEnough vid needs S es → part_of vid needs S ≡ part_of vid needs T →
        IsFrontOf (own_events vid needs S es) (own_events vid needs T fs) →
        IsFrontOf (room_replies vid S es) (room_replies vid T fs) →
        IsFrontOf (lines_in vid (rows (opened S) es)) (lines_in vid (rows (opened T) fs)) }
{}

/// Two runs, either of which may have stopped, as at a fault in another tenant's capture: of what would have come to each,
/// whole, the segment's own is the same. Then of what left in the segment by then, and of its decision lines, those of one
/// run are the first of those of the other.
pub fn stopped()
    ensures leaving { (vid : ℕ) (needs : Needs) (S T : Settings) (es later fs others : List Event) →
        IsRising 0 (es ++ later) → IsRising 0 (fs ++ others) → IsEnough vid needs S (es ++ later) →
        part_of vid needs S ≡ part_of vid needs T →
        own_events vid needs S (es ++ later) ≡ own_events vid needs T (fs ++ others) →
        room_replies vid S (es ++ later) ≡ room_replies vid T (fs ++ others) →
        IsOneFront (departures_in vid (rows (opened S) es)) (departures_in vid (rows (opened T) fs)) }
    ensures told { (vid : ℕ) (needs : Needs) (S T : Settings) (es later fs others : List Event) →
        IsRising 0 (es ++ later) → IsRising 0 (fs ++ others) → IsEnough vid needs S (es ++ later) →
        part_of vid needs S ≡ part_of vid needs T →
        own_events vid needs S (es ++ later) ≡ own_events vid needs T (fs ++ others) →
        room_replies vid S (es ++ later) ≡ room_replies vid T (fs ++ others) →
        IsOneFront (lines_in vid (rows (opened S) es)) (lines_in vid (rows (opened T) fs)) }
{}

/// The same two lists, and the same two runs over captures, whatever the segment's own changes are answered: what the segment is
/// answered, what leaves in it and its decision lines are the same up to the first of its own changes that is answered
/// otherwise, or to the end. That is an `AddSegment` or a `SetLimit`, and in one of both at least it is refused for want of room.
pub fn until()
    ensures events { (vid : ℕ) (needs : Needs) (S T : Settings) (es fs : List Event) → IsRising 0 es → IsRising 0 fs →
        IsEnough vid needs S es → part_of vid needs S ≡ part_of vid needs T →
        own_events vid needs S es ≡ own_events vid needs T fs →
        AgreeUntil vid needs S T es fs }
    ensures captures { (vid : ℕ) (needs : Needs) (s t : Told) (x y : Inputs) (l m : Timeline) (o p : Outputs) →
        IsRunOf s x l o → IsRunOf t y m p →
        IsEnough vid needs (settings_told s) (coming x l) → TellAlike vid needs s t →
        ((source : Source) → own_coming vid needs s x l source ≡ own_coming vid needs t y m source) →
        AgreeUntil vid needs (settings_told s) (settings_told t) (coming x l) (coming y m) }
{}

/// Whether an event concerns a segment is told by the settings in force, which changes alone make, and not by any table.
/// Of a frame it is told by the port where it comes and the segment's own members.
pub fn concerning()
    ensures frames { (vid : ℕ) (needs : Needs) (S : Settings) (es : List Event) (t port original : ℕ) (b : List ℕ) →
        concerns vid (state_after (opened S) es) (frame_at t port original b) ≡
        names_or_concerns vid needs (settings_after S es) (FrameAt port original b) }
    ensures packets { (vid : ℕ) (needs : Needs) (S : Settings) (es : List Event) (t original : ℕ) (b : List ℕ) →
        concerns vid (state_after (opened S) es) (packet_at t original b) ≡
        names_or_concerns vid needs (settings_after S es) (Packet original b) }
    ensures changes { (vid : ℕ) (needs : Needs) (S : Settings) (es : List Event) (t : ℕ) (c : Change) →
        concerns vid (state_after (opened S) es) (change_at t c) ≡
        (names_or_concerns vid needs (settings_after S es) (Asks c) || all_see (effect c)) }
    ensures own_frames { (vid : ℕ) (needs : Needs) (S T : Settings) (port original : ℕ) (b : List ℕ) →
        port_at S.ports port ≡ port_at T.ports port → members_at S.ports vid ≡ members_at T.ports vid →
        names_or_concerns vid needs S (FrameAt port original b) ≡ names_or_concerns vid needs T (FrameAt port original b) }
{}

/// Settings texts, and changes after them, give no VNI to two segments: no two have tunnels of one kind with one VNI. Then
/// whether a packet is a segment's own is told by what all segments go by and by its own tunnels, whatever others have.
pub fn vnis()
    ensures told { (s : Told) → MeetsRules s → AreVnisApart (settings_told s).overlay }
    ensures kept { (S : Settings) (es : List Event) → AreVnisApart S.overlay →
        AreVnisApart (settings_after S es).overlay }
    ensures own_packets { (vid : ℕ) (needs : Needs) (S T : Settings) (original : ℕ) (b : List ℕ) →
        AreVnisApart S.overlay → AreVnisApart T.overlay → common S.overlay.underlay ≡ common T.overlay.underlay →
        segment_at S.overlay vid ≡ segment_at T.overlay vid →
        names_or_concerns vid needs S (Packet original b) ≡ names_or_concerns vid needs T (Packet original b) }
{}

/// A segment among others is answered as it is alone. Where its own `AddSegment` and `SetLimit` are answered alike, as they
/// are where none of them is refused among the others for want of room, an endpoint that has this segment and no other, and
/// to which its own events come and no others, answers each of them the same; what leaves there is what leaves in the
/// segment among others, and the decision lines are its own but for their numbers.
pub fn single()
    ensures replies { (vid : ℕ) (S : Settings) (es : List Event) → AreVnisApart S.overlay →
        HasRoom vid S es →
        room_replies vid S es ≡ room_replies vid (single vid S) (own_events vid everything S es) }
    ensures events { (vid : ℕ) (S : Settings) (es : List Event) → AreVnisApart S.overlay →
        room_replies vid S es ≡ room_replies vid (single vid S) (own_events vid everything S es) →
        own_events vid everything (single vid S) (own_events vid everything S es) ≡ own_events vid everything S es }
    ensures answers { (vid : ℕ) (S : Settings) (es : List Event) → AreVnisApart S.overlay →
        room_replies vid S es ≡ room_replies vid (single vid S) (own_events vid everything S es) → IsRising 0 es →
        own_rows vid everything (opened S) es ≡ rows (opened (single vid S)) (own_events vid everything S es) }
    ensures leaving { (vid : ℕ) (S : Settings) (es : List Event) → AreVnisApart S.overlay →
        room_replies vid S es ≡ room_replies vid (single vid S) (own_events vid everything S es) → IsRising 0 es →
        departures_in vid (rows (opened S) es) ≡
        departures_in vid (rows (opened (single vid S)) (own_events vid everything S es)) }
    ensures told { (vid : ℕ) (S : Settings) (es : List Event) → AreVnisApart S.overlay →
        room_replies vid S es ≡ room_replies vid (single vid S) (own_events vid everything S es) → IsRising 0 es →
        lines_in vid (rows (opened S) es) ≡ lines_in vid (rows (opened (single vid S)) (own_events vid everything S es)) }
{}

/// Two runs over captures, with settings that tell the same of a segment and of what it needs. If of each source, the list of
/// changes, each port's capture and the underlay's, the same changes or records are the segment's own (moments, lengths,
/// octets, in order), and its own `AddSegment` and `SetLimit` are answered alike, then in every output capture the records
/// that leave in the segment are the same (moments, octets, in order), and so are its decision lines but for their numbers.
/// Whatever other segments, ports and next hops the two settings have, and whatever else stands in the captures and among
/// the changes.
pub fn captures()
    ensures records { (vid : ℕ) (needs : Needs) (s t : Told) (x y : Inputs) (l m : Timeline) (o p : Outputs) →
        IsRunOf s x l o → IsRunOf t y m p →
        IsEnough vid needs (settings_told s) (coming x l) → TellAlike vid needs s t →
        ((source : Source) → own_coming vid needs s x l source ≡ own_coming vid needs t y m source) →
        replies_of vid s x l ≡ replies_of vid t y m → (output : Tap) →
        records_in vid output (departures (rows_of s x l)) ≡ records_in vid output (departures (rows_of t y m)) }
    ensures told { (vid : ℕ) (needs : Needs) (s t : Told) (x y : Inputs) (l m : Timeline) (o p : Outputs) →
        IsRunOf s x l o → IsRunOf t y m p →
        IsEnough vid needs (settings_told s) (coming x l) → TellAlike vid needs s t →
        ((source : Source) → own_coming vid needs s x l source ≡ own_coming vid needs t y m source) →
        replies_of vid s x l ≡ replies_of vid t y m →
        lines_in vid (rows_of s x l) ≡ lines_in vid (rows_of t y m) }

    // Settings that tell alike of a segment begin with the same of it in force.
    ensures begins { (vid : ℕ) (needs : Needs) (s t : Told) → TellAlike vid needs s t →
        part_of vid needs (settings_told s) ≡ part_of vid needs (settings_told t) }
    // What is answered to those changes is told by the settings and the list of changes alone, whose moments never fall.
    ensures replies { (vid : ℕ) (s : Told) (x : Inputs) (l : Timeline) (o : Outputs) → IsRunOf s x l o →
        ChangesNeverFall 0 x.changes →
        replies_of vid s x l ≡ room_replies vid (settings_told s) (as_changed x.changes) }
{}

/// Of others a segment feels the want of room, and nothing else. A change of its own is refused alike by all settings that
/// agree in what it has and needs, where none of them refuses it because a VNI is another's, because there are as many
/// segments as there can be, or because the pool is full. So the premise of [`events`] on answers is met where in neither
/// run a change of the segment's own is refused for that.
pub fn room()
    ensures felt { (vid : ℕ) (needs : Needs) (S T : Settings) (c : Change) → part_of vid needs S ≡ part_of vid needs T →
        is_own_change vid needs c ≡ true → asks_within needs S c ≡ true →
        lacks_room vid S (Asks c) ≡ false → lacks_room vid T (Asks c) ≡ false → refused S c ≡ refused T c }
    ensures alike { (vid : ℕ) (needs : Needs) (S T : Settings) (es fs : List Event) → AreWithin vid needs S es →
        part_of vid needs S ≡ part_of vid needs T →
        own_events vid needs S es ≡ own_events vid needs T fs →
        HasRoom vid S es → HasRoom vid T fs →
        room_replies vid S es ≡ room_replies vid T fs }
{}

/// With the same settings, lists that agree in what concerns a segment, others' comings, goings and limits among it, agree
/// in the segment's own events, and its own changes are answered alike. So [`noninterference::laws::events`] follows from
/// [`events`], and so does [`noninterference::laws::captures`] from [`captures`].
pub fn earlier()
    ensures events { (vid : ℕ) (needs : Needs) (S : Settings) (es fs : List Event) → IsRising 0 es → IsRising 0 fs →
        only vid (opened S) es ≡ only vid (opened S) fs → own_events vid needs S es ≡ own_events vid needs S fs }
    ensures replies { (vid : ℕ) (S : Settings) (es fs : List Event) → IsRising 0 es → IsRising 0 fs →
        only vid (opened S) es ≡ only vid (opened S) fs → room_replies vid S es ≡ room_replies vid S fs }
    ensures sources { (vid : ℕ) (needs : Needs) (s : Told) (x y : Inputs) (l m : Timeline) (o p : Outputs) →
        IsRunOf s x l o → IsRunOf s y m p →
        ((source : Source) → coming_to vid s x l source ≡ coming_to vid s y m source) → (source : Source) →
        own_coming vid needs s x l source ≡ own_coming vid needs s y m source }
    ensures answers { (vid : ℕ) (s : Told) (x y : Inputs) (l m : Timeline) (o p : Outputs) →
        IsRunOf s x l o → IsRunOf s y m p →
        ((source : Source) → coming_to vid s x l source ≡ coming_to vid s y m source) →
        replies_of vid s x l ≡ replies_of vid s y m }
{}

/// What leaves at a local port in a segment, where it is read at a local port: it enters exactly where that takes it. With a
/// tag it enters the segment where it left and no other, as the same frame, whatever its body begins with. Without one,
/// where its body begins with no tag, it enters the segment that the port's VID names, which is the same one where that is
/// its VID, as the same frame but for its priority, which nothing tells then. A whole record of it comes so where it has at
/// most 65,535 octets, and is let in by the segment that it enters: a frame that came with as many and without a tag is longer
/// with one. What is asked of the frame, every frame has that comes by a port or a tunnel; and to a segment that takes no
/// frame whose body begins with a tag none comes that does.
pub fn again()
    ensures tagged { (s : Ports) (port v u : ℕ) (f h : Frame) → IsForwarded f → IsVid v →
        (enters s port (local_text v Tagged f) ≡ Ok (u, h)) ↔ ((u ≡ v) × (h ≡ f) × TakesInto s port v v) }
    ensures untagged { (s : Ports) (port v u : ℕ) (f h : Frame) → IsForwarded f → begins_tag f.body ≡ false →
        (enters s port (local_text v Untagged f) ≡ Ok (u, h)) ↔ ((h ≡ as_untagged f) × TakesInto s port 0 u) }
    ensures records { (s : Ports) (o : Overlay) (port v : ℕ) (b : List ℕ) (f : Frame) →
        enters s port b ≡ Ok (v, f) → length b ≤ 65535 →
        came_at s o port (length b) b ≡ let_in o (Ok (record { vid = v; from = Local port; frame = f })) }
    ensures frames { (s : Ports) (o : Overlay) (port original : ℕ) (b : List ℕ) (came : Arrival) → IsText b →
        came_at s o port original b ≡ Ok came → IsForwarded came.frame }
    ensures packets { (o : Overlay) (original : ℕ) (b : List ℕ) (came : Arrival) →
        came_by o original b ≡ Ok came → IsForwarded came.frame }
    ensures frames_tagless { (s : Ports) (o : Overlay) (port original : ℕ) (b : List ℕ) (came : Arrival) →
        came_at s o port original b ≡ Ok came → IsTagless o came.vid came.frame }
    ensures packets_tagless { (o : Overlay) (original : ℕ) (b : List ℕ) (came : Arrival) →
        came_by o original b ≡ Ok came → IsTagless o came.vid came.frame }
{}

/// A frame whose body begins with a tag, a second one, leaves without a tag of its own as the octets of another frame: they
/// are those that leave with a tag in the segment of the VID in the second tag. They enter exactly where a port takes frames
/// with that tag, in its segment and no other, which is that of the port's VID where the tag's is 0. A body begins with a
/// whole tag exactly where it has the type of one and 6 octets, and that tells one VID and one frame. Where it is shorter the
/// tag is cut, and nothing enters, nor where the VID is the reserved one.
pub fn second_tag()
    ensures whole { (f : Frame) → IsText f.body →
        ((w : ℕ) × (g : Frame) × IsBehindTag f w g) ↔ ((begins_tag f.body ≡ true) × (6 ≤ length f.body)) }
    ensures one { (f : Frame) (v w : ℕ) (g h : Frame) → IsFrame f → IsBehindTag f v g → IsBehindTag f w h →
        (v ≡ w) × (g ≡ h) }
    ensures octets { (v w : ℕ) (f g : Frame) → IsBehindTag f w g → local_text v Untagged f ≡ local_text w Tagged g }
    ensures enters { (s : Ports) (port v w u : ℕ) (f g h : Frame) → IsForwarded f → IsBehindTag f w g → w < 4095 →
        (enters s port (local_text v Untagged f) ≡ Ok (u, h)) ↔ ((h ≡ g) × TakesInto s port w u) }
    ensures reserved { (s : Ports) (port v : ℕ) (f g : Frame) → IsForwarded f → IsBehindTag f 4095 g →
        is_up s port ≡ true → enters s port (local_text v Untagged f) ≡ Err (nowhere BadVid) }
    ensures cut { (s : Ports) (port v : ℕ) (f : Frame) → IsForwarded f → begins_tag f.body ≡ true → length f.body < 6 →
        is_up s port ≡ true → enters s port (local_text v Untagged f) ≡ Err (nowhere CutTag) }
{}

/// All that leaves at a local port, whatever state an endpoint is in and whatever comes: it leaves in a segment that the
/// port is a member of by the settings in force, as that member has it, with a tag or without, and is the text of a frame of
/// which [`again`] and [`second_tag`] tell where it enters. Where its segment takes no frame whose body begins with a tag, it
/// begins with none, and is as [`again`] tells, without exception.
pub fn leaving()
    ensures { (s : State) (e : Event) → IsTextIn e.input →
        AllByRecursion (λ d. LeavesAsText s.bridges.settings d.segment d.sending.place d.sending.octets)
        (departing (record { event = e; reply = answer s e })) }
{}
