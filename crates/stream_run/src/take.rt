//! Events as the endpoint takes them: a change, a frame, a packet.
ghost use Rattle.std.specs.Prelude.{◌≡◌, ◌≤◌, ◌<◌, ℕ, Result, None, length};
ghost use Rattle.wire.specs.declared.ether.reason.Refused.{Refused};
ghost use Rattle.pcap.specs.Record.{last_moment};
ghost use Rattle.timeline.specs.declared.event.Happening.TheVariants.{Change as Changes};
ghost use Rattle.endpoint_core.specs.Change.{named};
ghost use Rattle.endpoint_core.specs.Arrival.{Arrival as ACame};
ghost use Rattle.endpoint_core.specs.Event.{change_at};
ghost use Rattle.endpoint_core.specs.Kept.{state_of};
ghost use Rattle.endpoint_core.specs.Step.{Decided, after, after_coming, answer, decided};
ghost use Rattle.endpoint_core.specs.State.{aged};
ghost use Rattle.capture_run.specs.Outputs.{Outputs as Texts, change_at as change_told};
ghost use Rattle.capture_run.specs.Writing.{with_input};
ghost use Rattle.stream_run.specs.Amidst.{PutsInOrder};
ghost use Rattle.stream_run.specs.Sights.{CanBeTaken, IsBrought, answered, due};
ghost use Rattle.stream_run.specs.Stage.{Drains, Lead, StandAt};
ghost use Rattle.stream_run.specs.Steps.{changes_of};
ghost use Rattle.stream_run.specs.Watched.{IsWatchedTake};

use crate::fault::Target;
use crate::part::{Part, Taker};
use crate::put::{put_forwarding, put_line};
use crate::watch::Watch;
use decision_lines::Scratch;
use endpoint_core::{Endpoint, Forwarding, nothing_came, segment_of};
use overlay_config::{Change, TimedChange};
use pcap::stream::Output;
use timeline::{Event, Happening, RunOutputs};

/// Shows a change, puts it to the endpoint, tells its reply, and puts what comes of it to the outputs.
pub fn take_change<W: Output, T: Watch>(
    outputs: &mut RunOutputs<W>,
    endpoint: &mut Endpoint,
    scratch: &mut Scratch,
    event: &Event,
    change: Change,
    watch: &mut T,
) -> Result<(), Target>
    requires time { (state_of endpoint.old).moment ≤ event.now.moment }
    requires kind { (came : Result ACame Refused) → IsBrought (state_of endpoint.old).bridges.settings event.now.happening came }
    ensures state { state_of endpoint.new ≡ after (state_of endpoint.old) (change_at event.now.moment change) }
    ensures outputs { (start : Drains) (o : Texts) → StandAt start outputs.old o
        → Lead start outputs.new o
        (with_input scratch.old.number (named change) o event.now
        (answer (state_of endpoint.old) (change_at event.now.moment change))) result }
    ensures number { scratch.new.number ≡ scratch.old.number }
    ensures seen { T.sees watch.old (answered (due (state_of endpoint.old) scratch.old.number event.now)
        (answer (state_of endpoint.old) (change_at event.now.moment change))) watch.new }
{
    watch.see(endpoint, scratch.number.value(), event, &nothing_came());
    let asked = change;
    let reply = endpoint.change(event.moment, asked);
    watch.hear_reply(reply);
    scratch
        .line
        .write_reply(&scratch.number, event, change.vid(), reply);
    put_line(outputs, scratch.line.text())
}

/// Shows a frame or a packet that came to a segment, or to none, as the endpoint tells it; puts it to the endpoint, tells what
/// is decided, and puts what comes of it to the outputs.
#[inline(always)]
fn take_came<W: Output, T: Watch>(
    outputs: &mut RunOutputs<W>,
    endpoint: &mut Endpoint,
    scratch: &mut Scratch,
    event: &Event,
    forwarding: &mut Forwarding,
    watch: &mut T,
) -> Result<(), Target>
    requires time { (state_of endpoint.old).moment ≤ event.now.moment }
    requires moment { event.now.moment ≤ last_moment }
    requires can { CanBeTaken (state_of endpoint.old).bridges.settings forwarding.old }
    requires brought { IsBrought (state_of endpoint.old).bridges.settings event.now.happening forwarding.old }
    ensures state { state_of endpoint.new ≡ after_coming event.now.moment forwarding.old (state_of endpoint.old) }
    ensures outputs { (start : Drains) (o : Texts)
        → StandAt start outputs.old o
        → Lead start outputs.new o
        (with_input scratch.old.number None o event.now
        (Decided (decided event.now.moment (aged event.now.moment (state_of endpoint.old).bridges) forwarding.old))) result }
    ensures order { (start : Drains) (o : Texts)
        → StandAt start outputs.old o
        → PutsInOrder start outputs.new scratch.old.number None o event.now
        (Decided (decided event.now.moment (aged event.now.moment (state_of endpoint.old).bridges) forwarding.old)) result }
    ensures number { scratch.new.number ≡ scratch.old.number }
    ensures seen { T.sees watch.old (answered (due (state_of endpoint.old) scratch.old.number event.now)
        (Decided (decided event.now.moment (aged event.now.moment (state_of endpoint.old).bridges) forwarding.old))) watch.new }
{
    let number = scratch.number.value();
    watch.see(endpoint, number, event, forwarding);
    endpoint.take(event.moment, forwarding, &mut scratch.places);
    watch.hear_decision(endpoint, forwarding, scratch.places.as_slice());
    put_forwarding(outputs, endpoint, scratch, event, forwarding)
}

/// Takes an event, with what it brings to a segment, and shows it, as passed over where it isn't told to the part's segments: then
/// time passes, and a change is made all the same.
#[inline(always)]
pub fn take_event<W: Output, T: Watch>(
    part: &Part,
    event: &Event,
    came: &mut Forwarding,
    outputs: &mut RunOutputs<W>,
    taker: &mut Taker,
    watch: &mut T,
) -> Result<(), Target>
    requires time { (state_of taker.old.endpoint).moment ≤ event.now.moment }
    requires moment { event.now.moment ≤ last_moment }
    requires change { (index : ℕ) → event.now.happening ≡ Changes index → index < length part.now.changes.now }
    requires brought { IsBrought (state_of taker.old.endpoint).bridges.settings event.now.happening came.old }
    requires can { CanBeTaken (state_of taker.old.endpoint).bridges.settings came.old }
    ensures taken { IsWatchedTake part.now.segments.now T.sees part.now.changes.now event.now taker.old.scratch.number
        (state_of taker.old.endpoint) (state_of taker.new.endpoint) outputs.old outputs.new watch.old watch.new result }
    ensures number { taker.new.scratch.number ≡ taker.old.scratch.number }
    ensures turns { taker.new.turns ≡ taker.old.turns }
{
    match &event.happening {
        Happening::Change(index) => { take_change_at(part, event, *index, outputs, taker, watch) }
        Happening::Record(..) => {
            if !part.segments.has(segment_of(came)) {
                watch.pass_over(&taker.endpoint, taker.scratch.number.value(), event);
                taker.endpoint.pass(event.moment);
                return Ok(());
            }
            take_came(
                outputs,
                &mut taker.endpoint,
                &mut taker.scratch,
                event,
                came,
                watch,
            )
        }
    }
}

/// Shows the change of this index, and puts it to the endpoint; where it is told to the part's segments, its reply is told, and
/// what comes of it is put to the outputs.
fn take_change_at<W: Output, T: Watch>(
    part: &Part,
    event: &Event,
    index: usize,
    outputs: &mut RunOutputs<W>,
    taker: &mut Taker,
    watch: &mut T,
) -> Result<(), Target>
    requires time { (state_of taker.old.endpoint).moment ≤ event.now.moment }
    requires is { event.now.happening ≡ Changes index }
    requires there { index < length part.now.changes.now }
    ensures taken { IsWatchedTake part.now.segments.now T.sees part.now.changes.now event.now taker.old.scratch.number
        (state_of taker.old.endpoint) (state_of taker.new.endpoint) outputs.old outputs.new watch.old watch.new result }
    ensures number { taker.new.scratch.number ≡ taker.old.scratch.number }
    ensures turns { taker.new.turns ≡ taker.old.turns }
{
    let named = part.changes[index].change.vid();
    if !part.segments.has(named) {
        watch.pass_over(&taker.endpoint, taker.scratch.number.value(), event);
        make_change(&mut taker.endpoint, part.changes, event.moment, index);
        return Ok(());
    }
    let change = part.changes[index].change;
    take_change(
        outputs,
        &mut taker.endpoint,
        &mut taker.scratch,
        event,
        change,
        watch,
    )
}

/// Makes the change of this index, or refuses it, and tells nobody: it may be one of settings that all segments stand on.
fn make_change(endpoint: &mut Endpoint, changes: &[TimedChange], moment: u64, index: usize)
    requires time { (state_of endpoint.old).moment ≤ moment }
    requires there { index < length changes.now }
    ensures { state_of endpoint.new ≡ after (state_of endpoint.old) (change_at moment (change_told (changes_of changes.now) index)) }
{
    let change = changes[index].change;
    let _ = endpoint.change(moment, change);
}
