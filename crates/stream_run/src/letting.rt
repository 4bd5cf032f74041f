//! The next event, as a sieve takes it in or leaves it out.
ghost use Rattle.std.specs.Prelude.{◌≡◌, ◌≤◌, ◌<◌, ◌+◌, ◌^◌, ℕ, IsSome, OnOk, Some, length};
ghost use Rattle.pcap.specs.Record.{Record as ARecord, last_moment};
ghost use Rattle.pcap.specs.Source.{lent};
ghost use Rattle.timeline.specs.Captured.{Captured as ACaptured};
ghost use Rattle.timeline.specs.declared.event.Happening.TheVariants.{Record as Recorded};
ghost use Rattle.timeline.specs.declared.source.Tap.{Tap as ATap};
ghost use Rattle.timeline.specs.declared.source.Tap.TheVariants.{Port as AtPort};
ghost use Rattle.endpoint_core.specs.Kept.{state_of};
ghost use Rattle.stream_run.specs.Sieved.{GoesBy, asked, taken_by};
ghost use Rattle.stream_run.specs.Sights.{CanBeTaken, IsBrought};
ghost use Rattle.stream_run.specs.Steps.{IsAt, IsNextEvent, moment_at, record_event, source_at};
ghost use Rattle.stream_run.specs.Waiting.{IsOutBefore, IsOutOrAll};
ghost use Rattle.stream_run.specs.Watched.{IsSieved};

use crate::captures::Captures;
use crate::fault::Target;
use crate::hand_on::hand_on_behind;
use crate::part::{Coming, Next, Taker};
use crate::sieve::Sieve;
use crate::take::take_event;
use crate::watch::Watch;
use endpoint_core::{Endpoint, Forwarding, nothing_came};
use pcap::stream::{Input, Output, Source};
use timeline::{Captured, Event, Happening, RunOutputs, Tap};

/// The event of the record that a source lends.
#[inline(always)]
fn event_of<R: Input>(source: &Source<R>, tap: Tap, next: Next) -> Event<'_>
    requires count { next.done + 1 < 2 ^ 64 }
    requires lent { IsSome (lent source.now.standing) }
    ensures { (r : ARecord) → lent source.now.standing ≡ Some r → result ≡ record_event tap next.done next.moment r }
{
    let record = source.head().unwrap();
    Event {
        moment: next.moment,
        number: next.done + 1,
        happening: Happening::Record(
            tap,
            Captured {
                original: record.original,
                octets: record.octets,
            },
        ),
    }
}

/// The next event of a source: the changes, the ports, the underlay.
#[inline(always)]
fn next_event<R: Input>(captures: &Captures<R>, next: Next) -> Event<'_>
    requires count { next.done + 1 < 2 ^ 64 }
    requires index { next.index ≤ length captures.now.ports.items + 1 }
    requires few { length captures.now.ports.items ≤ 255 }
    requires lent { (place : ATap) → IsAt (length captures.now.ports.items) next.index place
        → IsSome (lent (source_at captures.now.ports.items captures.now.underlay place).standing) }
    ensures { IsNextEvent captures.now.ports.items captures.now.underlay next.index next.done next.moment result }
{
    if next.index == 0 {
        return Event {
            moment: next.moment,
            number: next.done + 1,
            happening: Happening::Change(next.done as usize),
        };
    }
    if next.index <= captures.ports.len() {
        let tap = Tap::Port(next.index as u8);
        return event_of(&captures.ports[next.index - 1], tap, next);
    }
    event_of(&captures.underlay, Tap::Underlay, next)
}

/// Sets a forwarding to what a record brings to a segment, or to why it brings nothing. A change leaves it.
#[inline(always)]
fn bring<'a>(endpoint: &Endpoint, event: &Event<'a>, came: &mut Forwarding<'a>)
    requires port { (port : ℕ) (captured : ACaptured) → event.now.happening ≡ Recorded (AtPort port) captured
        → (1 ≤ port) × (port ≤ length (state_of endpoint.now).bridges.settings.ports.ports) }
    requires can { CanBeTaken (state_of endpoint.now).bridges.settings came.old }
    ensures brought { IsBrought (state_of endpoint.now).bridges.settings event.now.happening came.new }
    ensures can { CanBeTaken (state_of endpoint.now).bridges.settings came.new }
{
    match &event.happening {
        Happening::Change(_) => {}
        Happening::Record(Tap::Port(port), captured) => {
            endpoint.bring_frame(*port, captured.original, captured.octets, came);
        }
        Happening::Record(Tap::Underlay, captured) => {
            endpoint.bring_packet(captured.original, captured.octets, came);
        }
    }
}

/// Asks the sieve about the next event, with what that brings to a segment. Where it takes it in, the event is numbered and taken
/// as [`take_event`] does it, and what is held back is handed on where it has to; else nothing is done.
pub fn let_in<R: Input, W: Output, S: Sieve, T: Watch>(
    coming: Coming,
    captures: &Captures<R>,
    outputs: &mut RunOutputs<W>,
    taker: &mut Taker,
    sieve: &mut S,
    watch: &mut T,
) -> Result<(), Target>
    requires time { (state_of taker.old.endpoint).moment ≤ coming.next.moment }
    requires moment { coming.next.moment ≤ last_moment }
    requires count { coming.next.done + 1 < 2 ^ 64 }
    requires numbers { taker.old.scratch.number + 1 < 2 ^ 64 }
    requires index { coming.next.index ≤ length captures.now.ports.items + 1 }
    requires few { length captures.now.ports.items ≤ 255 }
    requires known { length captures.now.ports.items ≡ length (state_of taker.old.endpoint).bridges.settings.ports.ports }
    requires change { coming.next.index ≡ 0 → moment_at coming.part.now.changes.now coming.next.done ≡ Some coming.next.moment }
    requires lent { (place : ATap) → IsAt (length captures.now.ports.items) coming.next.index place
        → IsSome (lent (source_at captures.now.ports.items captures.now.underlay place).standing) }
    requires out { IsOutOrAll (S.all sieve.old) captures.now.may_wait outputs.old }
    ensures before { OnOk result (IsOutBefore captures.now.may_wait captures.now.ports.items captures.now.underlay
        coming.entry.next.index outputs.new) }
    ensures behind { OnOk result (IsOutOrAll (S.all sieve.new) captures.now.may_wait outputs.new) }
    ensures sieved { IsSieved coming.entry.part.now.segments.now (taken_by S.taken coming.entry.part.now.changes.now)
        (GoesBy S.goes coming.entry.part.now.changes.now) T.sees coming.entry.part.now.changes.now
        captures.now.ports.items captures.now.underlay coming.entry.next.index coming.entry.next.done coming.entry.next.moment
        taker.old.scratch.number taker.new.scratch.number
        (state_of taker.old.endpoint) (state_of taker.new.endpoint) outputs.old outputs.new
        (asked sieve.old (state_of taker.old.endpoint).bridges.settings)
        (asked sieve.new (state_of taker.new.endpoint).bridges.settings) watch.old watch.new result }
    ensures turns { taker.new.turns ≡ taker.old.turns }
{
    let Coming { part, next } = coming;
    let event = next_event(captures, next);
    let mut came = nothing_came();
    bring(&taker.endpoint, &event, &mut came);
    if !sieve.takes(&taker.endpoint, &event, &came) {
        return Ok(());
    }
    taker.scratch.number.add_one();
    if let Err(target) = take_event(part, &event, &mut came, outputs, taker, watch) {
        return Err(target);
    }
    let most = taker.most_of_a_line;
    hand_on_behind(captures, outputs, most, next.index, sieve.takes_all())
}
