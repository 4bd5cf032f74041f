//! The sieve.
ghost use Rattle.std.specs.Prelude.{◌≡◌, ◌∷◌, List, IfOk, None, if◌then◌else◌, slice_index};
ghost use Rattle.echo_window.specs.Echo.{behind_met, echo_of};
ghost use Rattle.endpoint_core.specs.Kept.{state_of};
ghost use Rattle.endpoint_core.specs.Settings.{Settings};
ghost use Rattle.overlay.specs.declared.settings.change.TimedChange.{TimedChange as ATimedChange};
ghost use Rattle.stream_run.specs.Sieved.{settings_behind};
ghost use Rattle.stream_run.specs.Sights.{IsBrought};
ghost use Rattle.timeline.specs.declared.event.Event.{Event as AnEvent};
ghost use Rattle.timeline.specs.declared.event.Happening.TheVariants.{Record as Recorded};
ghost use Rattle.timeline.specs.declared.source.Tap.TheVariants.{Port, Underlay as AtUnderlay};
ghost use Rattle.both_ways.specs.Line.{line_of};
ghost use Rattle.both_ways.specs.Sieve.{asked_of, behind, cause_at, cause_of, counted, fresh, is_taken, none_taken};
ghost use Rattle.both_ways.specs.Sieve.{record_behind, seen_of, taken, with_settings};
ghost use Rattle.both_ways.specs.Told.{place_of};

use crate::coming::{enter_frame, enter_packet};
use crate::left_out::Cause;
use crate::line::ForgottenLine;
use crate::outlets::Outlets;
use crate::place::{place_of, untagged};
use crate::sender::is_sent;
use echo_window::{Forgotten, FrameText, Origin, PlaceSet, Record, Window};
use endpoint_core::{Endpoint, Forwarding};
use std::alloc::{AllocError, Global};
use stream_run::Sieve;
use timeline::{Captured, Event, Happening, Tap};

/// How long behind its frame what the switch sent may come, in nanoseconds, where no other time is asked for.
pub const WITHIN: u64 = 10_000_000;

/// How many numbers a place could have.
pub(crate) const PLACES: usize = 256;

/// Which events of a run are input. It knows the latest frames that came in, and counts what it leaves out; the settings in force
/// are those of the run's endpoint, which it is lent. Only [`BothWays::new`] takes memory.
#[derive(Drop)]
pub struct BothWays {
    window: Window,
    outlets: Outlets,
    /// By the numbers of the places. Each number that a port could have has its count, so that none is looked for.
    left_out: [u64; PLACES],
}

impl BothWays {
    /// No event was shown yet. An echo comes at most `within` nanoseconds behind the frame that it is of. `AllocError`: there was
    /// no memory for the frames that it may keep.
    pub fn new(alloc: Global, within: u64) -> Result<BothWays, AllocError>
        ensures { IfOk result (λ both. (S : Settings) (changes : List ATimedChange) → seen_of both S changes ≡ fresh within S changes) }
    {
        Ok(BothWays {
            window: Window::new(alloc, within)?,
            outlets: Outlets::new(alloc)?,
            left_out: [0; PLACES],
        })
    }

    /// Whether the next event is input, by the settings in force at the run's endpoint, and by the frame that the event brings to
    /// a segment there, or why it brings none. Where it isn't, it is counted at its place.
    #[inline(always)]
    pub fn is_input(&mut self, endpoint: &Endpoint, event: &Event, came: &Forwarding) -> bool
        requires { IsBrought (state_of endpoint.now).bridges.settings event.now.happening came.now }
        ensures answer { (changes : List ATimedChange)
            → result ≡ is_taken (seen_of self.old (state_of endpoint.now).bridges.settings changes) event.now }
        ensures behind { (changes : List ATimedChange)
            → seen_of self.new (settings_behind changes event.now.happening (state_of endpoint.now).bridges.settings) changes
            ≡ behind (seen_of self.old (state_of endpoint.now).bridges.settings changes) event.now }
        ensures taken { (changes : List ATimedChange) (next : Settings) (es : List AnEvent)
            → next ≡ settings_behind changes event.now.happening (state_of endpoint.now).bridges.settings
            → taken (seen_of self.old (state_of endpoint.now).bridges.settings changes) (event.now ∷ es)
            ≡ (if result then event.now ∷ taken (seen_of self.new next changes) es else taken (seen_of self.new next changes) es) }
    {
        self.cause(endpoint, event, came).is_none()
    }

    /// Why the next event isn't input, and nothing where it is: the same.
    #[inline(always)]
    pub fn cause(&mut self, endpoint: &Endpoint, event: &Event, came: &Forwarding) -> Option<Cause>
        requires { IsBrought (state_of endpoint.now).bridges.settings event.now.happening came.now }
        ensures answer { (changes : List ATimedChange)
            → result ≡ cause_at (seen_of self.old (state_of endpoint.now).bridges.settings changes) event.now }
        ensures behind { (changes : List ATimedChange)
            → seen_of self.new (settings_behind changes event.now.happening (state_of endpoint.now).bridges.settings) changes
            ≡ behind (seen_of self.old (state_of endpoint.now).bridges.settings changes) event.now }
    {
        match &event.happening {
            Happening::Change(_) => self.cause_of_change(),
            Happening::Record(tap, captured) => {
                self.cause_of_record(endpoint, event, *tap, captured, came)
            }
        }
    }

    /// How many records at a place weren't input, up to 2^64 - 1.
    pub fn left_out(&self, tap: Tap) -> u64
        ensures { (S : Settings) (changes : List ATimedChange)
            → result ≡ slice_index (seen_of self.now S changes).counts (place_of tap) }
    {
        self.left_out[usize::from(place_of(tap))]
    }

    /// What it forgot of the frames that came in for want of room, although an echo of it might still have come. With a time
    /// below the least age each of these would have been too early for one.
    pub fn forgotten(&self) -> Forgotten
        ensures { (S : Settings) (changes : List ATimedChange) → result ≡ (seen_of self.now S changes).window.forgotten }
    {
        self.window.forgotten()
    }

    /// The line that tells of it, where it forgot any.
    pub fn forgotten_line(&self) -> Option<ForgottenLine>
        ensures { (S : Settings) (changes : List ATimedChange) → result ≡ line_of (seen_of self.now S changes).window }
    {
        let forgotten = self.window.forgotten();
        if forgotten.count == 0 {
            return None;
        }
        Some(ForgottenLine {
            within: self.window.within(),
            forgotten,
        })
    }

    /// A change is input: what is known of the settings in force goes.
    fn cause_of_change(&mut self) -> Option<Cause>
        ensures answer { result ≡ None }
        ensures behind { (S : Settings) (changes : List ATimedChange) (before : Settings)
            → seen_of self.new S changes ≡ with_settings (seen_of self.old before changes) S }
    {
        self.outlets.forget();
        None
    }

    /// Why a record of an event isn't input.
    fn cause_of_record(
        &mut self,
        endpoint: &Endpoint,
        event: &Event,
        tap: Tap,
        captured: &Captured,
        came: &Forwarding,
    ) -> Option<Cause>
        requires { IsBrought (state_of endpoint.now).bridges.settings (Recorded tap captured.now) came.now }
        ensures answer { (changes : List ATimedChange) → result
            ≡ cause_of (seen_of self.old (state_of endpoint.now).bridges.settings changes) tap event.now.moment captured.now }
        ensures behind { (changes : List ATimedChange) → seen_of self.new (state_of endpoint.now).bridges.settings changes
            ≡ record_behind (seen_of self.old (state_of endpoint.now).bridges.settings changes) tap event.now.moment event.now.number
            captured.now }
    {
        let cause = match tap {
            Tap::Port(port) => self.cause_of_frame(endpoint, event, port, captured, came),
            Tap::Underlay => self.cause_of_packet(endpoint, event, captured, came),
        };
        if cause.is_some() {
            count(&mut self.left_out, place_of(tap));
        }
        cause
    }

    /// Why a record at a port isn't input, uncounted.
    fn cause_of_frame(
        &mut self,
        endpoint: &Endpoint,
        event: &Event,
        port: u8,
        captured: &Captured,
        came: &Forwarding,
    ) -> Option<Cause>
        requires { IsBrought (state_of endpoint.now).bridges.settings (Recorded (Port port) captured.now) came.now }
        ensures answer { (changes : List ATimedChange) → result
            ≡ cause_of (seen_of self.old (state_of endpoint.now).bridges.settings changes) (Port port) event.now.moment captured.now }
        ensures behind { (changes : List ATimedChange) → seen_of self.new (state_of endpoint.now).bridges.settings changes
            ≡ record (record_behind (seen_of self.old (state_of endpoint.now).bridges.settings changes) (Port port) event.now.moment
            event.now.number captured.now)
            { counts = (seen_of self.old (state_of endpoint.now).bridges.settings changes).counts } }
    {
        let frame = untagged(captured.octets);
        if let Some(origin) = echoed(&mut self.window, port, event.moment, &frame) {
            return Some(Cause::Echo(origin));
        }
        enter_frame(
            &mut self.window,
            &mut self.outlets,
            endpoint.state().ports(),
            port,
            event,
            came,
            &frame,
        );
        None
    }

    /// Why a record at the underlay isn't input, uncounted.
    fn cause_of_packet(
        &mut self,
        endpoint: &Endpoint,
        event: &Event,
        captured: &Captured,
        came: &Forwarding,
    ) -> Option<Cause>
        requires { IsBrought (state_of endpoint.now).bridges.settings (Recorded AtUnderlay captured.now) came.now }
        ensures answer { (changes : List ATimedChange) → result
            ≡ cause_of (seen_of self.old (state_of endpoint.now).bridges.settings changes) AtUnderlay event.now.moment captured.now }
        ensures behind { (changes : List ATimedChange) → seen_of self.new (state_of endpoint.now).bridges.settings changes
            ≡ record (record_behind (seen_of self.old (state_of endpoint.now).bridges.settings changes) AtUnderlay event.now.moment
            event.now.number captured.now)
            { counts = (seen_of self.old (state_of endpoint.now).bridges.settings changes).counts } }
    {
        if is_sent(endpoint.under().settings(), captured.octets) {
            return Some(Cause::Sent);
        }
        enter_packet(
            &mut self.window,
            &mut self.outlets,
            endpoint.state().ports(),
            event,
            came,
        );
        None
    }
}

impl Sieve for BothWays {
    ghost taken = { λ s S changes. taken (seen_of s S changes) };

    ghost none = { none_taken };

    ghost goes = { λ old S changes e new.
        seen_of new (settings_behind changes e.happening S) changes ≡ behind (seen_of old S changes) e };

    #[inline(always)]
    fn takes(&mut self, endpoint: &Endpoint, event: &Event, came: &Forwarding) -> bool {
        self.is_input(endpoint, event, came)
    }
}

/// Which record brought the frame that a record at a port, whose octets without tag are these, is an echo of, if it is one, by a
/// window that meets it.
fn echoed(window: &mut Window, port: u8, moment: u64, frame: &FrameText) -> Option<Origin>
    ensures answer { result ≡ echo_of window.old.within window.old.came (asked_of port moment frame.now) }
    ensures behind { window.new ≡ behind_met window.old (asked_of port moment frame.now) }
{
    let record = Record {
        place: port,
        number: 0,
        moment,
        frame,
        awaited: &PlaceSet::new(),
    };
    window.meet(&record)
}

/// Counts one more at a place.
pub(crate) fn count(counts: &mut [u64; PLACES], place: u8)
    ensures { counts.new ≡ counted counts.old place }
{
    let at = usize::from(place);
    counts[at] = counts[at].saturating_add(1);
}
