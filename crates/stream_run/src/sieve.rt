//! What of its events a run takes in.
//!
//! A [`Sieve`] is asked about each event in order, just before the endpoint would take it, and is told what it brings to a segment,
//! which the run knows then. What it leaves out is read as ever, so each fault of a capture is answered as without it; but it isn't
//! numbered, shown, put to the endpoint or written.
//!
//! Which events it takes in is a function of the settings with which a run begins, of its changes and of lists of events. That a
//! sieve may ask the run's own endpoint for the settings in force takes nothing away from it: behind a change they depend on the
//! settings before and on the change alone, and each change is taken in.
ghost use Rattle.std.specs.Prelude.{◌≡◌, ℕ, Bool, true, false, if◌then◌else◌, List, [], ◌∷◌};
ghost use Rattle.overlay.specs.declared.settings.change.TimedChange.{TimedChange as ATimedChange};
ghost use Rattle.timeline.specs.declared.event.Event.{Event as AnEvent};
ghost use Rattle.timeline.specs.declared.event.Happening.TheVariants.{Change as Changes};
ghost use Rattle.endpoint_core.specs.Kept.{state_of};
ghost use Rattle.endpoint_core.specs.Settings.{Settings};
ghost use Rattle.stream_run.specs.Sieved.{all_taken, none_taken, settings_behind};
ghost use Rattle.stream_run.specs.Sights.{IsBrought};

use endpoint_core::{Endpoint, Forwarding};
use timeline::Event;

/// What of a run's events is taken in. It says by a function of lists which of some events it takes in (`taken`), so a run's
/// contract is about those; and by a relation what one event makes of it (`goes`), so what it counts can be told.
pub trait Sieve {
    /// Of these events, one after another, those that it takes in, where these settings are in force and these are the changes.
    ghost taken: { Self → Settings → List ATimedChange → List AnEvent → List AnEvent };

    /// Of none it takes none.
    ghost none: { (s : Self) (S : Settings) (changes : List ATimedChange) → taken s S changes [] ≡ [] };

    /// From the first state, being asked about this event at these settings leaves the second.
    ghost goes: { Self → Settings → List ATimedChange → AnEvent → Self → Type 0 };

    /// Whether it leaves no event out.
    ghost all: { Self → Bool } = { λ _. false };

    /// Whether it is known to leave no event out.
    #[inline]
    fn takes_all(&self) -> bool
        ensures { result ≡ true → all self.now ≡ true }
    {
        false
    }

    /// Whether it takes in the next event: a change, which it always does, or a record by its number in its capture. The run's
    /// endpoint is lent as it stands before, and the frame that the event brings to a segment, or why it brings none; of a change
    /// that says nothing.
    fn takes(&mut self, endpoint: &Endpoint, event: &Event, came: &Forwarding) -> bool
        requires { IsBrought (state_of endpoint.now).bridges.settings event.now.happening came.now }
        ensures taken { (changes : List ATimedChange) (behind : Settings) (es : List AnEvent)
            → behind ≡ settings_behind changes event.now.happening (state_of endpoint.now).bridges.settings
            → taken self.old (state_of endpoint.now).bridges.settings changes (event.now ∷ es)
            ≡ (if result then event.now ∷ taken self.new behind changes es else taken self.new behind changes es) }
        ensures change { (index : ℕ) → event.now.happening ≡ Changes index → result ≡ true }
        ensures goes { (changes : List ATimedChange)
            → goes self.old (state_of endpoint.now).bridges.settings changes event.now self.new }
        ensures all { all self.old ≡ true → result ≡ true }
        ensures still { all self.new ≡ all self.old };
}

/// Each event is taken in.
#[derive(Clone, Copy, Debug)]
pub struct TakesAll;

impl Sieve for TakesAll {
    ghost taken = { λ s S changes. all_taken };

    ghost none = { λ s S changes. none_taken };

    ghost goes = { λ old S changes e new. new ≡ old };

    ghost all = { λ s. true };

    #[inline]
    fn takes_all(&self) -> bool {
        true
    }

    #[inline]
    fn takes(&mut self, _endpoint: &Endpoint, _event: &Event, _came: &Forwarding) -> bool {
        true
    }
}
