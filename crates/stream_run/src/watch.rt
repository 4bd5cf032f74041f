//! Whoever looks on while a run goes.
//!
//! A [`Watch`] says by relations what one event makes of it (`sees`), and what the end does (`ends`), since a list of all that
//! was seen would grow with the captures. A run says that these relations hold one after another, over the events in order,
//! each with the state that it found and the answer that it got. An event is shown before it is taken and its answer told
//! behind, so there is a state between (`expects`). It is shown with the frame that it brings, which the run knows already.
ghost use Rattle.std.specs.Prelude.{◌≡◌};
ghost use Rattle.wire.specs.First.{fault_of};
ghost use Rattle.endpoint_core.specs.Forwarding.{CanLeave, IsShortFrame, IsThere, decision_of};
ghost use Rattle.endpoint_core.specs.Kept.{state_of};
ghost use Rattle.endpoint_core.specs.Step.{Decided, Replied, State};
ghost use Rattle.stream_run.specs.Sights.{Due, IsBrought, Sight, answered, due, untold};

use endpoint_core::{ChangeFault, Endpoint, Forwarding};
use filter_db::Place;
use timeline::Event;

/// Whoever looks on while a run goes. The run shows each event just before the endpoint takes it, and tells just behind what
/// the endpoint answered; and at its end it shows the endpoint. A part of a run shows the events of other segments too, as
/// passed over, and tells no answer of them. A list of all that was seen is kept nowhere, so a contract says what one event
/// makes of whoever looks on.
pub trait Watch {
    /// From the first state, seeing this event and hearing its answer, where it has one, leaves the second.
    ghost sees: { Self → Sight → Self → Type 0 };

    /// From the first state, seeing this event leaves the second, before its answer is heard.
    ghost expects: { Self → Due → Self → Type 0 };

    /// From the first state, the end, at which the endpoint stands so, leaves the second.
    ghost ends: { Self → State → Self → Type 0 };

    /// An event comes, which is taken next: the endpoint as it stands before, the event's number in the run, from 1, as its
    /// decision line has it, and the frame that it brings to a segment, or why it brings none; of a change that says nothing.
    fn see(&mut self, endpoint: &Endpoint, number: u64, event: &Event, came: &Forwarding)
        requires { IsBrought (state_of endpoint.now).bridges.settings event.now.happening came.now }
        ensures { expects self.old (due (state_of endpoint.now) number event.now) self.new };

    /// The frame or the packet that was seen last was taken: the endpoint as it stands behind it, and where the frame goes,
    /// which is told by a forwarding and the places. Nothing of that was written yet.
    fn hear_decision(&mut self, endpoint: &Endpoint, forwarding: &Forwarding, places: &[Place])
        requires there { IsThere (state_of endpoint.now).bridges.settings forwarding.now }
        requires short { IsShortFrame forwarding.now }
        requires leave { CanLeave (state_of endpoint.now).bridges.settings forwarding.now places.now }
        ensures { (before : Self) (c : Due) → expects before c self.old
            → sees before
            (answered c (Decided (decision_of (state_of endpoint.now).bridges.settings forwarding.now places.now))) self.new };

    /// The change that was seen last was made, or refused for this.
    fn hear_reply(&mut self, reply: Result<(), ChangeFault>)
        ensures { (before : Self) (c : Due) → expects before c self.old → sees before (answered c (Replied (fault_of reply))) self.new };

    /// An event comes which isn't told to the segments of a part, and is passed over next: the endpoint as it stands before, and
    /// the event's number in the run. No answer is heard.
    fn pass_over(&mut self, endpoint: &Endpoint, number: u64, event: &Event)
        ensures { sees self.old (untold (due (state_of endpoint.now) number event.now)) self.new };

    /// All events were taken and all that comes of them was written: the endpoint as it stands behind them.
    fn end(&mut self, endpoint: &Endpoint)
        ensures { ends self.old (state_of endpoint.now) self.new };
}

/// Nobody looks on.
#[derive(Clone, Copy, Debug)]
pub struct Unwatched;

impl Watch for Unwatched {
    ghost sees = { λ old seen new. new ≡ old };

    ghost expects = { λ old due new. new ≡ old };

    ghost ends = { λ old state new. new ≡ old };

    #[inline]
    fn see(&mut self, _endpoint: &Endpoint, _number: u64, _event: &Event, _came: &Forwarding) {}

    #[inline]
    fn hear_decision(
        &mut self,
        _endpoint: &Endpoint,
        _forwarding: &Forwarding,
        _places: &[Place],
    ) {}

    #[inline]
    fn hear_reply(&mut self, _reply: Result<(), ChangeFault>) {}

    #[inline]
    fn pass_over(&mut self, _endpoint: &Endpoint, _number: u64, _event: &Event) {}

    #[inline]
    fn end(&mut self, _endpoint: &Endpoint) {}
}
