//! Nobody, where captures have both directions.
ghost use Rattle.std.specs.Prelude.{◌≡◌};

use endpoint_core::{ChangeFault, Endpoint, Forwarding};
use filter_db::Place;
use stream_run::Watch;
use timeline::Event;

/// Nobody looks on at a run that leaves out what the switch sent. It is [`Unwatched`](stream_run::Unwatched) under a name of its
/// own: the plain run's steps are compiled for it alone then, and stay as cheap as they are where no run has another sieve.
#[derive(Clone, Copy, Debug)]
pub struct Nobody;

impl Watch for Nobody {
    ghost sees = { λ old seen new. new ≡ old };

    ghost expects = { λ old due new. new ≡ old };

    ghost ends = { λ old state new. new ≡ old };

    #[inline]
    fn see(&mut self, _endpoint: &Endpoint, _number: u64, _event: &Event, _came: &Forwarding) {}

    #[inline]
    fn hear_decision(
        &mut self,
        _endpoint: &Endpoint,
        _forwarding: &Forwarding,
        _places: &[Place],
    ) {}

    #[inline]
    fn hear_reply(&mut self, _reply: Result<(), ChangeFault>) {}

    #[inline]
    fn pass_over(&mut self, _endpoint: &Endpoint, _number: u64, _event: &Event) {}

    #[inline]
    fn end(&mut self, _endpoint: &Endpoint) {}
}
