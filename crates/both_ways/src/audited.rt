//! A sieve of whose records, left out or not, account is kept.
ghost use Rattle.std.specs.Prelude.{◌≡◌, [], ◌∷◌, List};
ghost use Rattle.endpoint_core.specs.Kept.{state_of};
ghost use Rattle.stream_run.specs.Sieved.{settings_behind};
ghost use Rattle.both_ways.specs.Sieve.{behind, left_out_of, none_taken, seen_of, taken};
ghost use Rattle.both_ways.specs.declared.left_out.LeftOut.{LeftOut as ALeftOut};

use crate::left_out::LeftOut;
use crate::sieve::BothWays;
use endpoint_core::{Endpoint, Forwarding};
use stream_run::Sieve;
use timeline::Event;

/// Whoever keeps account of what a sieve leaves out.
pub trait Audit {
    /// From the first state, being told of these records, one after another, leaves the second.
    ghost hears: { Self → List ALeftOut → Self → Type 0 };

    /// The next event is input. The run's endpoint is lent as it stands before.
    fn hear_input(&mut self, endpoint: &Endpoint, event: &Event)
        ensures { hears self.old [] self.new };

    /// The next record isn't.
    fn hear_left_out(&mut self, left: &LeftOut)
        ensures { hears self.old (left.now ∷ []) self.new };
}

/// A sieve, and who keeps account of what it leaves out: of each such record a line.
#[derive(Drop)]
pub struct Audited<A> {
    pub both: BothWays,
    pub audit: A,
}

impl<A: Audit> Sieve for Audited<A> {
    ghost taken = { λ s S changes. taken (seen_of s.both S changes) };

    ghost none = { λ s. none_taken s.both };

    ghost goes = { λ old S changes e new.
        (seen_of new.both (settings_behind changes e.happening S) changes ≡ behind (seen_of old.both S changes) e)
        × A.hears old.audit (left_out_of (seen_of old.both S changes) e) new.audit };

    fn takes(&mut self, endpoint: &Endpoint, event: &Event, came: &Forwarding) -> bool {
        match self.both.cause(endpoint, event, came) {
            Some(cause) => {
                self.audit.hear_left_out(&LeftOut::of(event, cause));
                false
            }
            None => {
                self.audit.hear_input(endpoint, event);
                true
            }
        }
    }
}
