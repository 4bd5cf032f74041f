//! Whoever looks on, and another beside.
use crate::watch::Watch;
use endpoint_core::{ChangeFault, Endpoint, Forwarding};
use filter_db::Place;
use timeline::Event;

/// Whoever looks on at a run, and beside it another, where that one is wanted. Each sees what it would alone.
#[derive(Drop)]
pub struct Beside<T, O> {
    pub watch: T,
    pub other: Option<O>,
}

impl<T: Watch, O: Watch> Watch for Beside<T, O> {
    ghost use Rattle.stream_run.specs.Beside.{WhereWanted};

    ghost sees = { λ old s new. T.sees old.watch s new.watch × WhereWanted (λ x y. O.sees x s y) old.other new.other };

    ghost expects = { λ old d new. T.expects old.watch d new.watch × WhereWanted (λ x y. O.expects x d y) old.other new.other };

    ghost ends = { λ old state new. T.ends old.watch state new.watch × WhereWanted (λ x y. O.ends x state y) old.other new.other };

    fn see(&mut self, endpoint: &Endpoint, number: u64, event: &Event, came: &Forwarding) {
        self.watch.see(endpoint, number, event, came);
        if let Some(other) = &mut self.other {
            other.see(endpoint, number, event, came);
        }
    }

    fn hear_decision(&mut self, endpoint: &Endpoint, forwarding: &Forwarding, places: &[Place]) {
        self.watch.hear_decision(endpoint, forwarding, places);
        if let Some(other) = &mut self.other {
            other.hear_decision(endpoint, forwarding, places);
        }
    }

    fn hear_reply(&mut self, reply: Result<(), ChangeFault>) {
        self.watch.hear_reply(reply);
        if let Some(other) = &mut self.other {
            other.hear_reply(reply);
        }
    }

    fn pass_over(&mut self, endpoint: &Endpoint, number: u64, event: &Event) {
        self.watch.pass_over(endpoint, number, event);
        if let Some(other) = &mut self.other {
            other.pass_over(endpoint, number, event);
        }
    }

    fn end(&mut self, endpoint: &Endpoint) {
        self.watch.end(endpoint);
        if let Some(other) = &mut self.other {
            other.end(endpoint);
        }
    }
}
