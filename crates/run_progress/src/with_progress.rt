//! Whoever looks on, and the progress of the run beside.
ghost use Rattle.std.specs.Prelude.{◌≡◌};

use crate::progress::Progress;
use endpoint_core::{ChangeFault, Endpoint, Forwarding};
use filter_db::Place;
use std::time::Clock;
use stream_run::Watch;
use timeline::Event;

/// Whoever looks on at a run, and beside it how far the run is, where that is shown. What a run says of whoever looks on is the
/// same with it as without.
#[derive(Drop)]
pub struct WithProgress<'r, T, R> {
    pub watch: T,
    pub progress: Option<Progress<'r, R>>,
}

impl<'r, T: Watch, R: Clock + Eprint> WithProgress<'r, T, R> {
    /// The run ended, or stopped at a fault: takes the line away, where one was shown.
    pub fn finish(&mut self)
        ensures { self.new.watch ≡ self.old.watch }
    {
        if let Some(progress) = &mut self.progress {
            progress.finish();
        }
    }
}

impl<'r, T: Watch, R: Clock + Eprint> Watch for WithProgress<'r, T, R> {
    ghost sees = { λ old s new. T.sees old.watch s new.watch };

    ghost expects = { λ old d new. T.expects old.watch d new.watch };

    ghost ends = { λ old state new. T.ends old.watch state new.watch };

    #[inline]
    fn see(&mut self, endpoint: &Endpoint, number: u64, event: &Event, came: &Forwarding) {
        self.watch.see(endpoint, number, event, came);
        if let Some(progress) = &mut self.progress {
            progress.count(event);
        }
    }

    #[inline]
    fn hear_decision(&mut self, endpoint: &Endpoint, forwarding: &Forwarding, places: &[Place]) {
        self.watch.hear_decision(endpoint, forwarding, places);
    }

    #[inline]
    fn hear_reply(&mut self, reply: Result<(), ChangeFault>) {
        self.watch.hear_reply(reply);
    }

    #[inline]
    fn pass_over(&mut self, endpoint: &Endpoint, number: u64, event: &Event) {
        self.watch.pass_over(endpoint, number, event);
        if let Some(progress) = &mut self.progress {
            progress.count(event);
        }
    }

    fn end(&mut self, endpoint: &Endpoint) {
        self.watch.end(endpoint);
        self.finish();
    }
}
