//! Who looks on at a run for whom asks.
use crate::reports::Reports;
use endpoint_core::{ChangeFault, Endpoint, Forwarding};
use filter_db::Place;
use run_counts::RunCounts;
use stream_run::Watch;
use timeline::Event;

/// Who looks on at a run for whom asks: the reports, and the counts where they are wanted.
#[derive(Drop)]
pub struct Onlooker<'n, 'a> {
    pub reports: Reports<'n, 'a>,
    pub counts: Option<RunCounts>,
}

impl<'n, 'a> Watch for Onlooker<'n, 'a> {
    ghost use Rattle.run_reports.specs.Onlooker.{Ended, Expected, Seen};

    ghost sees = { Seen };

    ghost expects = { Expected };

    ghost ends = { Ended };

    #[inline]
    fn see(&mut self, endpoint: &Endpoint, number: u64, event: &Event, came: &Forwarding) {
        self.reports.see(endpoint, number, event, came);
        if let Some(counts) = &mut self.counts {
            counts.see(endpoint, number, event, came);
        }
    }

    #[inline]
    fn hear_decision(&mut self, endpoint: &Endpoint, forwarding: &Forwarding, places: &[Place]) {
        if let Some(counts) = &mut self.counts {
            counts.hear_decision(endpoint, forwarding, places);
        }
    }

    fn hear_reply(&mut self, reply: Result<(), ChangeFault>) {
        if let Some(counts) = &mut self.counts {
            counts.hear_reply(reply);
        }
    }

    fn pass_over(&mut self, endpoint: &Endpoint, number: u64, event: &Event) {
        self.reports.pass_over(endpoint, number, event);
        if let Some(counts) = &mut self.counts {
            counts.pass_over(endpoint, number, event);
        }
    }

    fn end(&mut self, endpoint: &Endpoint) {
        self.reports.end(endpoint);
        if let Some(counts) = &mut self.counts {
            counts.end(endpoint);
        }
    }
}
