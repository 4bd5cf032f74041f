//! Who talks to whom.
ghost use Rattle.std.specs.Prelude.{◌≡◌, IfOk};
ghost use Rattle.endpoint_core.specs.Forwarding.{decision_of};
ghost use Rattle.endpoint_core.specs.Kept.{state_of};
ghost use Rattle.endpoint_core.specs.Step.{Decided};
ghost use Rattle.stream_run.specs.Sights.{IsBrought};
ghost use Rattle.talkers.specs.Lines.{talks_text};
ghost use Rattle.talkers.specs.Talkers.{IsTold, Takes, exit_of, exit_to, expecting, no_talkers, talk_rows};

use crate::coming::{Coming, keep_coming};
use crate::lines::put_talks;
use crate::rows::{Exit, Passed, Talk, largest_first};
use endpoint_core::{ChangeFault, Endpoint, Forwarding};
use filter_db::Place;
use ranked_rows::FrequentRows;
use std::alloc::{AllocError, Global};
use std::marker::Model;
use stream_run::Watch;
use timeline::Event;

/// Who talks to whom in the segments of an endpoint. It looks on while a run goes. Only [`Talkers::open`] and
/// [`Talkers::text`] take memory; the table takes 0.5 MiB.
#[derive(Drop)]
pub struct Talkers {
    rows: FrequentRows<Talk, Passed>,
    /// The frame that the event seen last brings to a segment.
    coming: Option<Coming>,
}

impl Model for Talkers {
    ghost use Rattle.talkers.specs.Talkers.{Talkers};

    ghost Value = { Talkers };

    ghost view = { λ t. record { rows = t.rows; coming = t.coming } };
}

impl Talkers {
    /// Nobody talked yet. `AllocError`: memory was refused.
    pub fn open(alloc: Global) -> Result<Talkers, AllocError>
        ensures { IfOk result (λ talkers. talkers ≡ no_talkers) }
    {
        Ok(Talkers {
            rows: FrequentRows::open(alloc)?,
            coming: None,
        })
    }

    /// Who talked so far, as text, the largest of each segment first. `AllocError`: memory was refused.
    pub fn text(&self, alloc: Global) -> Result<Vec<u8>, AllocError>
        ensures { IfOk result (λ text. text.items ≡ talks_text self.now.rows) }
    {
        let sorted = largest_first(self.rows.rows(alloc)?)?;
        let mut text = String::new(alloc);
        put_talks(&mut text, sorted.as_slice(), self.rows.others())?;
        Ok(text.into_bytes())
    }
}

impl Watch for Talkers {
    ghost use Rattle.std.specs.Prelude.{◌≡◌};
    ghost use Rattle.talkers.specs.Talkers.{Expects, Sees};

    ghost sees = { Sees };

    ghost expects = { Expects };

    ghost ends = { λ old state new. new ≡ old };

    fn see(&mut self, endpoint: &Endpoint, _number: u64, event: &Event, came: &Forwarding) {
        self.expect(endpoint, event, came);
    }

    fn hear_decision(&mut self, endpoint: &Endpoint, forwarding: &Forwarding, places: &[Place]) {
        self.count_decision(endpoint, forwarding, places);
    }

    fn hear_reply(&mut self, _reply: Result<(), ChangeFault>) {}

    fn pass_over(&mut self, _endpoint: &Endpoint, _number: u64, _event: &Event) {}

    fn end(&mut self, _endpoint: &Endpoint) {}
}

impl Talkers {
    /// Keeps the frame that an event brings.
    fn expect(&mut self, endpoint: &Endpoint, event: &Event, came: &Forwarding)
        requires { IsBrought (state_of endpoint.now).bridges.settings event.now.happening came.now }
        ensures { self.new ≡ expecting self.old (state_of endpoint.now).bridges.settings event.now.moment event.now.happening }
    {
        keep_coming(
            endpoint,
            event.moment,
            &event.happening,
            came,
            &mut self.coming,
        );
    }

    /// Counts the frame that is kept, where it goes.
    fn count_decision(&mut self, endpoint: &Endpoint, forwarding: &Forwarding, places: &[Place])
        ensures { IsTold self.old
            (Decided (decision_of (state_of endpoint.now).bridges.settings forwarding.now places.now)) self.new }
    {
        let to = exit_of(endpoint, forwarding, places);
        count(&mut self.rows, self.coming, to);
    }
}

/// Counts a frame, where there is one.
fn count(rows: &mut FrequentRows<Talk, Passed>, coming: Option<Coming>, to: Exit)
    ensures { Takes rows.old (talk_rows coming to) rows.new }
{
    match coming {
        Some(coming) => rows.add(coming.talk(to), coming.passed()),
        None => (),
    }
}

/// Where a frame goes.
fn exit_of(endpoint: &Endpoint, forwarding: &Forwarding, places: &[Place]) -> Exit
    ensures { result ≡ exit_of (decision_of (state_of endpoint.now).bridges.settings forwarding.now places.now) }
{
    match forwarding {
        Ok(_) => exit_to(places),
        Err(_) => Exit::Drop,
    }
}

/// Where a frame goes that goes to these places.
fn exit_to(places: &[Place]) -> Exit
    ensures { result ≡ exit_to places.now }
{
    match places {
        [] => Exit::Drop,
        [place] => Exit::To(*place),
        _ => Exit::Flood,
    }
}
