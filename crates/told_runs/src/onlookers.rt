//! Who looks on at a run, as far as each is asked for.
ghost use Rattle.std.specs.Prelude.{⊤};

use crate::directions::LeavesOut;
use crate::objects_file::{RunObjects, finish_objects, leave_objects, objects_of_run};
use crate::run::{Asked, AskedJob};
use crate::view_file::{RunView, finish_view, leave_view, view_of_run};
use endpoint_core::{ChangeFault, Endpoint, Forwarding};
use filter_db::Place;
use overlay_config::TimedChange;
use program_files::Failure;
use run_counts::RunCounts;
use run_progress::Progress;
use run_reports::Reports;
use segment_set::SegmentSet;
use std::alloc::{AllocError, Global};
use std::rt::Files;
use std::time::Clock;
use stream_run::Watch;
use talkers::Talkers;
use timeline::{Event, Tap};
use tunnel_traffic::TunnelTraffic;

/// Who looks on for what is printed behind a run.
#[derive(Drop)]
pub(crate) struct LookedOn<'n, 'a> {
    pub(crate) reports: Option<Reports<'n, 'a>>,
    pub(crate) counts: Option<RunCounts>,
    pub(crate) tunnels: Option<TunnelTraffic>,
    pub(crate) talkers: Option<Talkers>,
}

/// Who writes the objects and the view of a run while it goes.
#[derive(Drop)]
pub(crate) struct Aside<'r, 'n, 'a, R: Files + AllocGlobal + Print> {
    objects: Option<RunObjects<'r, 'n, R>>,
    view: Option<RunView<'r, 'n, 'a, 'n, R>>,
}

/// Who looks on at a run: what a run says of each of them alone stands in a crate of its own. They stand side by side, and each is
/// shown all, one behind another.
#[derive(Drop)]
pub(crate) struct Onlookers<'r, 'n, 'a, R: Files + AllocGlobal + Print> {
    looked: Option<LookedOn<'n, 'a>>,
    aside: Option<Aside<'r, 'n, 'a, R>>,
    progress: Option<Progress<'r, R>>,
}

/// Whether the objects and the view of a run could be written.
#[derive(Drop)]
pub(crate) struct Written {
    pub(crate) objects: Result<(), Failure<'static>>,
    pub(crate) view: Result<(), Failure<'static>>,
}

/// Those that are asked for of a run with these changes.
pub(crate) fn onlookers_of<'r, 'n, 'a, R: Files + AllocGlobal + Print>(
    rt: &'r R,
    job: AskedJob<'n, 'n, 'a>,
    changes: &'n [TimedChange],
    progress: Option<Progress<'r, R>>,
) -> Result<Onlookers<'r, 'n, 'a, R>, Failure<'static>> {
    let looked = looked_on(rt.alloc(), job, changes)?;
    match aside_of(rt, job, changes) {
        Ok(aside) => Ok(Onlookers {
            looked,
            aside,
            progress,
        }),
        Err(failure) => Err(failure),
    }
}

/// Who writes objects and a view of a run with these changes, where either is asked for.
fn aside_of<'r, 'n, 'a, R: Files + AllocGlobal + Print>(
    rt: &'r R,
    job: AskedJob<'n, 'n, 'a>,
    changes: &'n [TimedChange],
) -> Result<Option<Aside<'r, 'n, 'a, R>>, Failure<'static>> {
    if job.asked.writes_nothing_more() {
        return Ok(None);
    }
    let objects = objects_of_run(rt, job.folder, job.asked.json, changes)?;
    match view_of_run(rt, job, changes) {
        Ok(view) => Ok(Some(Aside { objects, view })),
        Err(failure) => Err(failure),
    }
}

/// Who looks on for what is printed behind a run with these changes, where anything is.
fn looked_on<'n, 'a>(
    alloc: Global,
    job: AskedJob<'n, 'n, 'a>,
    changes: &'n [TimedChange],
) -> Result<Option<LookedOn<'n, 'a>>, AllocError> {
    if job.asked.is_nothing() {
        return Ok(None);
    }
    Ok(Some(LookedOn {
        reports: reports_of(alloc, job.asked, changes, job.segments)?,
        counts: counts_of(alloc, job.asked),
        tunnels: tunnels_of(alloc, job.asked)?,
        talkers: talkers_of(alloc, job.asked)?,
    }))
}

/// Who tells stories and tables of a run with these changes, of these segments, where either is asked for.
fn reports_of<'n, 'a>(
    alloc: Global,
    asked: Asked<'n, 'a>,
    changes: &'n [TimedChange],
    segments: &'n SegmentSet,
) -> Result<Option<Reports<'n, 'a>>, AllocError> {
    if !asked.wants_reports() {
        return Ok(None);
    }
    let reports = Reports::new(
        alloc,
        asked.why,
        changes,
        segments,
        asked.tables_at,
        asked.tables,
    )?;
    Ok(Some(reports))
}

/// Whoever counts, where a run is asked for its summary.
fn counts_of(alloc: Global, asked: Asked<'_, '_>) -> Option<RunCounts> {
    if asked.summary {
        Some(RunCounts::new(alloc))
    } else {
        None
    }
}

/// Whoever counts what passes by tunnels, where a run is asked for its summary.
fn tunnels_of(alloc: Global, asked: Asked<'_, '_>) -> Result<Option<TunnelTraffic>, AllocError> {
    if asked.summary {
        let tunnels = TunnelTraffic::open(alloc)?;
        Ok(Some(tunnels))
    } else {
        Ok(None)
    }
}

/// Whoever counts who talks to whom, where that is asked for.
fn talkers_of(alloc: Global, asked: Asked<'_, '_>) -> Result<Option<Talkers>, AllocError> {
    if asked.talkers {
        let talkers = Talkers::open(alloc)?;
        Ok(Some(talkers))
    } else {
        Ok(None)
    }
}

impl<'r, 'n, 'a, R: Files + AllocGlobal + Print + Clock + Eprint> Onlookers<'r, 'n, 'a, R> {
    /// The run ended, or stopped at a fault: the line of its progress goes, and the others are for themselves.
    pub(crate) fn apart(self) -> (Option<LookedOn<'n, 'a>>, Option<Aside<'r, 'n, 'a, R>>) {
        let Onlookers {
            looked,
            aside,
            progress,
        } = self;
        if let Some(progress) = progress {
            let mut progress = progress;
            progress.finish();
        }
        (looked, aside)
    }
}

/// Writes what is told of the captures that are cut, and hands on what is held of a run that is done.
pub(crate) fn finish_aside<R: Files + AllocGlobal + Print, L: LeavesOut>(
    aside: Option<Aside<'_, '_, '_, R>>,
    sieve: &L,
    cut: &[Tap],
) -> Written {
    let Some(aside) = aside else {
        return Written {
            objects: Ok(()),
            view: Ok(()),
        };
    };
    let Aside { objects, view } = aside;
    Written {
        view: finish_view(view, sieve, cut),
        objects: finish_objects(objects, sieve, cut),
    }
}

/// Hands on what is held of a run that stopped.
pub(crate) fn leave_aside<R: Files + AllocGlobal + Print>(aside: Option<Aside<'_, '_, '_, R>>) {
    if let Some(aside) = aside {
        let Aside { objects, view } = aside;
        leave_objects(objects);
        leave_view(view);
    }
}

impl Watch for LookedOn<'_, '_> {
    ghost sees = { λ _ _ _. ⊤ };

    ghost expects = { λ _ _ _. ⊤ };

    ghost ends = { λ _ _ _. ⊤ };

    #[inline]
    fn see(&mut self, endpoint: &Endpoint, number: u64, event: &Event, came: &Forwarding) {
        if let Some(reports) = &mut self.reports {
            reports.see(endpoint, number, event, came);
        }
        if let Some(counts) = &mut self.counts {
            counts.see(endpoint, number, event, came);
        }
        if let Some(tunnels) = &mut self.tunnels {
            tunnels.see(endpoint, number, event, came);
        }
        if let Some(talkers) = &mut self.talkers {
            talkers.see(endpoint, number, event, came);
        }
    }

    #[inline]
    fn hear_decision(&mut self, endpoint: &Endpoint, forwarding: &Forwarding, places: &[Place]) {
        if let Some(counts) = &mut self.counts {
            counts.hear_decision(endpoint, forwarding, places);
        }
        if let Some(tunnels) = &mut self.tunnels {
            tunnels.hear_decision(endpoint, forwarding, places);
        }
        if let Some(talkers) = &mut self.talkers {
            talkers.hear_decision(endpoint, forwarding, places);
        }
    }

    #[inline]
    fn hear_reply(&mut self, reply: Result<(), ChangeFault>) {
        if let Some(counts) = &mut self.counts {
            counts.hear_reply(reply);
        }
        if let Some(tunnels) = &mut self.tunnels {
            tunnels.hear_reply(reply);
        }
        if let Some(talkers) = &mut self.talkers {
            talkers.hear_reply(reply);
        }
    }

    #[inline]
    fn pass_over(&mut self, endpoint: &Endpoint, number: u64, event: &Event) {
        if let Some(reports) = &mut self.reports {
            reports.pass_over(endpoint, number, event);
        }
        if let Some(counts) = &mut self.counts {
            counts.pass_over(endpoint, number, event);
        }
        if let Some(tunnels) = &mut self.tunnels {
            tunnels.pass_over(endpoint, number, event);
        }
        if let Some(talkers) = &mut self.talkers {
            talkers.pass_over(endpoint, number, event);
        }
    }

    #[inline]
    fn end(&mut self, endpoint: &Endpoint) {
        if let Some(reports) = &mut self.reports {
            reports.end(endpoint);
        }
        if let Some(counts) = &mut self.counts {
            counts.end(endpoint);
        }
        if let Some(tunnels) = &mut self.tunnels {
            tunnels.end(endpoint);
        }
        if let Some(talkers) = &mut self.talkers {
            talkers.end(endpoint);
        }
    }
}

impl<R: Files + AllocGlobal + Print> Watch for Aside<'_, '_, '_, R> {
    ghost sees = { λ _ _ _. ⊤ };

    ghost expects = { λ _ _ _. ⊤ };

    ghost ends = { λ _ _ _. ⊤ };

    #[inline]
    fn see(&mut self, endpoint: &Endpoint, number: u64, event: &Event, came: &Forwarding) {
        if let Some(objects) = &mut self.objects {
            objects.see(endpoint, number, event, came);
        }
        if let Some(view) = &mut self.view {
            view.see(endpoint, number, event, came);
        }
    }

    #[inline]
    fn hear_decision(&mut self, endpoint: &Endpoint, forwarding: &Forwarding, places: &[Place]) {
        if let Some(objects) = &mut self.objects {
            objects.hear_decision(endpoint, forwarding, places);
        }
        if let Some(view) = &mut self.view {
            view.hear_decision(endpoint, forwarding, places);
        }
    }

    #[inline]
    fn hear_reply(&mut self, reply: Result<(), ChangeFault>) {
        if let Some(objects) = &mut self.objects {
            objects.hear_reply(reply);
        }
        if let Some(view) = &mut self.view {
            view.hear_reply(reply);
        }
    }

    #[inline]
    fn pass_over(&mut self, endpoint: &Endpoint, number: u64, event: &Event) {
        if let Some(objects) = &mut self.objects {
            objects.pass_over(endpoint, number, event);
        }
        if let Some(view) = &mut self.view {
            view.pass_over(endpoint, number, event);
        }
    }

    #[inline]
    fn end(&mut self, endpoint: &Endpoint) {
        if let Some(objects) = &mut self.objects {
            objects.end(endpoint);
        }
        if let Some(view) = &mut self.view {
            view.end(endpoint);
        }
    }
}

impl<'r, 'n, 'a, R: Files + AllocGlobal + Print + Clock + Eprint> Watch
    for Onlookers<'r, 'n, 'a, R> {
    ghost sees = { λ _ _ _. ⊤ };

    ghost expects = { λ _ _ _. ⊤ };

    ghost ends = { λ _ _ _. ⊤ };

    #[inline]
    fn see(&mut self, endpoint: &Endpoint, number: u64, event: &Event, came: &Forwarding) {
        if let Some(looked) = &mut self.looked {
            looked.see(endpoint, number, event, came);
        }
        if let Some(aside) = &mut self.aside {
            aside.see(endpoint, number, event, came);
        }
        if let Some(progress) = &mut self.progress {
            progress.count(event);
        }
    }

    #[inline]
    fn hear_decision(&mut self, endpoint: &Endpoint, forwarding: &Forwarding, places: &[Place]) {
        if let Some(looked) = &mut self.looked {
            looked.hear_decision(endpoint, forwarding, places);
        }
        if let Some(aside) = &mut self.aside {
            aside.hear_decision(endpoint, forwarding, places);
        }
    }

    #[inline]
    fn hear_reply(&mut self, reply: Result<(), ChangeFault>) {
        if let Some(looked) = &mut self.looked {
            looked.hear_reply(reply);
        }
        if let Some(aside) = &mut self.aside {
            aside.hear_reply(reply);
        }
    }

    #[inline]
    fn pass_over(&mut self, endpoint: &Endpoint, number: u64, event: &Event) {
        if let Some(looked) = &mut self.looked {
            looked.pass_over(endpoint, number, event);
        }
        if let Some(aside) = &mut self.aside {
            aside.pass_over(endpoint, number, event);
        }
        if let Some(progress) = &mut self.progress {
            progress.count(event);
        }
    }

    #[inline]
    fn end(&mut self, endpoint: &Endpoint) {
        if let Some(looked) = &mut self.looked {
            looked.end(endpoint);
        }
        if let Some(aside) = &mut self.aside {
            aside.end(endpoint);
        }
        if let Some(progress) = &mut self.progress {
            progress.finish();
        }
    }
}
