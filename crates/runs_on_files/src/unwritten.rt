//! A run of which nothing is written.
ghost use Rattle.std.specs.Prelude.{◌≡◌, [], All, Ok, IfOk, length};
ghost use Rattle.overlay_config.specs.Change.{IsRising, changes_in};
ghost use Rattle.overlay_config.specs.Settings.{settings_in};
ghost use Rattle.overlay.specs.Rules.{EachBehind};
ghost use Rattle.stream_run.specs.Begun.{IsUnread};

use crate::run_captures::RunCaptures;
use capture_run::RunFault;
use pcap::stream::{Sink, StdOutput};
use std::alloc::{AllocError, Global};
use std::io::{self, Read};
use stream_run::{Job, RunOutputs, Sieve, StreamFault, Watch, run};

/// An output that takes everything and keeps nothing.
type Unwritten = StdOutput<io::Sink>;

/// Runs on captures of which nothing is read yet, with the settings and the changes that the texts mean. Someone looks on.
#[inline(never)]
pub(crate) fn run_into_nothing<'a, F: Read + Drop, I: Read + Drop, S: Sieve, T: Watch>(
    alloc: Global,
    job: Job<'_>,
    captures: &mut RunCaptures<'a, F, I>,
    sieve: &mut S,
    watch: &mut T,
) -> Result<(), StreamFault>
    requires settings { settings_in job.settings_text.now ≡ Ok job.settings }
    requires told { changes_in job.changes_text.now ≡ Ok job.changes.now }
    requires rising { EachBehind IsRising [] job.changes.now }
    requires ports { All IsUnread captures.old.ports.items }
    requires underlay { IsUnread captures.old.underlay }
{
    let Ok(ports) = unwritten_sinks(alloc, captures.ports.len()) else {
        return Err(StreamFault::Run(RunFault::OutOfMemory));
    };
    let mut outputs = RunOutputs {
        ports,
        underlay: Sink::new(unwritten()),
        decisions: unwritten(),
    };
    run(alloc, job, captures, &mut outputs, sieve, watch)
}

/// An output that keeps nothing.
fn unwritten() -> Unwritten {
    StdOutput::new(io::sink())
}

/// So many captures that keep nothing.
fn unwritten_sinks(alloc: Global, count: usize) -> Result<Vec<Sink<Unwritten>>, AllocError>
    ensures { IfOk result (λ sinks. length sinks.items ≡ count) }
{
    let mut sinks = Vec::new(alloc);
    for _port in 0..count {
        sinks.push(Sink::new(unwritten()))?;
    }
    Ok(sinks)
}
