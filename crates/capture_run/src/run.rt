//! Runs.
ghost use Rattle.std.specs.Prelude.{◌≡◌, length, map, IfOk, OnOk};
ghost use Rattle.overlay_config.specs.Change.{changes_in};
ghost use Rattle.overlay_config.specs.Settings.{settings_in};
ghost use Rattle.std.specs.List.{AllByRecursion};
ghost use Rattle.timeline.specs.Events.{IsEventOf};
ghost use Rattle.timeline.specs.Order.{IsRising};
ghost use Rattle.endpoint_core.specs.Kept.{state_of};
ghost use Rattle.endpoint_core.specs.Opened.{settings_told};
ghost use Rattle.capture_run.specs.Outputs.{outputs};
ghost use Rattle.capture_run.specs.Run.{Gives, run};
ghost use Rattle.capture_run.specs.Writing.{seen, with_cuts, with_events};

use crate::fault::{RunFault, of_captures, of_changes, of_settings};
use crate::outputs::Outputs;
use crate::step::put_event;
use decision_lines::{Line, Scratch};
use endpoint_core::Endpoint;
use overlay_config::{Settings, TimedChange, changes_of, settings_of};
use std::alloc::{AllocError, Global};
use timeline::{Cut, Event, Timeline};

/// Runs an endpoint with the settings of a text over the captures of its local ports, port 1 first, and of its underlay,
/// with the changes of a text at their moments.
///
/// Events come in order of moment; those of one moment as the changes, the ports rising, the underlay. The first fault
/// is answered: of the settings, of the changes, `PortCount`, of a capture's header, of a record. `OutOfMemory` comes
/// only where memory was refused.
pub fn run_bytes(
    alloc: Global,
    settings: &[u8],
    changes: &[u8],
    ports: &[Vec<u8>],
    underlay: &[u8],
) -> Result<Outputs, RunFault>
    ensures { Gives result (run (settings_in settings.now) (changes_in changes.now) ports.now underlay.now) }
{
    let settings = match settings_of(alloc, settings) {
        Ok(settings) => settings,
        Err(fault) => return Err(of_settings(fault)),
    };
    let changes = match changes_of(alloc, changes) {
        Ok(changes) => changes,
        Err(fault) => return Err(of_changes(fault)),
    };
    if ports.len() != settings.ports().len() {
        return Err(RunFault::PortCount);
    }
    let moments = moments_of(alloc, changes.as_slice())?;
    let timeline = match Timeline::read(alloc, moments.as_slice(), ports, underlay) {
        Ok(timeline) => timeline,
        Err(fault) => return Err(of_captures(fault)),
    };
    let outputs = outputs_of(alloc, settings, changes.as_slice(), ports.len(), &timeline)?;
    Ok(outputs)
}

/// What comes out of a run of these events, on so many ports.
fn outputs_of(
    alloc: Global,
    settings: Settings,
    changes: &[TimedChange],
    ports: usize,
    timeline: &Timeline,
) -> Result<Outputs, AllocError>
    requires ports { ports ≡ length settings.ports }
    requires known { AllByRecursion (IsEventOf (length changes.now) ports) timeline.now.events }
    ensures { IfOk result (λ o. seen o ≡ outputs (settings_told settings) (map (λ c. c.change) changes.now) ports timeline.now) }
{
    let mut endpoint = Endpoint::open(alloc, settings)?;
    let mut outputs = Outputs::empty(alloc, ports)?;
    let mut scratch = Scratch::new();
    put_events(
        &mut outputs,
        &mut endpoint,
        &mut scratch,
        changes,
        timeline.events(),
    )?;
    put_cuts(&mut outputs, &mut scratch.line, timeline.cuts())?;
    Ok(outputs)
}

/// The moments of changes.
fn moments_of(alloc: Global, changes: &[TimedChange]) -> Result<Vec<u64>, AllocError>
    ensures { IfOk result (λ moments. moments.items ≡ map (λ c. c.at) changes.now) }
{
    let mut moments = Vec::with_capacity(alloc, changes.len())?;
    for change in changes {
        moments.push(change.at)?;
    }
    Ok(moments)
}

/// Puts all events of a run to an endpoint, and what comes of them to the outputs.
fn put_events(
    outputs: &mut Outputs,
    endpoint: &mut Endpoint,
    scratch: &mut Scratch,
    changes: &[TimedChange],
    events: &[Event],
) -> Result<(), AllocError>
    requires first { scratch.old.number ≡ 0 }
    requires rising { IsRising (state_of endpoint.old).moment events.now }
    requires known { AllByRecursion
        (IsEventOf (length changes.now) (length (state_of endpoint.old).bridges.settings.ports.ports)) events.now }
    ensures { OnOk result (seen outputs.new
        ≡ with_events (map (λ c. c.change) changes.now) 0 (state_of endpoint.old) (seen outputs.old) events.now) }
{
    for event in events {
        scratch.number.add_one();
        put_event(outputs, endpoint, scratch, changes, event)?;
    }
    Ok(())
}

/// Puts the lines of the captures that are cut.
fn put_cuts(outputs: &mut Outputs, line: &mut Line, cuts: &[Cut]) -> Result<(), AllocError>
    ensures { OnOk result (seen outputs.new ≡ with_cuts (seen outputs.old) cuts.now) }
{
    for cut in cuts {
        line.write_cut(cut);
        outputs.put_line(line.text())?;
    }
    Ok(())
}
