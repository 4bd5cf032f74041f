//! The events of a run in order, and the cut rests of its captures.
ghost use Rattle.std.specs.Prelude.{◌≡◌, ◌≤◌, length, slice_get, IfOk, IfErr, OnOk, []};
ghost use Rattle.std.specs.List.{AllByRecursion};
ghost use Rattle.timeline.specs.Events.{IsEventOf, all_events, change_events};
ghost use Rattle.timeline.specs.Faults.{IsFault, record_faults};
ghost use Rattle.timeline.specs.Inputs.{HasBoundedRecords};
ghost use Rattle.timeline.specs.Order.{IsRising};
ghost use Rattle.timeline.specs.Timeline.{Gives, cuts_of, told};

use crate::capture::{Opened, open_all, read_capture};
use crate::event::{Event, Happening};
use crate::fault::TimelineFault;
use crate::order::merge;
use crate::source::Tap;
use std::alloc::{AllocError, Global};
use std::marker::Model;

/// A rest that is no whole record, at the end of a capture.
#[derive(Clone, Copy)]
pub struct Cut {
    pub tap: Tap,
    /// How many whole records stand before the rest.
    pub whole: u64,
}

/// The events of a run in order.
///
/// They come in order of moment. Those of one moment come as the changes, the ports rising, the underlay, and those of
/// one source in its order.
#[derive(Drop)]
pub struct Timeline<'a> {
    events: Vec<Event<'a>>,
    cuts: Vec<Cut>,
}

impl<'a> Model for Timeline<'a> {
    ghost use Rattle.timeline.specs.Order.{IsRising};
    ghost use Rattle.timeline.specs.Timeline.{Timeline};

    ghost Value = { Timeline };

    ghost view = { λ t. record { events = t.events.items; cuts = t.cuts.items } };

    ghost invariant = { λ t. IsRising 0 t.events.items };
}

/// The changes as events, with numbers from 1.
fn change_events<'a>(alloc: Global, changes: &[u64]) -> Result<Vec<Event<'a>>, AllocError>
    ensures { IfOk result (λ events. events.items ≡ change_events 0 changes.now) }
{
    let mut events = Vec::with_capacity(alloc, changes.len())?;
    for (index, moment) in changes.iter().enumerate() {
        events.push(Event {
            moment: *moment,
            number: index as u64 + 1,
            happening: Happening::Change(index),
        })?;
    }
    Ok(events)
}

/// The changes and the records of all captures as events, source by source, and the cut rests.
fn collect<'a>(
    alloc: Global,
    changes: &[u64],
    captures: Vec<Opened<'a>>,
) -> Result<(Vec<Event<'a>>, Vec<Cut>), TimelineFault>
    requires { AllByRecursion HasBoundedRecords captures.items }
    ensures events { IfOk result (λ all. all.0.items ≡ all_events changes.now captures.entry.items) }
    ensures cuts { IfOk result (λ all. all.1.items ≡ cuts_of captures.entry.items) }
    ensures no_fault { OnOk result (record_faults captures.entry.items ≡ []) }
    ensures fault { IfErr result (λ f. IsFault f (slice_get (record_faults captures.entry.items) 0)) }
{
    let mut events = change_events(alloc, changes)?;
    let mut cuts = Vec::new(alloc);
    for capture in captures {
        if let Some(cut) = read_capture(&mut events, capture)? {
            cuts.push(cut)?;
        }
    }
    Ok((events, cuts))
}

impl<'a> Timeline<'a> {
    /// Reads the captures of a run, and puts their records and the changes in order.
    ///
    /// `changes` are the moments of the changes, in nanoseconds; `ports` the captures of port 1, 2 and so on, at most 255.
    /// First all captures are opened, ports rising and then the underlay, and then the records of each are read, in the
    /// same order: the first fault is answered. `OutOfMemory` comes only where memory was refused.
    #[tactic(auto, unfolding(crate::specs::Timeline::told))]
    pub fn read(
        alloc: Global,
        changes: &[u64],
        ports: &'a [Vec<u8>],
        underlay: &'a [u8],
    ) -> Result<Timeline<'a>, TimelineFault>
        requires { length ports.now ≤ 255 }
        ensures told { Gives result (told changes.now ports.now underlay.now) }
        ensures rising { IfOk result (λ timeline. IsRising 0 timeline.events) }
        ensures known { IfOk result (λ timeline. AllByRecursion (IsEventOf (length changes.now) (length ports.now)) timeline.events) }
    {
        let captures = open_all(alloc, ports, underlay)?;
        let (all, cuts) = collect(alloc, changes, captures)?;
        let events = merge(all)?;
        Ok(Timeline { events, cuts })
    }

    /// The events, in order.
    pub fn events(&self) -> &[Event<'a>]
        ensures events { result.now ≡ self.now.events }
        ensures rising { IsRising 0 result.now }
    {
        self.events.as_slice()
    }

    /// The rests that are no whole records and were left out, ports rising and then the underlay.
    pub fn cuts(&self) -> &[Cut]
        ensures { result.now ≡ self.now.cuts }
    {
        self.cuts.as_slice()
    }
}
