//! What a run tells.
ghost use Rattle.std.specs.Prelude.{◌≡◌, ◌++◌, false, IfOk, OnOk, map};
ghost use Rattle.endpoint_core.specs.Kept.{state_of};
ghost use Rattle.stream_run.specs.Sights.{due};
ghost use Rattle.event_story.specs.Story.{run_story};
ghost use Rattle.table_lines.specs.Lines.{shown_at, tables_text};
ghost use Rattle.run_reports.specs.Report.{asked, due_told, ended_by, is_before, is_found, seen_by, story_told, tables_told};

use crate::asked::AskedNames;
use crate::sought::Sought;
use endpoint_core::{ChangeFault, Endpoint, Forwarding};
use event_story::story_in_run;
use filter_db::Place;
use overlay::settings::TimedChange;
use segment_set::SegmentSet;
use std::alloc::{AllocError, Global};
use std::marker::Model;
use stream_run::Watch;
use table_lines::tables_text;
use timeline::Event;

/// What a run tells besides its outputs, seen by contracts as what is asked for and what was told so far. It looks on while
/// the run goes. Where memory is refused nothing more is told.
#[derive(Drop)]
pub struct Reports<'n, 'a> {
    alloc: Global,
    names: AskedNames<'n, 'a>,
    /// The changes of the run, whose stories may be asked for.
    changes: &'n [TimedChange],
    /// Whose tables are told.
    segments: &'n SegmentSet,
    /// For each of the names whether an event had it as its number.
    found: Vec<bool>,
    sought: Sought,
    due: Option<u64>,
    tables: bool,
    text: Vec<u8>,
    /// The tables at the end.
    last: Vec<u8>,
    is_lost: bool,
}

impl<'n, 'a> Model for Reports<'n, 'a> {
    ghost use Rattle.std.specs.Prelude.{◌≡◌, length};
    ghost use Rattle.run_reports.specs.Report.{Telling};

    ghost Value = { Telling };

    ghost view = { λ r. record {
      names = r.names;
      changes = r.changes.now;
      segments = r.segments.now;
      due = r.due;
      tables = r.tables;
      text = r.text.items;
      last = r.last.items;
      found = r.found.items;
      reasons = r.sought.reasons.items;
      addresses = r.sought.addresses.items;
      is_lost = r.is_lost;
    } };

    ghost invariant = { λ r. length r.found.items ≡ length r.names };
}

impl<'n, 'a> Reports<'n, 'a> {
    /// Asks for why the events of these names came out as they did, or the first of the kinds that they name, in a run with
    /// these changes, and for the tables of these segments: as they are behind the last event up to a moment, in nanoseconds,
    /// and at the end. `AllocError`: memory was refused.
    pub fn new(
        alloc: Global,
        names: &'n [&'a str],
        changes: &'n [TimedChange],
        segments: &'n SegmentSet,
        tables_at: Option<u64>,
        tables: bool,
    ) -> Result<Reports<'n, 'a>, AllocError>
        ensures { IfOk result (λ reports. reports
            ≡ asked (map (λ name. name.now) names.entry.now) changes.entry.now segments.entry.now tables_at tables) }
    {
        let found = vec![in alloc; false; names.len()]?;
        Ok(Reports {
            alloc,
            names: AskedNames::read(alloc, names)?,
            changes,
            segments,
            found,
            sought: Sought::read(alloc, names)?,
            due: tables_at,
            tables,
            text: Vec::new(alloc),
            last: Vec::new(alloc),
            is_lost: false,
        })
    }

    /// Whether an event had the name at this place, or was the first of what it asks for.
    pub fn is_found(&self, place: usize) -> bool
        ensures { result ≡ is_found place self.now }
    {
        let is_numbered = match self.found.get(place) {
            Some(is_found) => *is_found,
            None => false,
        };
        is_numbered || self.sought.is_met(place)
    }

    /// For each of the names, in their order, whether an event had it as its number.
    pub fn found(&self) -> &[bool]
        ensures { result.now ≡ self.now.found }
    {
        self.found.as_slice()
    }

    /// What was told, and behind it the tables at the end. `AllocError`: memory was refused meanwhile.
    pub fn into_texts(self) -> Result<(Vec<u8>, Vec<u8>), AllocError>
        ensures told { IfOk result (λ texts. texts.0.items ≡ self.entry.text) }
        ensures last { IfOk result (λ texts. texts.1.items ≡ self.entry.last) }
        ensures whole { OnOk result (self.entry.is_lost ≡ false) }
    {
        if self.is_lost {
            return Err(AllocError);
        }
        Ok((self.text, self.last))
    }
}

impl<'n, 'a> Watch for Reports<'n, 'a> {
    ghost use Rattle.run_reports.specs.Report.{TellsOrLoses, ended_by, seen_by, told_by};

    ghost sees = { λ old s new. TellsOrLoses (told_by old s) new };

    ghost expects = { λ old d new. TellsOrLoses (seen_by old d) new };

    ghost ends = { λ old state new. TellsOrLoses (ended_by old state) new };

    #[inline]
    fn see(&mut self, endpoint: &Endpoint, number: u64, event: &Event, _came: &Forwarding) {
        if !self.is_lost && self.tell(endpoint, number, event).is_err() {
            self.is_lost = true;
        }
    }

    fn hear_decision(
        &mut self,
        _endpoint: &Endpoint,
        _forwarding: &Forwarding,
        _places: &[Place],
    ) {}

    fn hear_reply(&mut self, _reply: Result<(), ChangeFault>) {}

    fn pass_over(&mut self, endpoint: &Endpoint, _number: u64, event: &Event) {
        if !self.is_lost && self.tell_tables(endpoint, event.moment).is_err() {
            self.is_lost = true;
        }
    }

    fn end(&mut self, endpoint: &Endpoint) {
        if !self.is_lost && self.tell_end(endpoint).is_err() {
            self.is_lost = true;
        }
    }
}

impl<'n, 'a> Reports<'n, 'a> {
    /// Tells what is asked for before an event that the run answers.
    #[inline]
    fn tell(&mut self, endpoint: &Endpoint, number: u64, event: &Event) -> Result<(), AllocError>
        ensures { OnOk result (self.new ≡ seen_by self.old (due (state_of endpoint.now) number event.now)) }
    {
        self.tell_tables(endpoint, event.moment)?;
        self.tell_story(endpoint, number, event)
    }

    /// Tells the tables before an event of this moment, where it is behind theirs.
    #[inline]
    fn tell_tables(&mut self, endpoint: &Endpoint, moment: u64) -> Result<(), AllocError>
        ensures { OnOk result (self.new ≡ tables_told self.old (state_of endpoint.now) moment) }
    {
        if is_before(self.due, moment) {
            self.tell_due(endpoint)?;
        }
        Ok(())
    }

    /// Tells why an event comes out as it does, where one asks for it.
    #[inline]
    fn tell_story(
        &mut self,
        endpoint: &Endpoint,
        number: u64,
        event: &Event,
    ) -> Result<(), AllocError>
        ensures { OnOk result (self.new ≡ story_told self.old (due (state_of endpoint.now) number event.now)) }
    {
        let is_named = self.names.mark(self.found.as_mut_slice(), number, event);
        let is_first = self.sought.meet(endpoint, event);
        if is_named || is_first {
            put_story(
                self.alloc,
                &mut self.text,
                endpoint,
                self.changes,
                number,
                event,
            )?;
        }
        Ok(())
    }

    /// Tells what is asked for at the end.
    fn tell_end(&mut self, endpoint: &Endpoint) -> Result<(), AllocError>
        ensures { OnOk result (self.new ≡ ended_by self.old (state_of endpoint.now)) }
    {
        self.tell_due(endpoint)?;
        if self.tables {
            put_tables(self.alloc, &mut self.last, endpoint, self.segments, None)?;
        }
        Ok(())
    }

    /// Tells the tables at their moment, where they weren't told yet.
    #[cold]
    #[inline(never)]
    fn tell_due(&mut self, endpoint: &Endpoint) -> Result<(), AllocError>
        ensures { OnOk result (self.new ≡ due_told self.old (state_of endpoint.now)) }
    {
        if self.due.is_some() {
            put_tables(
                self.alloc,
                &mut self.text,
                endpoint,
                self.segments,
                self.due,
            )?;
            self.due = None;
        }
        Ok(())
    }
}

/// Whether there is a moment before this one.
fn is_before(due: Option<u64>, moment: u64) -> bool
    ensures { result ≡ is_before due moment }
{
    match due {
        Some(at) => at < moment,
        None => false,
    }
}

/// Puts the tables of these segments as they are at a moment up to which nothing more comes, or at that of the last event.
fn put_tables(
    alloc: Global,
    text: &mut Vec<u8>,
    endpoint: &Endpoint,
    segments: &SegmentSet,
    at: Option<u64>,
) -> Result<(), AllocError>
    ensures { OnOk result (text.new.items ≡ text.old.items ++ tables_text segments.now (shown_at at (state_of endpoint.now))) }
{
    let tables = tables_text(alloc, endpoint, segments, at)?;
    text.extend_from_slice(tables.as_slice())
}

/// Puts why an event comes out as it does.
#[cold]
#[inline(never)]
fn put_story(
    alloc: Global,
    text: &mut Vec<u8>,
    endpoint: &Endpoint,
    changes: &[TimedChange],
    number: u64,
    event: &Event,
) -> Result<(), AllocError>
    ensures { OnOk result (text.new.items ≡ text.old.items ++ run_story changes.now (state_of endpoint.now) number event.now) }
{
    let story = story_in_run(alloc, endpoint, changes, number, event)?;
    text.extend_from_slice(story.as_slice())
}
