//! A part of a run: its decision lines and its captures.
ghost use Rattle.std.specs.Prelude.{◌≡◌, ◌≤◌, ◌++◌, ⊤, ℕ, List, [], ◌∷◌, IfOk, IfSome, Ok, OnOk, length, false, true};
ghost use Rattle.std.specs.Io.KnownBytes.{Appends, Keeps};
ghost use Rattle.std.specs.List.{concat};
ghost use Rattle.line_stream.specs.Lines.{holds_line};
ghost use Rattle.part_lines.specs.Facts.{facts_of};
ghost use Rattle.part_lines.specs.declared.facts.LineFacts.TheVariants.{Event};
ghost use Rattle.timeline.specs.declared.source.Tap.{Tap as ATap};
ghost use Rattle.part_merge.specs.Blame.{BlamesNoRead, BlamesNoWrite, LinesRead, LinesWrite, MatchRead, PartOpens, PartReads};
ghost use Rattle.part_merge.specs.Blame.{WritesWith};
ghost use Rattle.part_merge.specs.Coming.{ComesNext, Holds, HoldsAll, StandBehind, UnlessPart, is_cut};
ghost use Rattle.part_merge.specs.Left.{AreAdded, AreLeft, UnlessDevice};
ghost use Rattle.part_merge.specs.Merged.{Piece, records_at};
ghost use Rattle.part_merge.specs.Moved.{AreRecords, Moves, taps};
ghost use Rattle.part_merge.specs.Firsts.{IsNone};
ghost use Rattle.part_merge.specs.Numbered.{AddsCuts, AddsLine, IsOf};
ghost use Rattle.part_merge.specs.Told.{IsPlaced};
ghost use Rattle.part_merge.specs.Waiting.{AreOutAtRead, IsOutAtRead};
ghost use Rattle.part_merge.specs.declared.coming.Coming.TheVariants.{Nothing};

use crate::capture::PartCapture;
use crate::coming::{Coming, Told, coming_of, is_cut, is_over, stopped_by};
use crate::fault::{MergeFault, Target};
use crate::hand_on::{hand_on_captures_before, hand_on_lines_before};
use crate::records::{Captures, copy_all, end_captures};
use line_stream::Lines;
use part_lines::{LineFacts, PartFault, Places, read_line};
use pcap::stream::{Input, Output, Sink};
use std::marker::Model;

/// The lines of cut captures that a part has at most: one for each capture, of 255 ports and the underlay.
const MOST_CUTS: usize = 256;

/// A part of a run: its next decision line and the lines behind it, and its captures. Contracts see them all.
#[derive(Drop)]
pub struct Part<R: Input> {
    lines: Lines<R>,
    captures: Captures<R>,
    coming: Coming,
    /// Where the result of the next line begins; none where it isn't an event's, and behind a fault.
    begins: Option<usize>,
}

impl<R: Input> Model for Part<R> {
    ghost use Rattle.std.specs.Prelude.{IfSome};
    ghost use Rattle.part_merge.specs.Coming.{OpenPart};
    ghost use Rattle.part_merge.specs.Numbered.{IsOf};
    ghost use Rattle.part_merge.specs.Told.{IsPlaced};

    ghost Value = { OpenPart };

    ghost view = { λ p. record {
      reader = p.lines;
      ports = p.captures.ports.items;
      underlay = p.captures.underlay;
      coming = p.coming;
    } };

    ghost invariant = { λ p. IfSome p.begins (IsPlaced p.lines.line) × IsOf p.coming p.lines.line };
}

/// Puts a line to the decisions.
fn put_line<W: Output>(decisions: &mut W, line: &[u8]) -> Result<(), MergeFault>
    ensures put { UnlessDevice result (Appends (W.written decisions.old) (W.written decisions.new) line.now) }
    ensures no_read { BlamesNoRead result }
    ensures writes { LinesWrite (W.failures decisions.old) (W.failures decisions.new) result }
{
    match decisions.write_all(line) {
        Ok(()) => Ok(()),
        Err(_) => Err(MergeFault::Write(Target::Decisions)),
    }
}

impl<R: Input> Part<R> {
    /// A part with these decision lines, of which none was read, and these captures. It reads the first line, and nothing
    /// else; of its faults `part` is the number. Lines that aren't read are handed back, as they stand then.
    pub fn open(
        part: usize,
        lines: Lines<R>,
        ports: Vec<PartCapture<R>>,
        underlay: PartCapture<R>,
    ) -> Result<Part<R>, (MergeFault, Lines<R>)>
    where
        R: Drop,
        ensures opened { (count : ℕ) (pieces : List Piece) (cuts : List (List ℕ))
            → HoldsAll count pieces cuts lines ports.items underlay → UnlessPart result (Holds count pieces cuts) }
        ensures reads { PartOpens part lines ports.items underlay result }
    {
        let coming = Coming::Nothing;
        let mut opened = Part {
            lines,
            captures: Captures { ports, underlay },
            coming,
            begins: None,
        };
        match opened.next(part) {
            Ok(()) => Ok(opened),
            Err(fault) => Err((fault, opened.lines)),
        }
    }

    /// How many captures of ports it has.
    pub(crate) fn count(&self) -> usize
        ensures { result ≡ length self.now.ports }
    {
        self.captures.ports.len()
    }

    /// What the next line is of.
    pub(crate) fn coming(&self) -> Coming
        ensures { result ≡ self.now.coming }
    {
        self.coming
    }

    /// The next line.
    pub(crate) fn line(&self) -> &[u8]
        ensures line { result.now ≡ self.now.reader.line }
        ensures is_of { IsOf self.now.coming self.now.reader.line }
    {
        self.lines.line()
    }

    /// Whether to go on to the next line takes a read that may wait.
    fn may_wait_for_line(&self, may_wait: bool) -> bool
        ensures unless { result ≡ false → may_wait ≡ true → holds_line self.now.reader ≡ true }
        ensures only { result ≡ true → (may_wait ≡ true) × (holds_line self.now.reader ≡ false) }
    {
        if !may_wait {
            return false;
        }
        !self.lines.holds_next()
    }

    /// Goes on to the next line. Where it can't be read, none comes.
    fn next(&mut self, part: usize) -> Result<(), MergeFault>
        ensures ports { self.new.ports ≡ self.old.ports }
        ensures underlay { self.new.underlay ≡ self.old.underlay }
        ensures next { (count : ℕ) (pieces : List Piece) (cuts : List (List ℕ)) → StandBehind count pieces cuts self.old
            → UnlessDevice result (ComesNext pieces cuts self.new) }
        ensures behind_cut { OnOk result (is_cut self.old.coming ≡ true → IsNone self.new.coming) }
        ensures reads { LinesRead part self.old.reader self.new.reader result }
        ensures lacked { MatchRead result (λ _. holds_line self.old.reader ≡ false) ⊤ }
        ensures no_write { BlamesNoWrite result }
    {
        let was_cut = is_cut(self.coming);
        self.coming = Coming::Nothing;
        self.begins = None;
        if let Err(fault) = self.lines.fetch() {
            return Err(stopped_by(part, fault));
        }
        match coming_of(part, was_cut, self.lines.line()) {
            Ok(told) => {
                self.coming = told.coming;
                self.begins = told.begins;
                Ok(())
            }
            Err(fault) => Err(fault),
        }
    }

    /// Copies the records that the next line tells. Where its result is known to begin somewhere it isn't read again.
    fn copy_records<W: Output>(
        &mut self,
        part: usize,
        port_sinks: &mut [Sink<W>],
        underlay_sink: &mut Sink<W>,
        decisions: &mut W,
        may_wait: bool,
    ) -> Result<(), MergeFault>
        requires { length port_sinks.old ≡ length self.old.ports }
        ensures reader { self.new.reader ≡ self.old.reader }
        ensures coming { self.new.coming ≡ self.old.coming }
        ensures ports { length self.new.ports ≡ length self.old.ports }
        ensures copied { (number : ℕ) (records : List (ATap × List ℕ)) (rest : ATap → List ℕ)
            → facts_of self.old.reader.line ≡ Ok (Event number (taps records)) → AreRecords (length self.old.ports) records
            → AreLeft (λ t. records_at t records ++ rest t) self.old.ports self.old.underlay
            → Moves rest (λ t. records_at t records) self.new.ports self.new.underlay port_sinks.old underlay_sink.old
            port_sinks.new underlay_sink.new result }
        ensures kept { OnOk result (Keeps (W.written decisions.old) (W.written decisions.new)) }
        ensures reads { PartReads part self.old self.new result }
        ensures writes { WritesWith port_sinks.old underlay_sink.old (W.failures decisions.old) port_sinks.new underlay_sink.new
            (W.failures decisions.new) result }
        ensures waits { IsOutAtRead may_wait port_sinks.new underlay_sink.new (W.held decisions.new) result }
    {
        let line = self.lines.line();
        let places = match self.begins {
            Some(at) => Places::behind(line, at),
            None => match read_line(line) {
                Ok(LineFacts::Event(_, places)) => places,
                Ok(LineFacts::Cut) => return Ok(()),
                Err(fault) => return Err(MergeFault::Part(part, PartFault::Line(fault))),
            },
        };
        copy_all(
            part,
            places,
            &mut self.captures,
            port_sinks,
            underlay_sink,
            decisions,
            may_wait,
        )
    }

    /// Puts the records and the line of the event that comes next to the outputs, and goes on to the next line. Before each read
    /// that may wait all that the outputs hold back is handed on.
    pub(crate) fn put_event<W: Output>(
        &mut self,
        part: usize,
        port_sinks: &mut [Sink<W>],
        underlay_sink: &mut Sink<W>,
        decisions: &mut W,
        may_wait: bool,
    ) -> Result<(), MergeFault>
        requires { length port_sinks.old ≡ length self.old.ports }
        ensures ports { length self.new.ports ≡ length self.old.ports }
        ensures event { (count : ℕ) (p : Piece) (ps : List Piece) (cuts : List (List ℕ)) → Holds count (p ∷ ps) cuts self.old
            → UnlessDevice result (Holds count ps cuts self.new
            × AreAdded (λ t. records_at t p.records) port_sinks.old underlay_sink.old port_sinks.new underlay_sink.new
            × Appends (W.written decisions.old) (W.written decisions.new) p.line) }
        ensures put { OnOk result (AddsLine self.old.coming (W.written decisions.old) (W.written decisions.new)) }
        ensures reads { PartReads part self.old self.new result }
        ensures writes { WritesWith port_sinks.old underlay_sink.old (W.failures decisions.old) port_sinks.new underlay_sink.new
            (W.failures decisions.new) result }
        ensures waits { IsOutAtRead may_wait port_sinks.new underlay_sink.new (W.held decisions.new) result }
    {
        if let Err(fault) = self.copy_records(
            part,
            port_sinks,
            underlay_sink,
            decisions,
            may_wait,
        ) {
            return Err(fault);
        }
        let waits = self.may_wait_for_line(may_wait);
        if let Err(fault) = hand_on_captures_before(waits, port_sinks, underlay_sink) {
            return Err(fault);
        }
        self.put_next_line(part, decisions, may_wait)
    }

    /// Puts the next line to the decisions, and goes on to the one behind it. Where that takes a read which may wait, the lines
    /// that are held back are handed on before.
    fn put_next_line<W: Output>(
        &mut self,
        part: usize,
        decisions: &mut W,
        may_wait: bool,
    ) -> Result<(), MergeFault>
        ensures ports { self.new.ports ≡ self.old.ports }
        ensures underlay { self.new.underlay ≡ self.old.underlay }
        ensures line { (count : ℕ) (pieces : List Piece) (cuts : List (List ℕ)) → StandBehind count pieces cuts self.old
            → UnlessDevice result (ComesNext pieces cuts self.new
            × Appends (W.written decisions.old) (W.written decisions.new) self.old.reader.line) }
        ensures put { OnOk result (AddsLine self.old.coming (W.written decisions.old) (W.written decisions.new)) }
        ensures behind_cut { OnOk result (is_cut self.old.coming ≡ true → IsNone self.new.coming) }
        ensures reads { PartReads part self.old self.new result }
        ensures writes { LinesWrite (W.failures decisions.old) (W.failures decisions.new) result }
        ensures lacked { MatchRead result (λ _. holds_line self.old.reader ≡ false) ⊤ }
        ensures waits { AreOutAtRead may_wait (W.held decisions.new) result }
    {
        if let Err(fault) = put_line(decisions, self.line()) {
            return Err(fault);
        }
        let waits = self.may_wait_for_line(may_wait);
        if let Err(fault) = hand_on_lines_before(waits, decisions) {
            return Err(fault);
        }
        self.next(part)
    }

    /// Puts the lines of the cut captures that come next to the decisions. Before each read that may wait they are handed on.
    fn put_cuts<W: Output>(
        &mut self,
        part: usize,
        decisions: &mut W,
        may_wait: bool,
    ) -> Result<(), MergeFault>
        ensures ports { length self.new.ports ≡ length self.old.ports }
        ensures cuts { (count : ℕ) (cuts : List (List ℕ)) → Holds count [] cuts self.old
            → UnlessDevice result (Holds count [] [] self.new
            × Appends (W.written decisions.old) (W.written decisions.new) (concat cuts)) }
        ensures put { OnOk result (AddsCuts (W.written decisions.old) (W.written decisions.new)) }
        ensures over { OnOk result (IsNone self.old.coming → self.new.coming ≡ Nothing) }
        ensures reads { PartReads part self.old self.new result }
        ensures writes { LinesWrite (W.failures decisions.old) (W.failures decisions.new) result }
        ensures waits { AreOutAtRead may_wait (W.held decisions.new) result }
    {
        for _count in 0..MOST_CUTS + 1 {
            if is_over(self.coming()) {
                return Ok(());
            }
            if let Err(fault) = self.put_next_line(part, decisions, may_wait) {
                return Err(fault);
            }
        }
        Err(MergeFault::Part(part, PartFault::Cuts))
    }

    /// Puts the lines of its cut captures to the decisions, and sees that nothing is left in its captures. Before each read that
    /// may wait the lines are handed on.
    pub(crate) fn finish<W: Output>(
        &mut self,
        part: usize,
        decisions: &mut W,
        may_wait: bool,
    ) -> Result<(), MergeFault>
        requires { length self.old.ports ≤ 255 }
        ensures cuts { (count : ℕ) (cuts : List (List ℕ)) → Holds count [] cuts self.old
            → UnlessDevice result (Appends (W.written decisions.old) (W.written decisions.new) (concat cuts)) }
        ensures put { OnOk result (AddsCuts (W.written decisions.old) (W.written decisions.new)) }
        ensures over { OnOk result (IsNone self.old.coming → self.new.coming ≡ Nothing) }
        ensures reads { PartReads part self.old self.new result }
        ensures writes { LinesWrite (W.failures decisions.old) (W.failures decisions.new) result }
        ensures waits { AreOutAtRead may_wait (W.held decisions.new) result }
    {
        if let Err(fault) = self.put_cuts(part, decisions, may_wait) {
            return Err(fault);
        }
        if let Err(fault) = hand_on_lines_before(may_wait, decisions) {
            return Err(fault);
        }
        self.end(part)
    }

    /// Sees that nothing is left in the captures.
    fn end(&mut self, part: usize) -> Result<(), MergeFault>
        requires { length self.old.ports ≤ 255 }
        ensures coming { self.new.coming ≡ self.old.coming }
        ensures ended { (count : ℕ) → Holds count [] [] self.old → UnlessDevice result (Unit {0}) }
        ensures reads { PartReads part self.old self.new result }
        ensures no_write { BlamesNoWrite result }
    {
        end_captures(
            part,
            self.captures.ports.as_mut_slice(),
            &mut self.captures.underlay,
        )
    }
}
