//! Summaries.
ghost use Rattle.std.specs.Prelude.{◌≡◌, ◌<◌, ◌≤◌, ℕ, IfErr, IfOk, MatchOption, OnOk, false, length, slice_index_or, true};
ghost use Rattle.run_counts.specs.Told.{IsTold, SaysSame, Told, nothing, text_of, together};
ghost use Rattle.run_counts.specs.Kept.{index_of, is_kept, is_row, row_of, told_in};
ghost use Rattle.run_counts.specs.Rows.{rows_of, told_by, with_row};
ghost use Rattle.run_counts.specs.declared.parts.fault.ReportFault.TheVariants.{OutOfMemory};

use crate::parts::adding::{add_all, set_count};
use crate::parts::fault::ReportFault;
use crate::parts::row::{Row, row_in};
use crate::{
    Counted, Flows, Refusals, none_refused, put_changes, put_cuts, put_partial, put_places,
    put_segments,
};
use line_words::{first_difference, next_line};
use std::alloc::{AllocError, Global};
use std::marker::Model;
use timeline::Tap;
use wire::ether::Vid;

/// The numbers of a segment: 0 for what was sent, and 1 to 40 for the reasons.
const NUMBERS: usize = 41;

/// The counts of none, and of each VID from 1 to 4094.
const COUNTS: usize = 4095 * NUMBERS;

/// What a run or a part of it counted, as its summary tells it; seen by contracts as its counts. It takes 1.4 MB.
#[derive(Drop)]
pub struct Summary {
    /// Of none first, and then of each VID, each by their numbers.
    counts: Vec<u64>,
    refused: Refusals,
    came: Flows,
    left: Flows,
    partial: u64,
    /// The cut captures, in the order of their lines.
    cut: Vec<Tap>,
}

impl Model for Summary {
    ghost use Rattle.std.specs.Prelude.{◌≡◌, length};
    ghost use Rattle.run_counts.specs.Kept.{Kept};

    ghost Value = { Kept };

    ghost view = { λ s.
        record { counts = s.counts.items; refused = s.refused; came = s.came; left = s.left; partial = s.partial; cut = s.cut.items } };

    ghost invariant = { λ s. (length s.counts.items ≡ 167895) × (length s.refused ≡ 15) };
}

impl Summary {
    /// Reads the summary of a run on so many ports, which is read back wherever a run told it: the counts are those that the
    /// text tells. `Line`: no run tells this text, and this is the first line that isn't as the summary of those counts has
    /// it that the lines tell. `OutOfMemory`: memory was refused.
    pub fn read(alloc: Global, text: &[u8], ports: u8) -> Result<Summary, ReportFault>
        ensures text { IfOk result (λ summary. text.now ≡ text_of ports (told_in summary)) }
        ensures same { (t : Told) → IsTold ports t → text.now ≡ text_of ports t
            → IfOk result (λ summary. SaysSame ports (told_in summary) t) }
        ensures read { (t : Told) → IsTold ports t → text.now ≡ text_of ports t → IfErr result (λ fault. fault ≡ OutOfMemory) }
    {
        let summary = Summary::of_lines(alloc, text)?;
        let written = summary.to_text(alloc, ports)?;
        if written.as_slice() == text {
            Ok(summary)
        } else {
            Err(ReportFault::Line(first_difference(text, written.as_slice())))
        }
    }

    /// What the lines of a text tell; lines that tell nothing are passed over.
    fn of_lines(alloc: Global, text: &[u8]) -> Result<Summary, AllocError>
        ensures { IfOk result (λ summary. told_in summary ≡ told_by nothing (rows_of text.now)) }
    {
        let mut summary = Summary::none(alloc)?;
        let mut rest = text;
        while let Some((line, behind)) = next_line(rest) {
            if let Some(row) = row_in(line) {
                summary.set(row)?;
            }
            rest = behind;
        }
        Ok(summary)
    }

    /// Nothing was counted.
    pub fn none(alloc: Global) -> Result<Summary, AllocError>
        ensures { IfOk result (λ summary. told_in summary ≡ nothing) }
    {
        Ok(Summary {
            counts: no_counts(alloc)?,
            refused: none_refused(),
            came: Flows::none(),
            left: Flows::none(),
            partial: 0,
            cut: Vec::new(alloc),
        })
    }

    /// Takes what a line tells. What there is no count of is passed over. `AllocError`: memory was refused for a cut capture.
    fn set(&mut self, row: Row) -> Result<(), AllocError>
        ensures { OnOk result (told_in self.new ≡ with_row (told_in self.old) row) }
    {
        match row {
            Row::Count(segment, number, count) => {
                if let Some(index) = index_of(segment, number) {
                    self.counts[index] = count;
                }
                Ok(())
            }
            Row::Refused(number, count) => {
                set_count(&mut self.refused, usize::from(number), count);
                Ok(())
            }
            Row::Arrival(tap, flow) => {
                self.came.set(tap, flow);
                Ok(())
            }
            Row::Left(tap, flow) => {
                self.left.set(tap, flow);
                Ok(())
            }
            Row::Partial(count) => {
                self.partial = count;
                Ok(())
            }
            Row::Cut(tap) => {
                self.cut.push(tap)?;
                Ok(())
            }
        }
    }

    /// Takes the counts of another part. Each ends at 2^64 - 1. The other's cut captures stand behind those that are here.
    /// `AllocError`: memory was refused, and all but the cut captures is taken.
    pub fn add(&mut self, other: &Summary) -> Result<(), AllocError>
        ensures { OnOk result (told_in self.new ≡ together (told_in self.old) (told_in other.now)) }
    {
        add_all(self.counts.as_mut_slice(), other.counts.as_slice());
        add_all(&mut self.refused, &other.refused);
        self.came.add_all(&other.came);
        self.left.add_all(&other.left);
        self.partial = self.partial.saturating_add(other.partial);
        self.cut.extend_from_slice(other.cut.as_slice())
    }

    /// The text on so many ports, as a run prints it.
    pub fn to_text(&self, alloc: Global, ports: u8) -> Result<Vec<u8>, AllocError>
        ensures { IfOk result (λ text. text.items ≡ text_of ports (told_in self.now)) }
    {
        let mut text = String::new(alloc);
        put_segments(&mut text, self)?;
        put_changes(&mut text, &self.refused)?;
        put_places(&mut text, &self.came, &self.left, ports)?;
        put_partial(&mut text, self.partial)?;
        put_cuts(&mut text, &self.came, self.cut.as_slice())?;
        Ok(text.into_bytes())
    }
}

impl Counted for Summary {
    ghost use Rattle.run_counts.specs.Kept.{count_in};

    ghost counts = { λ s. count_in s.counts };

    fn count(&self, segment: Option<Vid>, number: u8) -> u64 {
        match index_of(segment, number) {
            Some(index) => self.counts[index],
            None => 0,
        }
    }
}

/// Where a count of a segment stands, or of none.
fn index_of(segment: Option<Vid>, number: u8) -> Option<usize>
    ensures { MatchOption result (is_kept segment number ≡ false)
        (λ index. (is_kept segment number ≡ true) × (index ≡ index_of segment number) × (index < 167895)) }
{
    let number = usize::from(number);
    if number < NUMBERS {
        Some(row_of(segment) * NUMBERS + number)
    } else {
        None
    }
}

/// The row of a segment, which is its VID, or that of none.
fn row_of(segment: Option<Vid>) -> usize
    ensures value { result ≡ row_of segment }
    ensures in_range { result ≤ 4094 }
    ensures there { is_row segment ≡ true }
{
    match segment {
        None => 0,
        Some(vid) => usize::from(vid.get()),
    }
}

/// None of each segment.
fn no_counts(alloc: Global) -> Result<Vec<u64>, AllocError>
    ensures zeros { IfOk result (λ counts. (i : ℕ) → slice_index_or counts.items i 0 ≡ 0) }
    ensures long { IfOk result (λ counts. length counts.items ≡ 167895) }
{
    let counts = vec![in alloc; 0; COUNTS]?;
    Ok(counts)
}
