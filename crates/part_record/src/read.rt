//! The record of a text.
ghost use Rattle.std.specs.Prelude.{◌≡◌, ◌≢◌, ◌<◌, ◌^◌, Bool, List, ℕ, ◌++◌, Some, codes, is_some};
ghost use Rattle.std.specs.Prelude.{true, length, IfOk, IfErr, IfNone, IfSome, OnErr, MatchOption};
ghost use Rattle.part_record.specs.Fault.{IsFaultIn, IsNoCapture};
ghost use Rattle.part_record.specs.Outputs.{AreOutputs};
ghost use Rattle.part_record.specs.Record.{Facts, IsOneLine, IsRecord, IsTime, record_text, both_line, changes_line};
ghost use Rattle.part_record.specs.Record.{facts_of, facts_text, first_line, segments_line, sum_line, text_of};
ghost use Rattle.part_record.specs.Sum.{IsSum};
ghost use Rattle.part_record.specs.Texts.{AreTexts};
ghost use Rattle.part_record.specs.declared.outputs.OutputFacts.{OutputFacts as AnOutput};
ghost use Rattle.part_record.specs.declared.texts.ToldTexts.{ToldTexts as SomeTexts};

use crate::facts::PartRecord;
use crate::fault::PartRecordFault;
use crate::outputs::{ToldOutputs, outputs_of};
use crate::steps::{behind, first_line, number_behind, ports_of, sum_behind};
use crate::texts::{ToldTexts, texts_of};

/// A record, and what it tells of the part's files.
pub type ToldRecord<'a> = (PartRecord<'a>, ToldOutputs, ToldTexts);

/// The record of a text, exactly as [`text_of`](crate::text_of) and [`put_texts`](crate::put_texts) write it, what is told of the
/// outputs, of two more than the record has ports, and of the texts that the part left. Its segments are a part of the text, and not
/// looked into.
pub fn record_of(text: &str) -> Result<ToldRecord<'_>, PartRecordFault>
    ensures read { IfOk result (λ r. IsRecord (facts_of r.0) × AreOutputs (length r.0.ports.items) r.1.items × AreTexts r.2
        × (text.now ≡ record_text (facts_of r.0) r.1.items r.2)) }
    ensures none { OnErr result ((f : Facts) (outputs : List AnOutput) (texts : SomeTexts) → IsRecord f
        → AreOutputs (length f.ports) outputs → AreTexts texts → text.now ≢ record_text f outputs texts) }
    ensures fault { IfErr result (λ fault. IsFaultIn text.now fault) }
{
    let (record, outputs, left) = match made_of(text) {
        Ok(made) => made,
        Err(fault) => return Err(fault),
    };
    let (texts, rest) = texts_of(left);
    if !rest.is_empty() {
        return Err(PartRecordFault::Behind);
    }
    Ok((record, outputs, texts))
}

/// The record of a text, what is told of the outputs, and what stands behind their lines.
fn made_of(text: &str) -> Result<(PartRecord<'_>, ToldOutputs, &str), PartRecordFault>
    ensures read { IfOk result (λ r. IsRecord (facts_of r.0) × AreOutputs (length r.0.ports.items) r.1.items
        × (text.now ≡ text_of (facts_of r.0) r.1.items ++ r.2.now)) }
    ensures none { OnErr result ((f : Facts) (outputs : List AnOutput) (rest : List ℕ) → IsRecord f
        → AreOutputs (length f.ports) outputs → text.now ≢ text_of f outputs ++ rest) }
    ensures fault { IfErr result (λ fault. IsFaultIn text.now fault) }
{
    let (record, told) = match facts_behind(text) {
        Ok(read) => read,
        Err(fault) => return Err(fault),
    };
    let count = record.ports.len() + 2;
    let (outputs, rest) = outputs_of(told, count);
    if outputs.len() < count {
        return Err(PartRecordFault::Output);
    }
    Ok((record, outputs, rest))
}

/// The facts that a text begins with, and what stands behind their lines.
fn facts_behind(text: &str) -> Result<(PartRecord<'_>, &str), PartRecordFault>
    ensures read { IfOk result (λ r. IsRecord (facts_of r.0) × (text.now ≡ facts_text (facts_of r.0) ++ r.1.now)) }
    ensures none { OnErr result ((f : Facts) (rest : List ℕ) → IsRecord f → text.now ≢ facts_text f ++ rest) }
    ensures fault { IfErr result (λ fault. IsFaultIn text.now fault) }
{
    let Some((has_both, listed)) = head_of(text) else {
        return Err(no_head(text));
    };
    let Some((segments, set)) = segments_of(listed) else {
        return Err(PartRecordFault::Segments);
    };
    let Some(found) = sum_behind(set, "settings ") else {
        return Err(PartRecordFault::Settings);
    };
    let settings = found.0;
    let changed = found.1;
    let (changes, captured) = changes_of(changed);
    let (ports, under) = ports_of(captured);
    let Some(last) = sum_behind(under, "capture u ") else {
        return Err(no_capture(under));
    };
    let underlay = last.0;
    let counted = last.1;
    let Some((both, timed)) = both_of(counted, has_both) else {
        return Err(PartRecordFault::Both);
    };
    let Some((events, rest)) = number_behind(timed, "events ") else {
        return Err(PartRecordFault::Events);
    };
    let record = PartRecord {
        segments,
        settings,
        changes,
        ports,
        underlay,
        both,
        events,
    };
    Ok((record, rest))
}

/// Whether the first line of a text is that of records which tell that captures hold both directions, and what stands behind it.
fn head_of(text: &str) -> Option<(bool, &str)>
    ensures { MatchOption result ((both : Bool) (rest : List ℕ) → text.now ≢ first_line both ++ rest)
        (λ found. text.now ≡ first_line found.0 ++ found.1.now) }
{
    if let Some(rest) = behind(text, "tep shard 4\n") {
        return Some((false, rest));
    }
    match behind(text, "tep shard 5\n") {
        Some(rest) => Some((true, rest)),
        None => None,
    }
}

/// The time on the line of `both`, where there is to be one, and what stands behind it.
fn both_of(text: &str, has_both: bool) -> Option<(Option<u64>, &str)>
    ensures { MatchOption result ((has_both ≡ true)
        × ((within : ℕ) (rest : List ℕ) → within < 2 ^ 64 → text.now ≢ both_line (Some within) ++ rest))
        (λ found. (is_some found.0 ≡ has_both) × IsTime found.0 × (text.now ≡ both_line found.0 ++ found.1.now)) }
{
    if !has_both {
        return Some((None, text));
    }
    match number_behind(text, "both ") {
        Some(found) => {
            let within = found.0;
            Some((Some(within), found.1))
        }
        None => None,
    }
}

/// The fault of a text whose first line isn't a record's.
fn no_head(text: &str) -> PartRecordFault
    requires { (both : Bool) (rest : List ℕ) → text.now ≢ first_line both ++ rest }
    ensures { IsFaultIn text.now result }
{
    if let Some(_rest) = behind(text, "tep shard 1\n") {
        return PartRecordFault::Older;
    }
    if let Some(_rest) = behind(text, "tep shard 2\n") {
        return PartRecordFault::Older;
    }
    if let Some(_rest) = behind(text, "tep shard 3\n") {
        return PartRecordFault::Older;
    }
    PartRecordFault::Head
}

/// The segments on their line, and what stands behind it.
fn segments_of(text: &str) -> Option<(&str, &str)>
    ensures { MatchOption result ((segments rest : List ℕ) → IsOneLine segments → text.now ≢ segments_line segments ++ rest)
        (λ found. IsOneLine found.0.now × (text.now ≡ segments_line found.0.now ++ found.1.now)) }
{
    let told = behind(text, "segments ")?;
    first_line(told)
}

/// The digest of the changes, where a line of them stands there, and what stands behind it.
fn changes_of(text: &str) -> (Option<[u8; 32]>, &str)
    ensures read { text.now ≡ changes_line result.0 ++ result.1.now }
    ensures sum { IfSome result.0 IsSum }
    ensures none { IfNone result.0 ((sum rest : List ℕ) → IsSum sum → text.now ≢ sum_line (codes "changes ") sum ++ rest) }
{
    match sum_behind(text, "changes ") {
        Some(found) => {
            let sum = found.0;
            (Some(sum), found.1)
        }
        None => (None, text),
    }
}

/// The fault of a text in which the underlay's capture should stand and doesn't.
fn no_capture(text: &str) -> PartRecordFault
    ensures { IsNoCapture text.now result }
{
    match behind(text, "changes ") {
        Some(_) => PartRecordFault::Changes,
        None => PartRecordFault::Capture,
    }
}
