//! What `compare` is asked to do with its captures.
ghost use Rattle.std.specs.Prelude.{None, Some, option_map};
ghost use Rattle.clap.specs.Walk.{texts};
ghost use Rattle.command_line.specs.Meaning.{Answers, captures_meant, pair_meant};
ghost use Rattle.command_line.specs.Meaning.{plain_pair_meant};
ghost use Rattle.command_line.specs.declared.line.LineFault.TheVariants.{OutOfMemory};

use crate::line::{Line, LineFault};
use std::alloc::Global;

/// What `compare` is asked for besides captures.
#[derive(Clone, Copy)]
pub(crate) struct Comparing<'a> {
    /// The folder that a run wrote into.
    pub(crate) worked: Option<&'a str>,
    /// What was captured at the underlay.
    pub(crate) underlay: Option<&'a str>,
    /// How much later a record may be received.
    pub(crate) within: Option<&'a str>,
    /// How far the clock of what was received is ahead.
    pub(crate) shift: Option<&'a str>,
    /// The settings of the run.
    pub(crate) settings: Option<&'a str>,
    /// Whether all octets are compared at the underlay.
    pub(crate) strict: bool,
    /// Whether what is of one alone is listed.
    pub(crate) lists: bool,
    /// What a table is by.
    pub(crate) by: Option<&'a str>,
    /// Whether frames to the addresses that no bridge forwards are left aside.
    pub(crate) ignores: bool,
    /// Whether it is told as JSON.
    pub(crate) json: bool,
}

/// The line that asks for this comparison of these captures.
pub(crate) fn comparison_line<'a>(
    alloc: Global,
    asked: Comparing<'a>,
    captures: &[&'a str],
) -> Result<Line<'a>, LineFault>
    ensures { Answers (captures_meant (option_map (λ t. t.now) asked.entry.worked)
        (option_map (λ t. t.now) asked.entry.underlay) (texts captures.now)
        (option_map (λ t. t.now) asked.entry.within) (option_map (λ t. t.now) asked.entry.shift)
        (option_map (λ t. t.now) asked.entry.settings) asked.entry.strict asked.entry.lists
        (option_map (λ t. t.now) asked.entry.by) asked.entry.ignores asked.entry.json) result }
{
    match (asked.worked, asked.underlay) {
        (None, None) => plain_pair(asked, captures),
        (Some(worked), Some(underlay)) => match Vec::from_slice(alloc, captures) {
            Ok(ports) => Ok(Line::CompareWorked {
                worked,
                underlay,
                ports,
                within: asked.within,
                shift: asked.shift,
                settings: asked.settings,
                strict: asked.strict,
                lists: asked.lists,
                by: asked.by,
                ignores: asked.ignores,
                json: asked.json,
            }),
            Err(_) => Err(LineFault::OutOfMemory),
        },
        _ => Err(LineFault::Unpaired),
    }
}

/// The line that asks for two captures to be compared, with no settings and not strictly.
fn plain_pair<'a>(asked: Comparing<'a>, captures: &[&'a str]) -> Result<Line<'a>, LineFault>
    ensures { Answers (plain_pair_meant (option_map (λ t. t.now) asked.entry.settings) asked.entry.strict
        (texts captures.now) (option_map (λ t. t.now) asked.entry.within) (option_map (λ t. t.now) asked.entry.shift)
        asked.entry.lists (option_map (λ t. t.now) asked.entry.by) asked.entry.ignores asked.entry.json) result }
{
    match (asked.settings, asked.strict) {
        (None, false) => pair(asked, captures),
        _ => Err(LineFault::NoFolder),
    }
}

/// The line that asks for two captures to be compared.
fn pair<'a>(asked: Comparing<'a>, captures: &[&'a str]) -> Result<Line<'a>, LineFault>
    ensures { Answers (pair_meant (texts captures.now) (option_map (λ t. t.now) asked.entry.within)
        (option_map (λ t. t.now) asked.entry.shift) asked.entry.lists (option_map (λ t. t.now) asked.entry.by)
        asked.entry.ignores asked.entry.json) result }
{
    match captures {
        [sent, received] => Ok(Line::Compare {
            sent: *sent,
            received: *received,
            within: asked.within,
            shift: asked.shift,
            lists: asked.lists,
            by: asked.by,
            ignores: asked.ignores,
            json: asked.json,
        }),
        _ => Err(LineFault::Unpaired),
    }
}
