//! From `clap`'s matches to a line.
ghost use Rattle.std.specs.Prelude.{◌≡◌, ◌≤◌, IfOk, IfErr, IfSome, option_and_then, option_map};
ghost use Rattle.clap.specs.Words.{all_of, first_of, found_of, rows_of, subcommand_rows_of};
ghost use Rattle.clap.specs.Walk.{texts};
ghost use Rattle.command_line.specs.Meaning.{Answers, check_meant, compare_meant, depth_in, digest_meant};
ghost use Rattle.command_line.specs.Meaning.{explain_meant, fabric_meant, leaves_meant, ignores_in, is_set, line_meant, merge_meant};
ghost use Rattle.command_line.specs.Meaning.{migrate_meant, moment_in, report_meant, run_meant, small_depth, split_meant};
ghost use Rattle.command_line.specs.declared.line.LineFault.TheVariants.{OutOfMemory};

use crate::comparing::{Comparing, comparison_line};
use crate::line::{Line, LineFault};
use clap::ArgMatches;
use std::alloc::Global;

/// The line of a whole parse.
pub(crate) fn line_from<'a>(alloc: Global, matches: &ArgMatches<'a>) -> Result<Line<'a>, LineFault>
    ensures { Answers (line_meant (subcommand_rows_of matches.now)) result }
{
    let Some((name, inner)) = matches.subcommand() else {
        return Ok(Line::Sample);
    };
    match name {
        "run" => run_from(alloc, inner),
        "check" => check_from(alloc, inner),
        "explain" => explain_from(inner),
        "migrate" => migrate_from(inner),
        "digest" => digest_from(alloc, inner),
        "merge" => merge_from(alloc, inner),
        "split" => split_from(inner),
        "compare" => compare_from(alloc, inner),
        "report" => report_from(inner),
        "fabric" => fabric_from(alloc, inner),
        _ => Err(LineFault::NoValue),
    }
}

/// The first value of an argument.
fn text<'a>(inner: &ArgMatches<'a>, id: &str) -> Option<&'a str>
    ensures { option_map (λ t. t.now) result ≡ first_of id.now (rows_of (found_of inner.now)) }
{
    inner.get_str(id)
}

/// All values of an argument.
fn values<'m, 'a>(inner: &'m ArgMatches<'a>, id: &str) -> Option<&'m [&'a str]>
    ensures { option_map (λ s. texts s.now) result ≡ all_of id.now (rows_of (found_of inner.entry.now)) }
{
    inner.get_raw(id)
}

/// A list of these values.
fn listed<'a>(alloc: Global, given: &[&'a str]) -> Result<Vec<&'a str>, LineFault>
    ensures ok { IfOk result (λ list. list.items ≡ given.now) }
    ensures fault { IfErr result (λ fault. fault ≡ OutOfMemory) }
{
    match Vec::from_slice(alloc, given) {
        Ok(list) => Ok(list),
        Err(_) => Err(LineFault::OutOfMemory),
    }
}

/// Whether a flag is set.
fn is_set(inner: &ArgMatches<'_>, id: &str) -> bool
    ensures { result ≡ is_set id.now (rows_of (found_of inner.now)) }
{
    match text(inner, id) {
        Some(value) => value == "true",
        None => false,
    }
}

/// Whether frames to the addresses that no bridge forwards are left aside. None: what is to be left aside is nothing that is
/// known.
fn ignores(inner: &ArgMatches<'_>) -> Option<bool>
    ensures { result ≡ ignores_in (rows_of (found_of inner.now)) }
{
    match text(inner, "ignore") {
        Some(value) if value == "reserved" => Some(true),
        Some(_) => None,
        None => Some(false),
    }
}

/// The depth, where it is 1 to 4.
fn depth(inner: &ArgMatches) -> Option<u8>
    ensures range { IfSome result (λ depth. (1 ≤ depth) × (depth ≤ 4)) }
    ensures value { result ≡ depth_in (rows_of (found_of inner.now)) }
{
    small(inner.get_one::<u8>("depth"))
}

fn small(depth: Option<u8>) -> Option<u8>
    ensures value { result ≡ option_and_then small_depth depth }
    ensures range { IfSome result (λ depth. (1 ≤ depth) × (depth ≤ 4)) }
{
    depth.filter(|depth| (1..=4).contains(depth))
}

/// The moment at which tables are told.
fn moment(inner: &ArgMatches) -> Option<u64>
    ensures { result ≡ moment_in (rows_of (found_of inner.now)) }
{
    inner.get_one::<u64>("tables-at")
}

/// The line that asks for a run.
fn run_from<'a>(alloc: Global, inner: &ArgMatches<'a>) -> Result<Line<'a>, LineFault>
    ensures { Answers (run_meant (rows_of (found_of inner.now))) result }
{
    let settings = text(inner, "settings").ok_or(LineFault::NoValue)?;
    let changes = text(inner, "changes");
    let underlay = text(inner, "underlay").ok_or(LineFault::NoValue)?;
    let out = text(inner, "out");
    let given = values(inner, "ports").ok_or(LineFault::NoValue)?;
    let ports = listed(alloc, given)?;
    let asked = values(inner, "why").unwrap_or(&[]);
    let why = listed(alloc, asked)?;
    Ok(Line::Run {
        settings,
        changes,
        underlay,
        out,
        ports,
        tables: is_set(inner, "tables"),
        tables_at: moment(inner),
        why,
        summary: is_set(inner, "summary"),
        talkers: is_set(inner, "talkers"),
        segments: text(inner, "segments"),
        digests: text(inner, "digests"),
        both: is_set(inner, "both"),
        within: text(inner, "within"),
        list: text(inner, "list"),
        json: is_set(inner, "json"),
        quiet: is_set(inner, "quiet"),
        pcapng: text(inner, "pcapng"),
    })
}

/// The line that asks for a look at the texts, and at captures.
fn check_from<'a>(alloc: Global, inner: &ArgMatches<'a>) -> Result<Line<'a>, LineFault>
    ensures { Answers (check_meant (rows_of (found_of inner.now))) result }
{
    let settings = text(inner, "settings").ok_or(LineFault::NoValue)?;
    let changes = text(inner, "changes");
    let underlay = text(inner, "underlay");
    let given = values(inner, "ports").unwrap_or(&[]);
    let ports = listed(alloc, given)?;
    Ok(Line::Check {
        settings,
        changes,
        underlay,
        ports,
        json: is_set(inner, "json"),
    })
}

/// The line that asks for packets taken apart.
fn explain_from<'a>(inner: &ArgMatches<'a>) -> Result<Line<'a>, LineFault>
    ensures { Answers (explain_meant (rows_of (found_of inner.now))) result }
{
    let settings = text(inner, "settings").ok_or(LineFault::NoValue)?;
    let capture = text(inner, "capture").ok_or(LineFault::NoValue)?;
    let depth = depth(inner).ok_or(LineFault::NoValue)?;
    Ok(Line::Explain {
        settings,
        depth,
        values: is_set(inner, "values"),
        capture,
        json: is_set(inner, "json"),
    })
}

/// The line that asks for a settings text of version 2.
fn migrate_from<'a>(inner: &ArgMatches<'a>) -> Result<Line<'a>, LineFault>
    ensures { Answers (migrate_meant (rows_of (found_of inner.now))) result }
{
    let settings = text(inner, "settings").ok_or(LineFault::NoValue)?;
    Ok(Line::Migrate { settings })
}

/// The line that asks for digests of captures.
fn digest_from<'a>(alloc: Global, inner: &ArgMatches<'a>) -> Result<Line<'a>, LineFault>
    ensures { Answers (digest_meant (rows_of (found_of inner.now))) result }
{
    let underlay = text(inner, "underlay").ok_or(LineFault::NoValue)?;
    let given = values(inner, "ports").ok_or(LineFault::NoValue)?;
    let ports = listed(alloc, given)?;
    Ok(Line::Digest { underlay, ports })
}

/// The line that asks for parts made whole.
fn merge_from<'a>(alloc: Global, inner: &ArgMatches<'a>) -> Result<Line<'a>, LineFault>
    ensures { Answers (merge_meant (rows_of (found_of inner.now))) result }
{
    let out = text(inner, "out").ok_or(LineFault::NoValue)?;
    let given = values(inner, "parts").ok_or(LineFault::NoValue)?;
    let parts = listed(alloc, given)?;
    let tables = is_set(inner, "tables");
    let summary = is_set(inner, "summary");
    Ok(Line::Merge {
        out,
        parts,
        tables,
        summary,
        json: is_set(inner, "json"),
    })
}

/// The line that asks for a capture of each interface.
fn split_from<'a>(inner: &ArgMatches<'a>) -> Result<Line<'a>, LineFault>
    ensures { Answers (split_meant (rows_of (found_of inner.now))) result }
{
    let out = text(inner, "out").ok_or(LineFault::NoValue)?;
    let capture = text(inner, "capture").ok_or(LineFault::NoValue)?;
    Ok(Line::Split { out, capture })
}

/// The line that asks for a page.
fn report_from<'a>(inner: &ArgMatches<'a>) -> Result<Line<'a>, LineFault>
    ensures { Answers (report_meant (rows_of (found_of inner.now))) result }
{
    let folder = text(inner, "folder").ok_or(LineFault::NoValue)?;
    let page = text(inner, "out").ok_or(LineFault::NoValue)?;
    Ok(Line::Report { folder, page })
}

/// The line that asks who reaches whom.
fn fabric_from<'a>(alloc: Global, inner: &ArgMatches<'a>) -> Result<Line<'a>, LineFault>
    ensures { Answers (fabric_meant (rows_of (found_of inner.now))) result }
{
    let words = values(inner, "leaves").ok_or(LineFault::NoValue)?;
    fabric_line(alloc, words)
}

/// The line of these words behind `fabric`.
fn fabric_line<'a>(alloc: Global, words: &[&'a str]) -> Result<Line<'a>, LineFault>
    ensures { Answers (leaves_meant (texts words.now)) result }
{
    match words {
        [word, leaf, more @ ..] if *word == "check" => {
            let mut leaves = Vec::new(alloc);
            if leaves.push(*leaf).is_err() || leaves.extend_from_slice(more).is_err() {
                return Err(LineFault::OutOfMemory);
            }
            Ok(Line::Fabric { leaves })
        }
        _ => Err(LineFault::NoCheck),
    }
}

/// The line that asks for a comparison.
fn compare_from<'a>(alloc: Global, inner: &ArgMatches<'a>) -> Result<Line<'a>, LineFault>
    ensures { Answers (compare_meant (rows_of (found_of inner.now))) result }
{
    let captures = values(inner, "captures").ok_or(LineFault::NoValue)?;
    let ignores = ignores(inner).ok_or(LineFault::Ignored)?;
    let asked = Comparing {
        worked: text(inner, "worked"),
        underlay: text(inner, "underlay"),
        within: text(inner, "within"),
        shift: text(inner, "shift"),
        settings: text(inner, "settings"),
        strict: is_set(inner, "strict"),
        lists: is_set(inner, "list"),
        by: text(inner, "by"),
        ignores,
        json: is_set(inner, "json"),
    };
    comparison_line(alloc, asked, captures)
}
