//! Command lines of every kind.
use clap::error::ErrorKind;
use command_line::{CaptureName, LineFault, capture_name, line_of};
use std::alloc::Global;
use std::test::Fail;

/// The line that the words ask for, field by field.
fn told<'a>(alloc: Global, words: &'a [&'a str]) -> Result<String, Fail> {
    let line = line_of(alloc, words)?;
    let fields = format!(in alloc; "{line:?}")?;
    Ok(fields)
}

/// Words, and the line that they ask for.
const LINES: [(&[&str], &str); 14] = [
    (&["tep"], "Sample"),
    (
        &[
            "tep",
            "run",
            "--settings",
            "s",
            "--underlay=u",
            "--out",
            "d",
            "p1",
            "p2",
        ],
        "Run { settings: \"s\", changes: None, underlay: \"u\", out: Some(\"d\"), ports: [\"p1\", \"p2\"], tables: false, \
        tables_at: None, why: [], summary: false, talkers: false, segments: None, digests: None, both: false, \
        within: None, list: None, json: false, quiet: false, pcapng: None }",
    ),
    (
        &["tep", "run", "-s=s", "-u=u", "--summary", "p1"],
        "Run { settings: \"s\", changes: None, underlay: \"u\", out: None, ports: [\"p1\"], tables: false, tables_at: None, \
        why: [], summary: true, talkers: false, segments: None, digests: None, both: false, \
        within: None, list: None, json: false, quiet: false, pcapng: None }",
    ),
    (
        &["tep", "check", "--changes", "c", "--settings", "s"],
        "Check { settings: \"s\", changes: Some(\"c\"), underlay: None, ports: [], json: false }",
    ),
    (
        &["tep", "explain", "--settings", "s", "c"],
        "Explain { settings: \"s\", depth: 4, values: false, capture: \"c\", json: false }",
    ),
    (
        &[
            "tep",
            "explain",
            "--depth",
            "2",
            "c",
            "--settings=s",
            "--values",
        ],
        "Explain { settings: \"s\", depth: 2, values: true, capture: \"c\", json: false }",
    ),
    (
        &[
            "tep",
            "run",
            "-s",
            "s",
            "-c",
            "c",
            "-uu",
            "-o=d",
            "-",
            "p2",
            "--tables",
            "--tables-at",
            "7",
            "--why=2",
            "--why",
            "u:1",
            "--summary",
            "--segments=1-9,none",
            "--digests=d",
        ],
        "Run { settings: \"s\", changes: Some(\"c\"), underlay: \"u\", out: Some(\"d\"), ports: [\"-\", \"p2\"], tables: true, \
        tables_at: Some(7), why: [\"2\", \"u:1\"], summary: true, talkers: false, segments: Some(\"1-9,none\"), \
        digests: Some(\"d\"), both: false, within: None, list: None, json: false, quiet: false, pcapng: None }",
    ),
    (
        &["tep", "check", "-s", "-", "-c", "-", "-u", "u", "p1", "-"],
        "Check { settings: \"-\", changes: Some(\"-\"), underlay: Some(\"u\"), ports: [\"p1\", \"-\"], json: false }",
    ),
    (
        &["tep", "explain", "-d", "1", "-", "-s", "s"],
        "Explain { settings: \"s\", depth: 1, values: false, capture: \"-\", json: false }",
    ),
    (
        &["tep", "report", "d", "--out", "p"],
        "Report { folder: \"d\", page: \"p\" }",
    ),
    (
        &["tep", "migrate", "-s", "s"],
        "Migrate { settings: \"s\" }",
    ),
    (
        &["tep", "merge", "a", "-o", "d", "b"],
        "Merge { out: \"d\", parts: [\"a\", \"b\"], tables: false, summary: false, json: false }",
    ),
    (
        &[
            "tep",
            "merge",
            "-od",
            "a",
            "--summary",
            "--tables",
            "--json",
        ],
        "Merge { out: \"d\", parts: [\"a\"], tables: true, summary: true, json: true }",
    ),
    (
        &["tep", "digest", "-uu", "p1", "-"],
        "Digest { underlay: \"u\", ports: [\"p1\", \"-\"] }",
    ),
];

/// Whether the words ask for that line.
fn asks_for<'a>(alloc: Global, words: &'a [&'a str], wanted: &str) -> Result<bool, Fail> {
    Ok(told(alloc, words)?.as_str() == wanted)
}

#[test]
fn words_ask_for_these_lines(rt: HostRuntime) -> Result<(), Fail> {
    for (words, wanted) in &LINES {
        let asks = asks_for(rt.alloc(), words, wanted)?;
        assert!(rt; asks, "the words of {wanted}");
    }
    Ok(())
}

/// Why `clap` refuses the words.
fn kind<'a>(alloc: Global, words: &'a [&'a str]) -> Option<ErrorKind> {
    match line_of(alloc, words) {
        Err(LineFault::Refused(error)) => Some(error.kind()),
        _ => None,
    }
}

/// Words, and why they are refused.
const OTHER_WORDS: [(&[&str], ErrorKind); 15] = [
    (&["tep", "nothing"], ErrorKind::InvalidSubcommand),
    (&["tep", "run"], ErrorKind::MissingRequiredArgument),
    (
        &["tep", "run", "-s=s", "-u=u", "p1"],
        ErrorKind::MissingRequiredArgument,
    ),
    (
        &["tep", "explain", "--depth=5", "--settings=s", "c"],
        ErrorKind::ValueValidation,
    ),
    (&["tep", "check", "--depth"], ErrorKind::UnknownArgument),
    (&["tep", "migrate"], ErrorKind::MissingRequiredArgument),
    (
        &["tep", "merge", "-o=d"],
        ErrorKind::MissingRequiredArgument,
    ),
    (&["tep", "--help"], ErrorKind::DisplayHelp),
    (&["tep", "help", "run"], ErrorKind::DisplayHelp),
    (&["tep", "--version"], ErrorKind::DisplayVersion),
    (&["tep", "-V"], ErrorKind::DisplayVersion),
    (&["tep", "run", "--version"], ErrorKind::DisplayVersion),
    (&["tep", "check", "--version"], ErrorKind::DisplayVersion),
    (&["tep", "explain", "--version"], ErrorKind::DisplayVersion),
    (&["tep", "migrate", "--version"], ErrorKind::DisplayVersion),
];

#[test]
fn other_words_are_refused_for_their_kind(rt: HostRuntime) {
    for (words, wanted) in &OTHER_WORDS {
        let is_refused = kind(rt.alloc(), words) == Some(*wanted);
        assert!(rt; is_refused, "the words {words:?}");
    }
}

/// Words with an empty name.
const EMPTY_NAMES: [&[&str]; 9] = [
    &["tep", "check", "--settings", ""],
    &["tep", "check", "--settings=s", "--changes="],
    &["tep", "run", "-s=s", "-u=", "-o=d", "p1"],
    &["tep", "run", "-s=s", "-u=u", "-o=", "p1"],
    &["tep", "run", "-s=s", "-u=u", "-o=d", "p1", ""],
    &["tep", "explain", "-s=s", ""],
    &["tep", "run", "-s=s", "-u=u", "-o=d", "--segments=", "p1"],
    &["tep", "digest", "-u=u", ""],
    &["tep", "merge", "-o=d", "a", ""],
];

#[test]
fn an_empty_name_is_refused(rt: HostRuntime) {
    for words in &EMPTY_NAMES {
        let is_refused = kind(rt.alloc(), words) == Some(ErrorKind::InvalidValue);
        assert!(rt; is_refused, "the words {words:?}");
    }
}

/// Words that name standard input twice.
const INPUT_TWICE: [&[&str]; 3] = [
    &["tep", "run", "-s=s", "-u", "-", "-o=d", "-"],
    &["tep", "run", "-s=s", "-u=u", "-o=d", "-", "p2", "-"],
    &["tep", "run", "-s=s", "-u=-#eth1", "-o=d", "-"],
];

/// Whether words name standard input twice.
fn name_input_twice<'a>(alloc: Global, words: &'a [&'a str]) -> bool {
    matches!(line_of(alloc, words), Err(LineFault::InputTwice))
}

#[test]
fn standard_input_is_one_capture_at_most(rt: HostRuntime) {
    for words in &INPUT_TWICE {
        let is_refused = name_input_twice(rt.alloc(), words);
        assert!(rt; is_refused, "the words {words:?}");
    }
}

/// The names that docs/OPERATING.md takes apart: each with its file and its interface.
const NAMES: [(&str, &str, Option<&str>); 6] = [
    ("all.pcapng", "all.pcapng", None),
    ("all.pcapng#eth1", "all.pcapng", Some("eth1")),
    ("12:30.pcapng#0", "12:30.pcapng", Some("0")),
    ("-#eth1", "-", Some("eth1")),
    ("a#b.pcap#", "a#b.pcap", None),
    ("a#b.pcapng#1", "a#b.pcapng", Some("1")),
];

/// Whether a name is that of this file and this interface.
fn is_named(name: &str, wanted_file: &str, wanted_interface: Option<&str>) -> bool {
    let CaptureName { file, interface } = capture_name(name);
    file == wanted_file && interface == wanted_interface
}

#[test]
fn the_name_of_a_capture_is_a_file_and_an_interface(rt: HostRuntime) {
    for (name, file, interface) in &NAMES {
        assert!(rt; is_named(name, file, *interface), "the name {name}");
    }
}

/// Whether words lend digests to a run that is no part.
fn lend_to_a_whole<'a>(alloc: Global, words: &'a [&'a str]) -> bool {
    matches!(line_of(alloc, words), Err(LineFault::NoSegments))
}

#[test]
fn digests_are_lent_to_parts_alone(rt: HostRuntime) {
    let words = ["tep", "run", "-s=s", "-u=u", "-o=d", "--digests=l", "p1"];
    let is_refused = lend_to_a_whole(rt.alloc(), &words);
    assert!(rt; is_refused, "no --segments");
}
