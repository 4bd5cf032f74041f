//! The arguments of the program's commands, as `clap` is told of them.
ghost use Rattle.std.specs.Prelude.{◌≡◌, false};
ghost use Rattle.clap.specs.Words.{rule_of};
ghost use Rattle.command_line.specs.App.{flag_rule, listed_rule, option_rule, placed_rule, rule_for};
ghost use Rattle.command_line.specs.declared.arguments.Argument.TheVariants.{OptionalOut};

use clap::builder::ValueParser;
use clap::{Arg, ArgAction, value_parser};
use std::alloc::Global;

/// What a file is called in help, and a folder.
const FILE: &str = "FILE";

const DIR: &str = "DIR";

/// An argument of a command.
#[derive(Clone, Copy)]
pub enum Argument {
    /// The settings text's file.
    Settings,
    /// The changes text's file.
    Changes,
    /// The underlay's capture.
    Underlay,
    /// The underlay's capture, where it is looked at and may be left out.
    SeenUnderlay,
    /// The folder for what comes out.
    Out,
    /// The folder for what comes out of a run.
    RunOut,
    /// The same, where it may be left out.
    OptionalOut,
    /// The captures of the ports: one or more.
    Ports,
    /// The captures of the ports, where they are looked at and may be left out.
    SeenPorts,
    /// Whether the tables are told as they are at the end.
    Tables,
    /// The moment at which the tables are told.
    TablesAt,
    /// The events that are told in full.
    Why,
    /// Whether the counts are told.
    Summary,
    /// Whether it is told who sent to whom.
    Talkers,
    /// Whether what is printed is told as JSON.
    Json,
    /// Whether the decision lines are told as JSON, too.
    RunJson,
    /// Whether no progress is shown.
    Quiet,
    /// The file of the view of a run.
    Pcapng,
    /// The segments that a part of a run takes.
    Segments,
    /// The digests that are lent to a part of a run.
    Digests,
    /// Whether what the switch itself sent is left out of the captures.
    Both,
    /// How long behind its frame that may come.
    Within,
    /// The file of the list of what is left out.
    List,
    /// The folders of the parts: one or more.
    Parts,
    /// How many tunnels are looked into: 1 to 4.
    Depth,
    /// Whether the values of each head are told.
    Values,
    /// The capture that is explained.
    Capture,
    /// The capture that is split.
    SplitCapture,
    /// The folder that a run wrote into, of which a page is made.
    RunFolder,
    /// The page that is made of it.
    Page,
    /// The captures that are compared: two, or beside what a run wrote one of each port.
    Compared,
    /// The folder that a run wrote into, where that is compared.
    Worked,
    /// What was captured at the underlay, beside what a run wrote.
    WorkedUnderlay,
    /// How much later a record may be received.
    Later,
    /// How far the clock of what was received is ahead.
    Shift,
    /// The settings of a run whose outputs are compared.
    WorkedSettings,
    /// Whether what each sender chooses is compared, too.
    Strict,
    /// Whether what is of one capture alone is listed.
    Lists,
    /// What a table of what is compared is by.
    By,
    /// Which records are left aside.
    Ignore,
    /// The word `check` and the settings texts of many endpoints.
    Leaves,
}

impl Argument {
    /// What `clap` is told of it.
    pub(crate) fn arg<'a>(self, alloc: Global) -> Arg<'a>
        ensures rule { rule_of result ≡ rule_for self }
        ensures local { result.global ≡ false }
    {
        match self {
            Argument::Settings => option(alloc, "settings", FILE, "The settings text")
                .short('s')
                .required(true),
            Argument::Changes => option(
                alloc,
                "changes",
                FILE,
                "The changes text; without it nothing changes",
            )
            .short('c'),
            Argument::Underlay => option(
                alloc,
                "underlay",
                FILE,
                "The capture of the underlay; '-' is standard input",
            )
            .short('u')
            .required(true),
            Argument::SeenUnderlay => option(
                alloc,
                "underlay",
                FILE,
                "A capture of the underlay to look at; '-' is standard input",
            )
            .short('u'),
            Argument::Out => option(
                alloc,
                "out",
                DIR,
                "The folder that outputs are written into, which must exist",
            )
            .short('o')
            .required(true),
            Argument::RunOut => run_out(alloc).required(true),
            Argument::OptionalOut => run_out(alloc),
            Argument::Ports => listed(
                alloc,
                "ports",
                FILE,
                "The captures of the local ports, port 1 first; '-' is standard input",
            )
            .required(true),
            Argument::SeenPorts => listed(
                alloc,
                "ports",
                FILE,
                "Captures of the local ports to look at, port 1 first; '-' is standard input",
            ),
            Argument::Tables => flag(
                alloc,
                "tables",
                "Prints the live entries of all tables at the last event",
            ),
            Argument::TablesAt => option(
                alloc,
                "tables-at",
                "MOMENT",
                "Prints those at this moment, in nanoseconds",
            )
            .value_parser(ValueParser::unsigned(0, u64::MAX)),
            Argument::Why => option(
                alloc,
                "why",
                "EVENT",
                "Prints why an event came out as it did: 7, p2:7, u:13, c:1, drop:30, drop:any, mac:M; repeatable",
            )
            .action(ArgAction::Append),
            Argument::Summary => flag(
                alloc,
                "summary",
                "Prints what was sent and dropped, by segment, place and reason",
            ),
            Argument::Talkers => flag(
                alloc,
                "talkers",
                "Prints who sent to whom in each segment, by address and place",
            ),
            Argument::Json => flag(alloc, "json", "Prints it as JSON, one object a line"),
            Argument::RunJson => flag(
                alloc,
                "json",
                "Writes decisions.jsonl, too, and prints what is printed as JSON: one object a line",
            ),
            Argument::Quiet => flag(
                alloc,
                "quiet",
                "Shows no progress where standard error is a terminal",
            ),
            Argument::Pcapng => option(
                alloc,
                "pcapng",
                FILE,
                "Writes what came and what left, each with its decision, into one capture; '-' is standard output",
            ),
            Argument::Segments => option(
                alloc,
                "segments",
                "LIST",
                "Runs these segments alone, a part of the run: 10,20-29,none; none is what comes to no segment",
            ),
            Argument::Digests => option(
                alloc,
                "digests",
                FILE,
                "The digests of the captures, as 'tep digest' prints them, for a part of a run",
            ),
            Argument::Both => flag(
                alloc,
                "both",
                "Leaves out what the switch itself sent, where captures have both directions",
            ),
            Argument::Within => option(
                alloc,
                "within",
                "TIME",
                "How long behind its frame that may come, with --both: 500us, 2ms, 1s; 10ms without it",
            ),
            Argument::List => option(
                alloc,
                "list",
                FILE,
                "Writes each record that --both leaves out, and which one it is the echo of; '-' is standard output",
            ),
            Argument::Parts => listed(
                alloc,
                "parts",
                "SHARD",
                "The folders of the parts, in any order",
            )
            .required(true),
            Argument::Depth => option(
                alloc,
                "depth",
                "1..4",
                "The most tunnels, one in another, that are taken apart",
            )
            .short('d')
            .value_parser(value_parser!(u8).range(1..=4))
            .default_value("4"),
            Argument::Values => flag(alloc, "values", "Tells the values of each head, too"),
            Argument::Capture => placed(
                alloc,
                "capture",
                FILE,
                "A capture of the underlay; '-' is standard input",
            )
            .required(true),
            Argument::SplitCapture => placed(
                alloc,
                "capture",
                FILE,
                "A pcapng capture of several interfaces; '-' is standard input",
            )
            .required(true),
            Argument::RunFolder => placed(
                alloc,
                "folder",
                DIR,
                "The folder that 'tep run' or 'tep merge' wrote into",
            )
            .required(true),
            Argument::Page => option(
                alloc,
                "out",
                FILE,
                "The page that is written: one file of HTML",
            )
            .short('o')
            .required(true),
            Argument::Compared => listed(
                alloc,
                "captures",
                FILE,
                "SENT and RECEIVED, '-' is standard input; with --worked what was seen at each port, port 1 first, or '-'",
            )
            .required(true),
            Argument::Worked => option(
                alloc,
                "worked",
                DIR,
                "The folder that 'tep run' wrote into, to compare each of its captures with what was seen there",
            ),
            Argument::WorkedUnderlay => option(
                alloc,
                "underlay",
                FILE,
                "With --worked what was seen at the underlay; '-' where there is no capture of it",
            )
            .short('u'),
            Argument::Later => option(
                alloc,
                "within",
                "TIME",
                "How much later a record may be received: 500us, 10ms, 2s; 1s without it",
            ),
            Argument::Shift => option(
                alloc,
                "shift",
                "TIME",
                "How far RECEIVED's clock is ahead, or behind as in --shift=-2ms; records may then be early, too",
            ),
            Argument::WorkedSettings => option(
                alloc,
                "settings",
                FILE,
                "With --worked the settings text, for the ports of tunnels and the options that are known",
            )
            .short('s'),
            Argument::Strict => flag(
                alloc,
                "strict",
                "With --worked all octets are compared at the underlay, too",
            ),
            Argument::Lists => flag(
                alloc,
                "list",
                "Prints a line for each record that is of one capture alone",
            ),
            Argument::By => option(
                alloc,
                "by",
                "WHAT",
                "Prints a table of what was compared: by 'length' or 'delay'",
            ),
            Argument::Ignore => option(
                alloc,
                "ignore",
                "WHAT",
                "Leaves aside frames to addresses that switches don't forward: 'reserved'",
            ),
            Argument::Leaves => listed(
                alloc,
                "leaves",
                "check LEAF",
                "The word 'check', and the settings texts of the endpoints",
            )
            .required(true),
        }
    }
}

/// The folder for what comes out of a run.
fn run_out<'a>(alloc: Global) -> Arg<'a>
    ensures rule { rule_of result ≡ rule_for OptionalOut }
    ensures local { result.global ≡ false }
{
    option(
        alloc,
        "out",
        DIR,
        "The folder that outputs are written into, which must exist; needed where nothing else is written or printed",
    )
    .short('o')
}

/// An argument by its place: a text that isn't empty, which help calls by a word.
fn placed<'a>(alloc: Global, name: &'a str, word: &'a str, help: &'a str) -> Arg<'a>
    ensures rule { rule_of result ≡ placed_rule name.entry.now }
    ensures local { result.global ≡ false }
{
    Arg::new(alloc, name)
        .help(help)
        .value_name(word)
        .action(ArgAction::Set)
        .value_parser(ValueParser::NonEmptyString)
}

/// Such arguments, one or more.
fn listed<'a>(alloc: Global, name: &'a str, word: &'a str, help: &'a str) -> Arg<'a>
    ensures rule { rule_of result ≡ listed_rule name.entry.now }
    ensures local { result.global ≡ false }
{
    placed(alloc, name, word, help)
        .action(ArgAction::Append)
        .num_args(1..)
}

/// An option with such a text behind its name.
fn option<'a>(alloc: Global, name: &'a str, word: &'a str, help: &'a str) -> Arg<'a>
    ensures rule { rule_of result ≡ option_rule name.entry.now }
    ensures local { result.global ≡ false }
{
    placed(alloc, name, word, help).long(name)
}

/// An option that is given or not.
fn flag<'a>(alloc: Global, name: &'a str, help: &'a str) -> Arg<'a>
    ensures rule { rule_of result ≡ flag_rule name.entry.now }
    ensures local { result.global ≡ false }
{
    Arg::new(alloc, name)
        .help(help)
        .long(name)
        .action(ArgAction::SetTrue)
}
