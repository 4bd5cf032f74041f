//! The program's commands, as `clap` is told of them.
ghost use Rattle.std.specs.Prelude.{◌≡◌, IfOk, false};
ghost use Rattle.clap.specs.Words.{app_of, shape_of};
ghost use Rattle.clap.specs.declared.builder.Command.TheViews.{out-Command as fields_of};
ghost use Rattle.command_line.specs.App.{arguments_of, name_of, shape_for, tep_app, telling_app};
ghost use Rattle.command_line.specs.App.{versioned_app, with_arguments, with_commands};

use crate::arguments::Argument;
use clap::Command;
use std::alloc::{AllocError, Global};

/// What the program's help begins with.
const ABOUT: &str =
    "A VXLAN and Geneve tunnel endpoint over captures; without words it runs on a built-in sample";

/// What stands below it.
const EXAMPLE: &str =
    "Example:\n  tep run -s settings.toml -u underlay.pcap -o out port1.pcap port2.pcap";

/// What stands below the help of `run`.
const RUN_EXAMPLE: &str =
    "Captures are pcap or pcapng. FILE#INTERFACE takes one interface of a pcapng capture, by number or name.\n\n\
    Examples:\n  \
    tep run -s settings.toml -c changes.toml -u underlay.pcap -o out port1.pcap port2.pcap\n  \
    tep run -s settings.toml -u underlay.pcap -o out --why 7 --why p2:1 --tables port1.pcap port2.pcap\n  \
    tep run -s settings.toml -u underlay.pcap --why drop:any port1.pcap port2.pcap\n  \
    tep run -s settings.toml -u all.pcapng#eth0 -o out all.pcapng#eth1 all.pcapng#eth2\n  \
    tep run -s settings.toml -u underlay.pcap -o part1 --segments 1-10,none port1.pcap port2.pcap\n  \
    cat out/decisions.txt";

/// What stands below the help of `check`.
const CHECK_EXAMPLE: &str =
    "Examples:\n  tep check -s settings.toml -c changes.toml\n  tep check -s settings.toml -u underlay.pcap port1.pcap port2.pcap";

/// What stands below the help of `explain`.
const EXPLAIN_EXAMPLE: &str =
    "A capture is pcap or pcapng. FILE#INTERFACE takes one interface of a pcapng capture, by number or name.\n\n\
    Examples:\n  \
    tep explain -s settings.toml -d 2 underlay.pcap\n  \
    tep explain -s settings.toml --values underlay.pcap\n  \
    tep explain -s settings.toml all.pcapng#eth0";

/// What stands below the help of `migrate`.
const MIGRATE_EXAMPLE: &str = "Example:\n  tep migrate -s settings.toml >migrated.toml";

/// What stands below the help of `digest`.
const DIGEST_EXAMPLE: &str =
    "Captures are pcap or pcapng. FILE#INTERFACE takes one interface of a pcapng capture, by number or name.\n\n\
    Example:\n  \
    tep digest -u underlay.pcap port1.pcap port2.pcap >digests.txt\n  \
    tep run -s settings.toml -u underlay.pcap -o part1 --segments 1-10,none --digests digests.txt port1.pcap port2.pcap";

/// What stands below the help of `merge`.
const MERGE_EXAMPLE: &str =
    "The parts are those of one run, and all of it. The folder is left what the whole run writes.\n\
    Tables and counts are printed as the whole run prints them, where each part was run with the same word.\n\n\
    Examples:\n  \
    tep merge -o whole part1 part2 part3\n  \
    tep merge -o whole --summary part1 part2 part3";

/// What stands below the help of `split`.
const SPLIT_EXAMPLE: &str =
    "The file is read once. Each interface's packets, those that FILE#NUMBER takes, are written into ifNUMBER_NAME.pcap,\n\
    and a list is printed: the interface's number, the file, and the interface's name.\n\n\
    Example:\n  \
    tep split -o ports all.pcapng\n  \
    tep run -s settings.toml -u ports/if0_eth0.pcap -o out ports/if1_swp1.pcap ports/if2_swp2.pcap";

/// What stands below the help of `compare`.
const COMPARE_EXAMPLE: &str =
    "Captures are pcap or pcapng. FILE#INTERFACE takes one interface of a pcapng capture, by number or name.\n\
    With --worked packets of tunnels are the same where what they carry and their addresses are.\n\
    The exit status is 0 where all is the same, and 1 where it isn't.\n\n\
    Examples:\n  \
    tep compare sent.pcap received.pcap\n  \
    tep compare --within 5ms --shift=-1200ns out/port2.pcap switch.pcapng#eth2\n  \
    tep compare --worked out -u seen_u.pcap seen_1.pcap -\n  \
    tep compare --worked out -s settings.toml -u seen_u.pcap seen_1.pcap seen_2.pcap";

/// What stands below the help of `report`.
const REPORT_EXAMPLE: &str =
    "The page tells what came and left over time, what was dropped and why, and who talked to whom. Where the folder has\n\
    summary.txt, what --summary, --tables and --talkers printed, it tells of that, too.\n\n\
    Example:\n  \
    tep run -s settings.toml -u underlay.pcap -o out --summary --tables --talkers port1.pcap port2.pcap >out/summary.txt\n  \
    tep report -o page.html out";

/// What stands below the help of `fabric`.
const FABRIC_EXAMPLE: &str =
    "A leaf is named by its file, without its folder and .toml. What is told of are leaves as they are opened: no changes.\n\
    The exit status is 0 where all reach all, and 1 where some don't.\n\n\
    Example:\n  \
    tep fabric check leaf1.toml leaf2.toml leaf3.toml";

/// What `compare` takes.
const COMPARE: [Argument; 11] = [
    Argument::Compared,
    Argument::Worked,
    Argument::WorkedUnderlay,
    Argument::WorkedSettings,
    Argument::Strict,
    Argument::Later,
    Argument::Shift,
    Argument::Lists,
    Argument::By,
    Argument::Ignore,
    Argument::Json,
];

/// A command of the program.
#[derive(Clone, Copy)]
pub enum Subcommand {
    /// Runs the endpoint over captures.
    Run,
    /// The same, where the folder for what comes out may be left out.
    TellingRun,
    /// Looks at the texts, and at captures.
    Check,
    /// Takes the packets of a capture apart.
    Explain,
    /// Makes a settings text one of version 2.
    Migrate,
    /// Tells the digests of captures.
    Digest,
    /// Makes the parts of a run the whole run.
    Merge,
    /// Makes a pcapng capture one capture for each of its interfaces.
    Split,
    /// Compares what was sent with what was received.
    Compare,
    /// Makes a page of what a run gave.
    Report,
    /// Tells who reaches whom by the settings of many endpoints.
    Fabric,
}

/// All of them, in the order of the program's help.
const SUBCOMMANDS: [Subcommand; 10] = [
    Subcommand::Run,
    Subcommand::Check,
    Subcommand::Explain,
    Subcommand::Migrate,
    Subcommand::Digest,
    Subcommand::Merge,
    Subcommand::Split,
    Subcommand::Compare,
    Subcommand::Report,
    Subcommand::Fabric,
];

/// What `run` takes, with `$out` as the argument for its folder.
macro_rules! run_with {
    ($out:expr) => {
        [
            Argument::Settings,
            Argument::Changes,
            Argument::Underlay,
            $out,
            Argument::Ports,
            Argument::Both,
            Argument::Within,
            Argument::List,
            Argument::Tables,
            Argument::TablesAt,
            Argument::Why,
            Argument::Summary,
            Argument::Talkers,
            Argument::RunJson,
            Argument::Pcapng,
            Argument::Segments,
            Argument::Digests,
            Argument::Quiet,
        ]
    };
}

/// What `run` takes.
const RUN: [Argument; 18] = run_with!(Argument::RunOut);

/// What `run` takes where its folder may be left out.
const TELLING_RUN: [Argument; 18] = run_with!(Argument::OptionalOut);

/// What `check` takes.
const CHECK: [Argument; 5] = [
    Argument::Settings,
    Argument::Changes,
    Argument::SeenUnderlay,
    Argument::SeenPorts,
    Argument::Json,
];

/// What `explain` takes.
const EXPLAIN: [Argument; 5] = [
    Argument::Settings,
    Argument::Depth,
    Argument::Values,
    Argument::Capture,
    Argument::Json,
];

/// What `merge` takes.
const MERGE: [Argument; 5] = [
    Argument::Out,
    Argument::Parts,
    Argument::Tables,
    Argument::Summary,
    Argument::Json,
];

impl Subcommand {
    /// The word that asks for it.
    fn name<'a>(self) -> &'a str
        ensures { result.now ≡ name_of self }
    {
        match self {
            Subcommand::Run | Subcommand::TellingRun => "run",
            Subcommand::Check => "check",
            Subcommand::Explain => "explain",
            Subcommand::Migrate => "migrate",
            Subcommand::Digest => "digest",
            Subcommand::Merge => "merge",
            Subcommand::Split => "split",
            Subcommand::Compare => "compare",
            Subcommand::Report => "report",
            Subcommand::Fabric => "fabric",
        }
    }

    /// Its line of help, and what stands below its help.
    fn help<'a>(self) -> (&'a str, &'a str) {
        match self {
            Subcommand::Run | Subcommand::TellingRun => {
                ("Runs the endpoint over captures", RUN_EXAMPLE)
            }
            Subcommand::Check => (
                "Checks a settings text, a changes text and captures",
                CHECK_EXAMPLE,
            ),
            Subcommand::Explain => ("Takes the packets of a capture apart", EXPLAIN_EXAMPLE),
            Subcommand::Migrate => (
                "Prints a settings text as one of version 2",
                MIGRATE_EXAMPLE,
            ),
            Subcommand::Digest => (
                "Prints the digests of captures, to lend them to the parts of a run",
                DIGEST_EXAMPLE,
            ),
            Subcommand::Merge => ("Makes of the parts of a run the whole run", MERGE_EXAMPLE),
            Subcommand::Split => (
                "Makes of a pcapng capture one capture for each of its interfaces",
                SPLIT_EXAMPLE,
            ),
            Subcommand::Compare => (
                "Tells which records that were sent were received",
                COMPARE_EXAMPLE,
            ),
            Subcommand::Report => (
                "Makes a page of what a run gave, to look at",
                REPORT_EXAMPLE,
            ),
            Subcommand::Fabric => (
                "Tells who reaches whom by the settings of many endpoints",
                FABRIC_EXAMPLE,
            ),
        }
    }

    /// What it takes, in the order of its help.
    fn arguments(self) -> &'static [Argument]
        ensures { result.now ≡ arguments_of self }
    {
        match self {
            Subcommand::Run => &RUN,
            Subcommand::TellingRun => &TELLING_RUN,
            Subcommand::Check => &CHECK,
            Subcommand::Explain => &EXPLAIN,
            Subcommand::Migrate => &[Argument::Settings],
            Subcommand::Digest => &[Argument::Underlay, Argument::Ports],
            Subcommand::Merge => &MERGE,
            Subcommand::Split => &[Argument::Out, Argument::SplitCapture],
            Subcommand::Compare => &COMPARE,
            Subcommand::Report => &[Argument::Page, Argument::RunFolder],
            Subcommand::Fabric => &[Argument::Leaves],
        }
    }

    /// What `clap` is told of it.
    fn command<'a>(self, alloc: Global) -> Result<Command<'a>, AllocError>
        ensures shape { IfOk result (λ c. shape_of c ≡ shape_for self) }
        ensures local { IfOk result (λ c. (fields_of c).has_globals ≡ false) }
    {
        let (about, below) = self.help();
        let command = Command::new(alloc, self.name())
            .about(about)
            .after_help(below);
        with_arguments(alloc, command, self.arguments())
    }
}

/// A command with these arguments behind its own.
fn with_arguments<'a>(
    alloc: Global,
    command: Command<'a>,
    arguments: &[Argument],
) -> Result<Command<'a>, AllocError>
    ensures app { IfOk result (λ c. app_of c ≡ with_arguments (app_of command.entry) arguments.now) }
    ensures local { IfOk result (λ c. (fields_of c).has_globals ≡ (fields_of command.entry).has_globals) }
{
    let mut command = command;
    for argument in arguments {
        command = command.arg(argument.arg(alloc))?;
    }
    Ok(command)
}

/// A command with these subcommands behind its own.
fn with_commands<'a>(
    alloc: Global,
    command: Command<'a>,
    subcommands: &[Subcommand],
) -> Result<Command<'a>, AllocError>
    ensures { IfOk result (λ c. app_of c ≡ with_commands (app_of command.entry) subcommands.now) }
{
    let mut command = command;
    for subcommand in subcommands {
        command = command.subcommand(subcommand.command(alloc)?)?;
    }
    Ok(command)
}

/// The program without its commands.
fn program<'a>(alloc: Global) -> Command<'a>
    ensures { app_of result ≡ versioned_app }
{
    Command::new(alloc, "tep")
        .about(ABOUT)
        .after_help(EXAMPLE)
        .version("0.2.0")
        .propagate_version(true)
}

/// The whole program.
pub(crate) fn tep<'a>(alloc: Global) -> Result<Command<'a>, AllocError>
    ensures { IfOk result (λ c. app_of c ≡ tep_app) }
{
    with_commands(alloc, program(alloc), &SUBCOMMANDS)
}

/// The program with the run alone that may leave its folder out.
pub(crate) fn telling<'a>(alloc: Global) -> Result<Command<'a>, AllocError>
    ensures { IfOk result (λ c. app_of c ≡ telling_app) }
{
    with_commands(alloc, program(alloc), &[Subcommand::TellingRun])
}
