//! The whole page.
ghost use Rattle.std.specs.Prelude.{◌≡◌, OnOk, Some};
ghost use Rattle.std.specs.Io.KnownBytes.{Appends};
ghost use Rattle.report_page.specs.Page.{front_text, page_text};

use crate::drops::Drops;
use crate::escaped::Escaped;
use crate::facts::Facts;
use crate::first_drops::FirstDrops;
use crate::matrix::Matrix;
use crate::over_time::OverTime;
use crate::pen::print_to;
use crate::places::Places;
use crate::segments::Segments;
use crate::short::Short;
use crate::style::STYLE;
use crate::told::Told;
use pcap::stream::{Output, WriteFault};
use report_counts::ReportCounts;
use std::fmt;

const PAGE_HEAD: &str = "<!DOCTYPE html>\n<html lang=\"en\">\n<head>\n<meta charset=\"utf-8\">\n\
    <meta name=\"viewport\" content=\"width=device-width, initial-scale=1\">\n<title>What a run gave: ";

const PAGE_STYLE: &str = "</title>\n<style>\n";

const PAGE_BODY: &str = "</style>\n</head>\n<body>\n<header>\n<h1>What a run gave</h1>\n<p><code>";

const PAGE_CONTENTS: &str = "</code></p>\n</header>\n<nav aria-label=\"Contents\"><ul>\n\
    <li><a href=\"#short\">In short</a></li>\n<li><a href=\"#time\">Over time</a></li>\n<li><a href=\"#places\">Places</a></li>\n\
    <li><a href=\"#segments\">Segments</a></li>\n<li><a href=\"#drops\">Drops</a></li>\n\
    <li><a href=\"#pairs\">Who talks to whom</a></li>\n<li><a href=\"#stations\">Stations</a></li>\n\
    <li><a href=\"#first\">First drops</a></li>\n</ul></nav>\n<main>\n";

const PAGE_END: &str = "</main>\n</body>\n</html>\n";

/// The page up to its list of contents.
#[derive(Clone, Copy)]
struct Front<'a>(&'a [u8]);

impl<'a> fmt::Display for Front<'a> {
    ghost output = { λ front. Some (front_text front.0.now) };

    #[tactic(auto, unfolding(crate::specs::Page::front_text))]
    fn fmt<W: fmt::Write>(&self, f: &mut fmt::Formatter<W>) -> fmt::Result {
        let folder = Escaped(self.0);
        write!(
            f,
            "{PAGE_HEAD}{folder}{PAGE_STYLE}{STYLE}{PAGE_BODY}{folder}{PAGE_CONTENTS}"
        )
    }
}

/// What a page is of, besides decision lines.
#[derive(Clone, Copy)]
pub struct RunFolder<'a> {
    /// The folder's name.
    pub name: &'a str,
    /// It is of a part of a run.
    pub is_part: bool,
    /// The text that `tep run` printed with `--tables` and `--talkers`, or nothing.
    pub told: &'a [u8],
}

/// The whole page.
#[derive(Clone, Copy)]
struct Page<'a> {
    counts: &'a ReportCounts,
    folder: RunFolder<'a>,
}

impl<'a> fmt::Display for Page<'a> {
    ghost output = { λ page. Some (page_text page.counts.now page.folder.name.now page.folder.is_part page.folder.told.now) };

    #[tactic(auto, unfolding(crate::specs::Page::page_text))]
    fn fmt<W: fmt::Write>(&self, f: &mut fmt::Formatter<W>) -> fmt::Result {
        let front = Front(self.folder.name.as_bytes());
        let facts = Facts(self.counts);
        let short = Short {
            counts: self.counts,
            is_part: self.folder.is_part,
        };
        let time = OverTime(self.counts);
        let places = Places(self.counts);
        let segments = Segments(self.counts);
        let drops = Drops(self.counts);
        let matrix = Matrix(self.counts);
        let told = Told(self.folder.told);
        let first = FirstDrops(self.counts);
        write!(
            f,
            "{front}{facts}{short}{time}{places}{segments}{drops}{matrix}{told}{first}{PAGE_END}"
        )
    }
}

/// Writes the page of what was counted into an output, piece by piece: HTML 5 with one style and pictures in it, and nothing from
/// elsewhere. No memory is asked for. A fault comes where a write fails: then a part of the page was written.
pub fn write_page<W: Output>(
    counts: &ReportCounts,
    folder: RunFolder<'_>,
    out: &mut W,
) -> Result<(), WriteFault>
    ensures { OnOk result (Appends (W.written out.old) (W.written out.new)
        (page_text counts.now folder.entry.name.now folder.entry.is_part folder.entry.told.now)) }
{
    print_to(Page { counts, folder }, out)
}
