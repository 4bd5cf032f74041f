//! Stations and tables, of the lines that `tep run` printed.
ghost use Rattle.std.specs.Prelude.{◌≡◌, ℕ, List, Some, false, length, take};
ghost use Rattle.std.specs.Fmt.{WritesOnOk};
ghost use Rattle.std.specs.List.{list_any};
ghost use Rattle.report_page.specs.Lines.{lines_where};
ghost use Rattle.report_page.specs.Senders.{moved_among, sends};
ghost use Rattle.report_page.specs.Told.{entries_table, entry_row, has_colon, is_colon, is_elsewhere, is_entry, moves_told};
ghost use Rattle.report_page.specs.Told.{talks_of, talks_table, told_text};

use crate::chosen::{Choice, FirstRows, count_of};
use crate::moves::Moves;
use crate::senders::{Senders, senders_of};
use crate::talks::{LargestRows, Talks};
use crate::told_rows::EntryRow;
use line_words::{behind_word, first_word};
use std::fmt;

const STATIONS_HEAD: &str =
    "<section aria-labelledby=\"stations\">\n<h2 id=\"stations\">Stations</h2>\n";

const TALKS_TITLE: &str =
    "<h3>Talks</h3>\n<p><code>tep run --talkers</code> tells who sent to whom, in each segment those with \
    the most octets first. Lines: ";

const TALKS_HEAD: &str = "; of each segment the first ten are shown.</p>\n\
    <div class=\"wide\" role=\"region\" aria-label=\"Talks\" tabindex=\"0\"><table>\n";

const MOVES_TITLE: &str =
    "<h3>Moves</h3>\n<p>Talks of an address that sent from more than one place in its segment. Lines: ";

const MOVES_HEAD: &str = "; the first 1,000 are shown at most.</p>\n\
    <div class=\"wide\" role=\"region\" aria-label=\"Moves\" tabindex=\"0\"><table>\n";

const TALK_HEADS: &str =
    "<thead><tr><th scope=\"col\">Segment</th><th scope=\"col\">Source</th><th scope=\"col\">From</th>\
    <th scope=\"col\">Destination</th><th scope=\"col\">To</th><th scope=\"col\" class=\"n\">Frames</th>\
    <th scope=\"col\" class=\"n\">Octets</th><th scope=\"col\" class=\"n\">First frame, ns</th>\
    <th scope=\"col\" class=\"n\">Last frame, ns</th></tr></thead>\n<tbody>\n";

const ENTRIES_TITLE: &str =
    "<h3>Tables</h3>\n<p><code>tep run --tables</code> tells where stations are, and since when. Lines: ";

const ENTRIES_HEAD: &str = "; the first 1,000 are shown at most.</p>\n\
    <div class=\"wide\" role=\"region\" aria-label=\"Tables\" tabindex=\"0\"><table>\n\
    <thead><tr><th scope=\"col\">Segment</th><th scope=\"col\">Address</th><th scope=\"col\">Place</th>\
    <th scope=\"col\">Kept</th><th scope=\"col\" class=\"n\">Moment, ns</th>\
    <th scope=\"col\" class=\"n\">Age, s</th></tr></thead>\n<tbody>\n";

const TABLE_END: &str = "</tbody>\n</table></div>\n";

const STATIONS_END: &str = "</section>\n";

/// Whether a text has a colon.
fn has_colon(text: &[u8]) -> bool
    ensures { result ≡ has_colon text.now }
{
    text.iter().any(|octet| is_colon(*octet))
}

/// Whether an octet is a colon.
fn is_colon(octet: u8) -> bool
    ensures { result ≡ is_colon octet }
{
    octet == b':'
}

/// Whether it is the line of an entry of a table: its third word is a MAC address.
fn is_entry(line: &[u8]) -> bool
    ensures { result ≡ is_entry line.now }
{
    let (word, behind) = first_word(line);
    let (third, _) = first_word(behind_word(behind));
    word == b"segment".as_slice() && has_colon(third)
}

/// All entries of tables.
#[derive(Clone, Copy)]
struct Entries;

impl Choice for Entries {
    ghost chooses = { λ entries line. is_entry line };

    ghost row_of = { λ entries line. entry_row line };

    fn chooses(&self, line: &[u8]) -> bool {
        is_entry(line)
    }

    fn put_row<W: fmt::Write>(&self, line: &[u8], f: &mut fmt::Formatter<W>) -> fmt::Result {
        let row = EntryRow(line);
        write!(f, "{row}")
    }
}

/// The largest talks of each segment.
#[derive(Clone, Copy)]
struct TalksTable<'a>(&'a [u8]);

impl<'a> fmt::Display for TalksTable<'a> {
    ghost output = { λ table. Some (talks_table table.0.now) };

    #[tactic(auto, unfolding(crate::specs::Told::talks_table))]
    fn fmt<W: fmt::Write>(&self, f: &mut fmt::Formatter<W>) -> fmt::Result {
        let count = count_of(&Talks, self.0);
        let rows = LargestRows(self.0);
        write!(
            f,
            "{TALKS_TITLE}{count}{TALKS_HEAD}{TALK_HEADS}{rows}{TABLE_END}"
        )
    }
}

/// The talks of addresses that moved, and how many there are.
#[derive(Clone, Copy)]
struct MovesTable<'a> {
    count: u64,
    rows: FirstRows<'a, Moves<'a>>,
}

impl<'a> fmt::Display for MovesTable<'a> {
    ghost output = { λ table. Some (moves_told table.count (moved_among table.rows.choice.senders.now) table.rows.text.now) };

    #[tactic(auto, unfolding(crate::specs::Told::moves_told))]
    fn fmt<W: fmt::Write>(&self, f: &mut fmt::Formatter<W>) -> fmt::Result {
        let count = self.count;
        let rows = self.rows;
        write!(
            f,
            "{MOVES_TITLE}{count}{MOVES_HEAD}{TALK_HEADS}{rows}{TABLE_END}"
        )
    }
}

/// Those of a text, among these senders.
fn moves_table<'a>(text: &'a [u8], senders: &'a Senders<'a>) -> MovesTable<'a>
    ensures count { result.count ≡ length (lines_where (moved_among senders.now) text.now) }
    ensures senders { result.rows.choice.senders.now ≡ senders.now }
    ensures text { result.rows.text.now ≡ text.now }
{
    let choice = Moves { senders };
    MovesTable {
        count: count_of(&choice, text),
        rows: FirstRows { choice, text },
    }
}

/// The entries of tables.
#[derive(Clone, Copy)]
struct EntriesTable<'a>(&'a [u8]);

impl<'a> fmt::Display for EntriesTable<'a> {
    ghost output = { λ table. Some (entries_table table.0.now) };

    #[tactic(auto, unfolding(crate::specs::Told::entries_table))]
    fn fmt<W: fmt::Write>(&self, f: &mut fmt::Formatter<W>) -> fmt::Result {
        let text = self.0;
        let choice = Entries;
        let count = count_of(&choice, text);
        let rows = FirstRows { choice, text };
        write!(f, "{ENTRIES_TITLE}{count}{ENTRIES_HEAD}{rows}{TABLE_END}")
    }
}

/// All three tables.
#[derive(Clone, Copy)]
pub(crate) struct Told<'a>(pub &'a [u8]);

impl<'a> fmt::Display for Told<'a> {
    ghost output = { λ section. Some (told_text section.0.now) };

    fn fmt<W: fmt::Write>(&self, f: &mut fmt::Formatter<W>) -> fmt::Result {
        let senders = senders_of(self.0);
        put_told(self.0, &senders, f)
    }
}

/// Puts all three tables, by the senders of the talks.
#[tactic(auto, unfolding(crate::specs::Told::told_text))]
fn put_told<'a, W: fmt::Write>(
    text: &'a [u8],
    senders: &'a Senders<'a>,
    f: &mut fmt::Formatter<W>,
) -> fmt::Result
    requires { (segment source place : List ℕ) → list_any (sends false segment source place) senders.now
        ≡ list_any (is_elsewhere segment source place) (take 4096 (talks_of text.now)) }
    ensures { WritesOnOk W.write_str_gives f.old result (told_text text.now) f.new }
{
    let talks = TalksTable(text);
    let moves = moves_table(text, senders);
    let entries = EntriesTable(text);
    write!(f, "{STATIONS_HEAD}{talks}{moves}{entries}{STATIONS_END}")
}
