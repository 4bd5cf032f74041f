//! Runs over streams: captures of any size, in the memory of one record each.
//!
//! Use first: [`run`] runs a [`Job`], of [`Captures`] into [`RunOutputs`]. It opens the captures, `pcap::stream` sources from which
//! nothing was read yet, and writes the headers. Then it takes the records and the changes in order of moment through an
//! endpoint, and writes what comes of each event before it fetches the next record; the lines of cut captures come last. A job
//! has both texts and what they mean, as [`read_texts`] answers it, and the segments to which it is told, a
//! [`SegmentSet`](segment_set::SegmentSet): all, or some as a part, with the numbers and the decisions of the whole. A [`Sieve`]
//! says what is taken in; with [`TakesAll`] that is everything. A [`Watch`] looks on; with [`Unwatched`] nobody does, and with
//! [`Beside`] two do. The parts of a run are [`open_capture`], [`fetch_at`], [`put_events`], [`put_line`], each source's
//! [`Turn`], and the [`Taker`] that takes events, as far as a [`Part`] of the run tells them.
//!
//! Specs to read, in order: `specs/Over` (by the octets of the captures), `specs/Left` (by one list of events), `specs/Stage`,
//! `specs/Amidst`, `specs/Reached`, `specs/Watched`, `specs/Waiting`, `specs/HandedOn`; the others serve the contracts of its
//! parts.
//!
//! Proved: wherever the inputs tell their octets, Ok comes only where `capture_run`'s `run` tells outputs, and the sinks got
//! those; a fault of the settings, the changes, the number of captures or a header is `run`'s, and nothing was written; memory
//! is refused before anything is, or behind the last event that can be numbered; after any other fault all outputs stand at one
//! number of events, behind a failed write with at most a part of what comes next, of an event its line last. A part answers
//! the same of what is told of its segments, and a run with a sieve of what is taken in, where faults and reads are those of all
//! events. Whoever looks on is shown the events in order, each as the endpoint finds it. Where reads may wait, no output holds
//! anything back when a record is asked for that wasn't read ahead ([`fetch_at`]), nor where a run stops at a failed read: a run
//! learns nothing of a read before it answers, so that is what stands while one waits. What a whole run leaves is the same
//! whatever was held back on its way, and how often an output in blocks hands on is bounded by its octets and by how often it is
//! asked to ([`laws`]).
//!
//! Proved of [`run`], of all segments and where everything is taken in. Ten clauses say it. Wherever the inputs tell the
//! octets of the captures (`over`):
//! - A record's fault is one that this record has, and the outputs got the headers and the texts of all events up to
//!   the record in front of it and no more.
//! - Whatever the fault, no event of which any text stands comes behind the last whole record in front of a record's
//!   fault, in any capture that has one (`StopInFront`): no other capture has a fault sooner than the one that is told.
//! - Where a header stands, whole or in part, all captures can be opened (`CanBeOpened`): no record's fault is told in
//!   front of a header's.
//! - Where an event's text stands whole, each capture was read up to its records among those events, and lends the next
//!   one or ended behind them (`reached`). Of the capture whose record's fault or failed read is the answer this isn't
//!   said.
//!
//! Proved, whatever the inputs tell (`run`, `reads`, `writes`):
//! - The outputs got the headers and the texts of one list of events, the same for all, then the lines of cut captures.
//! - Its records come in order of outlets: there is for all outputs one number of outlets whose records stand whole,
//!   with at most a part of the next one's, or of the line behind all (`StandAmidst`). That is said by the octets of
//!   the captures too (`over`).
//! - A read's fault is that input's own, and without one no read failed (`reads`).
//! - A write's fault is that output's own, and without one no write failed (`writes`).
//!
//! Proved of whoever looks on (`Watch`):
//! - It is shown each event just before the endpoint takes it: the endpoint's state then, the event, its number in the
//!   run, and of a record the frame that it brings to a segment, or why it brings none (`IsBrought`); and is told just
//!   behind what the event was answered.
//! - Whatever the inputs tell (`shown`), the events shown are in order those whose texts the outputs hold, and where a
//!   write failed the one whose write it was. After Ok, and only then, the state behind them all is shown as the end.
//! - How it keeps what it saw is its own: it says by `sees` and `ends` what one event and the end make of it.
//! - Whoever looks on sees with another beside it what it would alone, and so does the other, where one is wanted:
//!   `Beside`.
//!
//! Proved of parts of a run, and of its own parts:
//! - A part of a run answers all this of what is told of its segments, with the numbers and the settings of the whole
//!   run. An event of another segment is passed over, leaves no text, and is shown as passed over; a
//!   change that isn't told is made all the same; the lines of cut captures stand in the part that has what comes to no
//!   segment. The whole run is the part that has all: `laws::takes_all` (`part`, `whole`).
//! - A run answers all this of what a `Sieve` takes in. It is asked about each event, and what it leaves out is read as
//!   ever, so each fault and how far the captures are read are as without it; but texts, sights, numbers and the
//!   endpoint's state are those of the events that it took in. Ok comes only where `run` of all events tells outputs.
//!   Which events those are the sieve says itself, by a function of the settings, the changes and lists of events
//!   (`taken`), and after Ok it is told what it was asked (`goes`). So that no record is read for its segment twice, it is
//!   lent the run's endpoint, and what the event brings there. `TakesAll` takes all.
//! - `put_events` goes through the events of all whole records, merged by moment (of one moment the changes, the ports
//!   rising, the underlay), and after Ok each capture was read to its end without a fault.
//! - A record that is fetched is the next one that the capture has: `fetch_at`. Where a read may wait
//!   (`Captures::may_wait`) and the record wasn't read ahead whole, no output holds anything back then: `fetch_at` asks
//!   for it (`IsOutBefore`), and each call of it is proved to have it. So what stands outside while a run waits is all
//!   that was written, which is the headers and the texts of all events taken so far.
//! - The same of whole runs, for every input: where a run stops at a failed read, and reads may wait, no output holds
//!   anything back (`waits` of `run`, by `IsOutAtRead`). A read that failed was made for a record
//!   that wasn't read ahead whole (`lacked` of `fetch_at`). What stands outside then is what `over` and `reached` say:
//!   the headers and the texts of the first events, behind which each other capture lends its next record or has ended.
//!   A run learns nothing of a read before it answers, and does nothing between the two; so what stands while a read
//!   waits is what stands where it fails.
//! - Behind an event all goes on for a read just where reads may wait, and the next record of its source wasn't read
//!   ahead whole or events may be left out (`may_wait_behind`): so not behind each record of a pipe that runs full.
//!   Else a block goes on where what is written has no room in it (`HoldsBack` in `pcap::stream`), or all do where a
//!   line might have none.
//! - How often an output in blocks hands on, of any calls that succeed, one behind another, from an empty block on: at
//!   most twice for each block of octets that are written, and once each time that it is asked to, before a read or for
//!   want of room. For want of room for so many octets the lines' is asked to at most once for each block of them but
//!   for so many: 4,096 of them with up to 16 ports and flood lists of up to 16 remotes, and 59,134 with more
//!   (`decision_lines::most_of_a_line`). And where nothing is counted nothing was written to the output behind.
//!   `laws::few_hand_overs`, over calls as `write_all`, `write_gathered` and `hand_on_held` of a `BlockOutput` answer
//!   them.
//!
//! Why it is so: settings, changes and the number of captures are looked at before anything is read or written; then all
//! captures are opened, all headers written, and only then records fetched. So a capture that can't be opened leaves no header
//! behind, and a fault of the settings no octet. At a record's fault the events in front of it are written already: a run can't
//! know of it before it reads there, where a run in memory answers the same fault and no captures. On the way of an event
//! nothing is made or moved but what a `decision_lines` scratch lends.
#![tactic(auto)]

mod begin;
mod beside;
mod captures;
mod cuts;
mod fault;
mod fetch;
mod hand_on;
mod job;
pub mod laws;
mod letting;
mod opening;
mod order;
mod part;
mod put;
mod runs;
mod sieve;
mod step;
mod take;
mod texts;
mod turn;
mod watch;

pub use beside::Beside;
pub use captures::Captures;
pub use fault::{StreamFault, Target};
pub use fetch::fetch_at;
pub use job::Job;
pub use opening::open_capture;
pub use part::{Next, Part, Taker};
pub use put::put_line;
pub use runs::run;
pub use sieve::{Sieve, TakesAll};
pub use step::put_events;
pub use texts::{ReadTexts, read_texts};
pub use timeline::RunOutputs;
pub use turn::{Turn, Upcoming};
pub use watch::{Unwatched, Watch};
