//! Tenants apart: two runs that agree in what is one segment's own agree in what they answer it, whatever other segments
//! have, do, add, remove, fill or limit.
//!
//! Use first: [`laws::events`] says it of events that come to endpoints with two settings, [`laws::captures`] of whole captures,
//! [`runs::fronts`] of runs over streams that may have stopped, and [`reports::at_a_moment`] of tables. [`laws::single`] says that
//! a segment is answered as it would be alone, and [`laws::room`] what it feels of others. What leaves at a local port is the text
//! of a frame in its segment ([`laws::leaving`]), and enters that again where it is read ([`laws::again`]), but for what leaves
//! without a tag and has one in its body ([`laws::second_tag`]).
//!
//! Specs to read, in order: `specs/Own` (what a segment has and needs, and which events are its own), `specs/Texts`,
//! `specs/Until`, `specs/Vnis`, `specs/Single`, `specs/Again`, `specs/Runs`, `specs/Reports`.
//!
//! Proved: for two settings that agree in what the segment has and needs, and events that agree in what is its own, its own
//! `AddSegment` and `SetLimit` answered alike, its answers, what leaves in it and its decision lines are the same. The laws of
//! `noninterference` follow ([`laws::earlier`]).
//!
//! Proved besides:
//! - Two runs with two settings that agree in all that one segment has, or in that it isn't there, and in what it needs
//!   of ports, next hops and limits, and whose events agree in what is the segment's own (its frames and packets, by the
//!   settings in force, the changes that name it, and those of ports that it needs), its own `add_segment` and
//!   `set_limit` answered alike: every event of its own is answered alike, what leaves in it is the same, moment, place
//!   and octets, in order, and so are its decision lines but for their numbers, whatever other segments have, do, add,
//!   remove, fill or limit: `laws::events`. Whatever these two kinds of change are answered, it is so up to the first
//!   that is answered otherwise, over events and over captures: `laws::until`. Settings with the same underlay and the
//!   same ports agree in whatever a segment needs of them: `laws::enough`. Something is sent in it to remotes alone
//!   that its flood list, its changes or its packets told: `laws::remotes`.
//! - What is live of the segment's table at a moment that isn't before the last event of either, and the lines that
//!   tell it, are the same: `laws::tables`.
//! - What `laws::events` says of lists of events holds of whole captures with two settings texts: `laws::captures`. Of
//!   runs of which one goes further (`laws::fronts`), or either may have stopped (`laws::stopped`), over lists of
//!   events: what left by then in the one is the first of what left in the other, and so with its lines.
//! - Whether a frame or packet concerns a segment is told by the settings in force, not by tables: `laws::concerning`;
//!   and by the segment's own of them, since no two segments have a VNI: `laws::vnis`.
//! - Of others a segment feels no more than that its own `add_segment` or `set_limit` is refused for want of room:
//!   `laws::room`. Where none is, it is answered as an endpoint answers that has it alone and to which its own events
//!   come alone: `laws::single`.
//! - What leaves at a local port is the text of a frame in its segment (`laws::leaving`), and enters that again exactly
//!   where a port takes it (`laws::again`); but what leaves without a tag and has one in its body is octet for octet a
//!   frame of the segment of that tag (`laws::second_tag`). To a segment whose `tags` is `never` no such frame comes,
//!   by a port or a tunnel (`laws::again`), and so none leaves in it (`laws::leaving`).
//! - What `stream_run::run` ensures that a run leaves in its outputs, ended or stopped at a record's fault, is what leaves
//!   and is told by the first of the events that come to it, octet for octet; at a read that fails too, or no header
//!   stands yet: `runs::left`. Of two such runs, with two settings texts, whose inputs agree, source by source and in
//!   front of each capture's first fault, in a segment's own events: at each output the records of the segment in the
//!   one are the first of those in the other, and so are its lines: `runs::fronts`.
//! - What `run_reports` tells of the tables at a moment, where one asks for nothing else, is the text of the tables as
//!   they are then; and of two runs that agree up to that moment in a segment's own events both texts have the same
//!   lines of the segment, between those of smaller VIDs and those of larger: `reports::at_a_moment`.
//!
//! Why it is so: what is a segment's own is told by the settings in force and not by what a run answers, so the premise can be
//! checked on what comes in. Others are felt by the answers to those two kinds of change alone: a VNI that is another's, too many
//! segments, a full pool. So these answers are a premise that looks at a run. The only other one is which remotes something is
//! sent to, and those are among the ones that came in ([`laws::remotes`]).
#![tactic(auto)]

pub mod laws;
pub mod reports;
pub mod runs;
