//! The view of a run: a capture in the pcapng format (draft-ietf-opsawg-pcapng) that has what came and what left, each packet with
//! its decision, written to an output of its own while the run goes.
//!
//! Use first: [`View`] looks on while `stream_run` runs, and writes; [`Beside`](stream_run::Beside) puts it beside whoever else
//! looks on.
//!
//! Specs to read, in order: `specs/Blocks`, `specs/Told`, `specs/View`, `specs/Onlooking`, `specs/Reading`, `specs/Run`,
//! `specs/Left`.
//!
//! Proved: behind each event that is told, its blocks were written, exactly, to the output, or a part of them where the output
//! failed at them; behind such a fault nothing more is written, and it is kept in mind. So behind a run of any events, or of a part
//! of it, the head stands and their blocks one behind another, or a front of that (`laws::views`). What is read of one of its
//! interfaces is what came there (`laws::reads_back`), and what left there is what its output capture holds (`laws::left`).
//!
//! Proved besides:
//! - A record's block has its octets, its event's moment, its original length, inbound, its decision line without the line's end as
//!   comment, and the number of its event. Behind it stands a block for each outlet at which something left, outbound, with what
//!   left there and how much; of a change, and of a capture that is cut, an entry of a journal with its line: `View`.
//! - No event asks for memory: what is kept of a record finds room in what was taken when the view was made.
//!
//! Why it is so: a block tells its length in front, and its comment is known once the event is answered, so what came is copied
//! when it is seen. The options of a block are put together in a line of `decision_lines`; what leaves is put together once more, as
//! `stream_run` did it for the outputs.
#![tactic(auto)]

mod blocks;
pub mod laws;
mod leaving;
mod numbers;
mod options;
mod output;
mod packet;
mod record;
mod seen;
mod teller;
mod texts;
mod view;

pub use view::View;
