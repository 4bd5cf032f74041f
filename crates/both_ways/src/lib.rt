//! Which events of a run are input, where the captures hold both directions: what came in at each place, and what the switch
//! itself sent there.
//!
//! Use first: [`BothWays`], a sieve of `stream_run`'s runs, is shown one event after another, of all places in order of
//! moment, and says of each whether it is input; what isn't, it counts by places. [`BothWays::forgotten`] tells what it
//! had no room for. It takes its memory when it is made. [`Audited`] is the same sieve with an [`Audit`], which is told of each
//! record that is left out, a [`LeftOut`]; [`Placed`] counts echoes where the run didn't put their frame.
//!
//! Specs to read, in order: `specs/Told`, `specs/Sieve`, `specs/Laws`, `specs/Line`, `specs/Placed`, and `echo_window`'s
//! `specs/Echo`.
//!
//! Proved: of every row of events, those are input that the definition takes, one by one: each change; at a port each
//! frame that is no echo of one that came to a segment elsewhere which sends frames out there by the settings in force, but
//! for one VLAN tag; at the underlay each packet that hasn't an own address of the endpoint as its outer source, wherever
//! that can be read, and no other ([`laws::takes_what_others_sent`]). So captures in which no frame stands at two places
//! within the time are left whole but for those packets ([`laws::leaves_whole`]). And where what the switch sent stands
//! among what came in, each record of it at most the time behind a frame that it was sent for, whichever of several, and
//! no frame came in at a port within the time behind its like that may be sent there, those that came in are the input,
//! while none is forgotten, and so the run is theirs ([`laws::gives_the_inputs_back`]). Rows behind one another are taken
//! as one ([`laws::takes_in_turn`]). Behind a run each count tells how many records of its place were left out
//! ([`laws::counts_what_is_left_out`]), and another how many frames were forgotten although an echo of them might still
//! have come, with the least age of one of them ([`laws::counts_what_is_forgotten`]), up to the greatest number of 64
//! bits.
//!
//! Proved besides:
//! - Which events of a run are input, each in turn, where captures hold both directions: at a port no echo of a frame
//!   of a segment that sends frames out there, whatever its VLAN tag or its tunnel, and at the underlay no packet from an
//!   own address: `BothWays::is_input`, `laws::takes_what_others_sent`.
//! - So a run is given it as its sieve, and its outputs are those of these events: `Sieve for BothWays`.
//! - Of a run's inputs, with what the switch sent for them put among them, the inputs are taken in where captures tell them
//!   apart, and the outputs are those of a run of these alone: `laws::gives_the_inputs_back`.
//! - How many records of each place aren't input, up to 2^64 - 1: `BothWays::left_out`,
//!   `laws::counts_what_is_left_out`.
//! - How many frames went for want of room too early, and the least age of one, and the line that tells it with a time
//!   below that age: `BothWays::forgotten`, `laws::counts_what_is_forgotten`, `ForgottenLine`.
//! - Where segments send frames out is known by the settings in force, whatever changed: `laws::sends_by_the_settings`.
//! - Who keeps account is told of each record that isn't input, and of no other: which one brought the frame that it is an echo
//!   of, the earliest of several, or that the endpoint sent it (`Sieve for Audited`, `laws::tells_what_is_left_out`); its line
//!   is the stated one (`LeftOut`). An echo is counted exactly where its frame isn't among the latest 4,096 that the run put at
//!   ports, or was put at others (`Placed`).
//!
//! Why it is so: captures tell no directions, but a packet tells its sender. So at the underlay its outer source decides,
//! and is read first and alone: what is cut, damaged, or carries whatever it does was sent by who stands there. A frame
//! that a packet of another brings came in, also where the same came in elsewhere a moment ago, as in a loop: it isn't
//! asked for, and what leaves of it at ports are its echoes. At a port a record is taken for what the switch sent where a
//! frame came in elsewhere that explains it, and once for each port: one of a segment that sends frames out there. Which
//! segment a frame comes to, and whether it is refused before, the run's own endpoint tells, which read it already: neither
//! depends on tables, but on the settings in force alone. A frame is compared without its tag, since each port has its own way to tag. A
//! frame that comes in at two ports at the same time, as a loop brings it, is input once: captures of one direction tell
//! that better. How many frames come within the time no bound foresees: where they are more than fit, that is told, and
//! what time would fit. Where a segment sends frames out only a change alters: it is worked out when the first frame of the
//! segment comes in, and kept until the next change.
#![tactic(auto)]

mod audited;
mod coming;
pub mod laws;
mod left_out;
mod line;
mod nobody;
mod outlets;
mod place;
mod placed;
mod sender;
mod sieve;

pub use audited::{Audit, Audited};
pub use left_out::{Cause, LeftOut};
pub use line::ForgottenLine;
pub use nobody::Nobody;
pub use placed::Placed;
pub use sieve::{BothWays, WITHIN};
