//! One step of a learning bridge (IEEE 802.1Q, 8.6 to 8.8) whose ports are local ports and the remote endpoints of tunnels
//! (RFC 7348, 4.1; RFC 8926, 2). No tunnel header is in sight: it knows frames and places.
//!
//! Use first: [`bridge_step_into`] learns where a frame's source stands and then puts where the frame goes into [`Outlets`]
//! that are lent. A [`Bridge`] is one segment's configuration, and the tables are handed in. [`send_toward`] answers where a
//! frame goes by where its destination stands, without tables.
//!
//! Specs to read: `specs/Bridge`, then `specs/Verdict` and `specs/Outlets`; `specs/Once` for the law.
//!
//! Proved: in one step, for every `Tables`, the source is learned and then the answer is the outlets, or the reason why
//! there are none, of the definition; lent outlets are empty after every refusal. That is at most two calls of the tables,
//! whatever stands in them. So it is of a frame whose destination's place is told. The outlets are distinct places
//! (`laws::once_at_each_place`).
//!
//! Proved besides:
//! - That is at most two calls of the tables, which compare an address at most 122 times, whatever stands in them: the
//!   same call.
//!
//! Why it is so: the answer is a list of places, or the reason. The bridge looks at a port's state and membership when the frame
//! comes, so a fixed entry at a port that is down or no member makes its address unreachable.
#![tactic(auto)]

mod bridge;
pub mod laws;
mod outlets;
mod step;

pub use bridge::Bridge;
pub use outlets::Outlets;
pub use step::{bridge_step_into, send_toward};
