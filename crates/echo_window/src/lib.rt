//! Which records of captures are what the switch itself sent, where captures hold both directions: the latest frames that
//! came in, and where each was met again.
//!
//! Use first: a [`Window`] is told of one [`Record`] after another, of all places in order of moment, and says of each
//! which frame that came in it is an echo of, by its [`Origin`]: met at another place where that is awaited, soon after, for
//! the first time there, octet for octet. A frame that came in enters ([`Window::enter`]), with the places where it may be met again.
//! [`Window::forgotten`] tells what had to go too early. Captures aren't read here.
//!
//! Specs to read: `specs/Echo`. `specs/Laid`, `specs/Bucket`, `specs/Index` and `specs/Places` serve proofs.
//!
//! Proved: of every row of records, each is an echo exactly where the definition says so, and the frames that are kept behind
//! it are those of the definition: those that came in at most so long before, of these the latest, at most 4,096 and 4 MiB of
//! octets together. What goes for want of room is counted where it may be met again, with the least age at which any went.
//! Only [`Window::new`] takes memory, some 8.4 MiB.
//!
//! Proved besides:
//! - Which frame that came in elsewhere at most so long before a record of a capture is an echo of, the earliest of
//!   several, if it is one: `Window::meet`. What is kept are the frames that came in at most so long before the record,
//!   of these the latest, 4,096 and 4 MiB at most.
//! - A frame that came in is kept, by the same bounds: `Window::enter`.
//! - How many frames went for want of room although an echo of them might still have come, up to 2^64 - 1, and the least
//!   age of one of them: `Window::forgotten`.
//!
//! Why it is so: a frame that is sent on comes out within moments, so what came in earlier is forgotten, and a bound on
//! what is kept costs nothing but where more comes in than fits, which is counted. A frame is met again once at each
//! place that it is sent to: so a frame that comes twice is two, whose echoes are paired in order. Octets are compared
//! and not a digest of them: whoever sends frames can't make the switch take one for another. The octets of all frames
//! stand in one row, so that none asks for memory, and each is one piece. Of the frames that are kept only those are looked
//! at whose lengths, first 60 octets, and last 8 have one sum with the record's: the addresses, numbers and checksums of
//! common headers are in these. Frames that differ nowhere else, or are the same, share their sums, and so do those of
//! whoever means to: of them each that is kept is looked at, as all frames were if there were no sums.
#![tactic(auto)]

mod bucket;
mod forgotten;
mod frame_text;
mod kept;
mod origin;
mod place_set;
mod record;
mod search;
mod window;

pub use forgotten::Forgotten;
pub use frame_text::FrameText;
pub use origin::Origin;
pub use place_set::PlaceSet;
pub use record::Record;
pub use window::Window;
