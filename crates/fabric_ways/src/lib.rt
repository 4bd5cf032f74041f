//! Who reaches whom in a fabric of endpoints, by their settings alone.
//!
//! Use first: a [`Member`] is a segment of an endpoint, which is a leaf here; [`add_leaf`] takes those of a leaf from its
//! settings. [`Networks`] tell which of them are of one network, and sort them so. [`picture_of`] tells who reaches whom in a
//! network, and why not: a [`Picture`].
//!
//! Specs to read: `specs/Members`, `specs/Hops`, `specs/Leads`, `specs/Picture`, `specs/Networks`.
//!
//! Proved: members have exactly what their settings say (`add_leaf`). Two have one number exactly where they are of one
//! network (`Networks::of`), and sorting keeps all of them, and the order of those of one network (`Networks::sort`). A picture
//! tells of a broadcast that goes round for ever exactly where there is one, and else of each two segments of different leaves
//! whether broadcasts of the one come to the other, whether the answer comes back, and why not (`picture_of`).
//!
//! Why it is so: what leads where is said by sets that no step leaves, and what is joined by labels that links keep, so that
//! a search over marks and a search over labels each prove both ways at once. Segments with one flood list share it, since
//! most of a leaf's are equal.
#![tactic(auto)]

mod graph;
mod hop;
mod labels;
mod member;
mod networks;
mod ways;

pub use member::{Member, add_leaf};
pub use networks::Networks;
pub use ways::{Picture, picture_of};
