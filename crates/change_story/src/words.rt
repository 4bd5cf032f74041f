//! What stories are made of: words, the values among them, and the front of the decision line with which each ends.
//!
//! Use first: each function puts its text behind what stands in a `String` already, or answers a word; [`put_line_front`] puts
//! the front of a line. `AllocError` says that there was no room for it.
//!
//! Specs to read: `specs/Words`.
//!
//! Proved: each call appends exactly the stated words or value, and the front of a decision line is that of `decision_lines`.

mod front;
mod words;

pub use front::put_line_front;
pub use words::{
    destination_word, egress_word, either, group_word, listed_word, member_word, origin_word,
    put_at, put_behind_place, put_hop, put_listed, put_mac, put_member, put_name, put_stood,
    put_up, receiver_word, sum_word, tunnel_word, up_word,
};
