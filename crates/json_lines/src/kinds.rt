//! How the program's texts are told as JSON: the forms of their lines.
//!
//! Use first: [`objects_of`] tells a text of a [`Kind`], one object for each line.
//!
//! Specs to read: `specs/Telling`, above the others.
//!
//! Proved: a text is told line by line, and none left out, as exactly the objects of `json_lines` by tables of forms, and
//! each form of each table is whole: its members tell each word that may be another in another line, and what stands behind
//! the words. So two lines of one form with the same object are the same line ([`crate::laws`]). That the forms say what
//! `docs/FORMATS.md` says of each kind of line, and that lines of two forms have two objects, is tested.
//!
//! Why it is so: a form is a table and no code, so that one engine tells all texts, and a line of no form is told whole.
//! Whether a table's forms are whole is computed from it, and one that leaves out a word is refused. The decisions of a run
//! are told as they are made, by `decision_objects`; here are those of stories and explanations. A table has no more than
//! some thirteen forms: what it is takes the prover more steps than it may take, where it has twice as many.

mod compared;
mod counts;
mod events;
mod kind;
mod layers;
mod lonely;
mod looks;
mod objects;
mod tables;

pub use kind::Kind;
pub use objects::objects_of;
