//! Lines of words told as JSON objects, one object for each line.
//!
//! Use first: a table of [`Form`]s, each written with [`form!`], says how each kind of line reads and which members its object
//! has; [`put_object`] tells one line, and [`objects_of`] a whole text.
//!
//! Specs to read, in order: `specs/Outcomes`, `specs/Forms`, `specs/Objects`, `specs/Texts`.
//!
//! Proved: a line is told by the first form that it is of, as exactly the object of the definition, compact and with its members
//! in the order of the form; a line of no form is told whole, as one text.
//!
//! Proved besides:
//! - A line is told by the first form that it is of, as exactly the object of the definition, in the words of
//!   `serde_json`'s definitions: its members in the order of the form, numbers as numbers, texts escaped, compact; a
//!   line of no form is told whole, as one text: `put_object`. No octet stands for it where memory is refused.
//! - Of a text each line is told, in order, and none left out: `objects_of`.
//!
//! Proved besides:
//! - The words of a line come back from its JSON object: of a form whose members tell each word that may be another in
//!   another line, and what stands behind the words, two lines with the same object are the same line, octet for octet;
//!   and so are two whose objects have the same text: `laws::lines_read_back`.
#![tactic(auto)]

mod cut;
mod fitting;
mod forms;
pub mod kinds;
pub mod laws;
mod line;
mod members;
mod object;
mod outcomes;
mod put;
mod texts;

pub use forms::{End, Form, Member, Told, Word};
pub use object::put_object;
pub use texts::objects_of;
