//! What the JSON object of a decision tells: laws over the definitions of `decision_objects` and `decision_lines`.
//!
//! Use first: [`laws::objects_read_back`] says that an object tells all that the decision line of the same event tells, and
//! [`laws::runs_read_back`] that the objects of a run tell all that its decision lines tell.
//!
//! Specs to read, in order: `specs/ReadBack`, `specs/WholeRuns`.
//!
//! Proved: two events whose objects are the same text have the same decision line, octet for octet, whatever they were answered;
//! and so have two captures that end with a cut rest. Two outputs that are the same text, of any such objects one behind another,
//! are of the same lines, one by one. So two runs, or parts of them, of any settings, changes and captures each, have the same
//! decision lines where their objects are the same text. No number, place or length need be bounded for it.
//!
//! Why it is so: the keys of an object stand in one order, so its kind shows at the first key that another kind has not. What is
//! told between two keys lacks the octet that ends it: a number is of digits alone, and no name, place or source has a quotation
//! mark. So it is the same in both objects, one part after another, and the line is made of the same parts. The laws stand above
//! the definitions, so that a change of these proves them again and not the other way round.

pub mod laws;
