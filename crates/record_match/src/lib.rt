//! Which records of one capture are which of another, where both were captured on one way: at the sender and at the receiver.
//!
//! Use first: a [`Window`] is told of one [`Seen`] record after another of both captures, in the order of their moments. It
//! holds those that were sent and may still be received, and says of each record that is received whether it is one of them:
//! the first that was sent at most so many nanoseconds before, octet for octet and with as many octets missing, and wasn't
//! received yet. It takes its memory when it is made. A [`Comparison`] counts besides, and a [`Clock`] puts the moments of two
//! captures on one clock. An [`Onlooker`] is told what becomes of each record. Captures aren't read here.
//!
//! Specs to read, in order: `specs/Match`, over whole lists, `specs/Laws`, `specs/Window`, `specs/Settled`, `specs/Compared`,
//! `specs/Clock`.
//!
//! Proved: whether a record that is received is told to be one that was sent, what a window holds then, and that it refuses a
//! record exactly where it would hold more than stated. How many are both, and how many are cut, is told as by the whole lists,
//! and so is to whoever looks on what becomes of each record. By the laws of
//! [`laws`] a list that is compared with itself is received whole, each record that is received is one that was sent or
//! lonely, none that is lonely is one that wasn't received, and what a window holds is enough to tell.
//!
//! Proved besides:
//! - A record that is received is told to be the first that was sent at most so many nanoseconds before, octet for
//!   octet, with as many octets missing, and wasn't received yet, or none; what a window holds then is exactly told:
//!   `Window::send`, `receive`.
//! - A record that is sent is refused exactly where more than 1,048,576 records or 268,435,456 octets would be held,
//!   from the first that may still be received on, or more than 2^62 of either would be sent in all: `Window::send`.
//! - How many records of two captures are both, and how many of each are cut, is that of the definitions over their whole
//!   lists, where they come in the order of their moments: `Comparison::send`, `receive`.
//! - Whoever looks on is told once of each record what becomes of it: of each that is received, when it comes, which
//!   one that was sent it is or that it is alone, with its number; of each that was sent and isn't received, when that
//!   is settled: `Window::send`, `receive`, `finish`, `Comparison::send`, `receive`, `finish`. What is told of each
//!   capture stands in its order.
//! - Where the two clocks differ by a shift, a record is received in time exactly where it is at most so far from the
//!   moment at which it was sent, earlier or later: `Clock::shifted`.
//!
//! Why it is so: octets alone, and how many are missing, decide what is the same; a hash only says where to look, so it is a
//! plain sum of 64-bit words, which is cheap. A window knows of each bucket the first and the last record, and of each record the
//! next one of its bucket. What is proved of these numbers is only that no record between them is looked for; so they may be out
//! of date, and where a record goes that isn't the first of its bucket nothing is written.
#![tactic(auto)]

mod bucket;
mod clock;
mod comparison;
mod cut;
mod kept;
pub mod laws;
mod onlooker;
mod seen;
pub mod tables;
mod window;

pub use clock::Clock;
pub use comparison::Comparison;
pub use cut::Cut;
pub use onlooker::{Nobody, Onlooker};
pub use seen::Seen;
pub use window::Window;
