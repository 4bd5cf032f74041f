//! A page that shows what a run gave: HTML 5 with one style and pictures in SVG 2, and nothing from elsewhere.
//!
//! Use first: [`write_page`] writes the page of what was counted (`report_counts`) into an output, piece by piece. Each part of
//! the page is a small value that prints as its text, but for the senders of up to 4,096 talks, 196 KiB on the stack. Nothing is
//! counted here, and no memory is asked for.
//!
//! Specs to read, in order: `specs/Texts`, `specs/Escaped`, `specs/Moment`, `specs/Duration`, `specs/Series`, `specs/Path`,
//! `specs/Picture`, `specs/Order`, `specs/Reasons`, then a file for each section, `specs/Facts`, `specs/Short`, `specs/OverTime`,
//! `specs/Places`, `specs/Segments`, `specs/Drops`, `specs/Matrix`, `specs/Told`, `specs/FirstDrops`, and `specs/Page`.
//! `specs/Senders` serves the search for moves.
//!
//! Proved: the whole page, octet for octet, so each number on it is the one that was counted, at its place; and that no text of
//! others is markup ([`escaped_has_no_markup`], [`escaped_has_no_loose_ampersand`]).
//!
//! Proved besides:
//! - The page that is written is exactly the stated one, octet for octet: so each number on it is the one that was
//!   counted, at its place, each bar and each point stands as high as its number is of the greatest, and each square is
//!   so dark: `write_page`. A fault comes with a part of it.
//! - Nothing of the texts of others, names of places, the folder and what `tep run` printed, is markup: an escaped text
//!   has no `<`, no `>` and no quotes, and no `&` but those of entities: `escaped_has_no_markup`,
//!   `escaped_has_no_loose_ampersand`.
#![tactic(auto)]

mod chosen;
mod drops;
mod duration;
mod each;
mod escaped;
mod facts;
mod first_drops;
mod laws;
mod lines;
mod matrix;
mod moment;
mod moves;
mod order;
mod over_time;
mod page;
mod pair_rows;
mod path;
mod pen;
mod picture;
mod places;
mod ranks;
mod reason_order;
mod reasons;
mod segments;
mod senders;
mod series;
mod short;
mod shown;
mod squares;
mod style;
mod talks;
mod told;
mod told_rows;

pub use laws::{escaped_has_no_loose_ampersand, escaped_has_no_markup};
pub use page::{RunFolder, write_page};
