//! Why a text of settings or changes is refused, and where: what stands below the line of its first fault.
//!
//! Use first: [`advice`] tells of a [`SettingsFault`](config_text::SettingsFault) the line and the column of its key, or of
//! its table's header, what was found there, and what is allowed; of a key that its table doesn't have, the keys that it has
//! and the one that is nearest; and of a text that is no TOML, the line and the parser's reason, which [`syntax_error_at`]
//! gets. [`SETTINGS_KEYS`] and [`CHANGE_KEYS`] are the tables of all keys, and [`SETTINGS_SENTENCES`] and
//! [`CHANGE_SENTENCES`] what is allowed under each.
//!
//! Specs to read: `specs/Advice`, then `specs/Told` and `specs/Search`; `specs/Known`, `specs/Allowed` and `specs/Near` for
//! keys.
//!
//! Proved: what is told is exactly the stated function of the kind of text, its name, its octets, the fault and the place
//! where it stops being TOML. [`syntax_error_at`] answers None just where the text is UTF-8 and a TOML document, and a place
//! lies within the text. Lines, keys and the nearest key are found as the definition says.
//!
//! Why it is so: why a text is refused is told by a search of its lines, apart from the parser, which keeps no places of
//! keys. The search is simple: it knows headers and keys without quotes. What is written another way, as by a dotted key or
//! in an inline table, has no line, and the rest is told without. Of a value that goes over several lines the search takes
//! each for a line of its own. The fault itself stays the one that is proved.
#![tactic(auto)]

mod allowed;
mod allowed_changes;
mod block;
mod known;
mod line;
mod near;
mod path;
mod place;
mod report;
mod search;
mod split;
mod syntax;
mod told;

pub use allowed::{SETTINGS_SENTENCES, Sentence};
pub use allowed_changes::CHANGE_SENTENCES;
pub use known::{CHANGE_KEYS, SETTINGS_KEYS, TableKeys, TextKind};
pub use report::advice;
pub use syntax::{SyntaxError, syntax_error_at};
