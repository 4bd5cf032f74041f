//! What an operator writes: the settings of a tunnel endpoint, and the changes made to them while it runs, each as a TOML
//! document.
//!
//! Use first: [`settings_of`] reads [`Settings`], which keep to every rule there is for them, and [`changes_of`] a list of
//! [`TimedChange`], each a [`Change`] and its moment. Both answer the first fault instead, with the path of its key.
//! [`migrate`] writes settings of version 1 as version 2. What is read stands in `overlay::settings`, which knows no text.
//!
//! Specs to read: `specs/Settings` and `specs/Segment`, then the tables below them; `specs/Before`, what settings meant
//! before there were limits, and changes before they had a version; `specs/Change`; `specs/Migrate`.
//!
//! Proved: every text of settings or changes has one meaning, itself or its first fault with its key, and is read as exactly
//! that, unless memory is refused. What a text means keeps to every rule (`laws::meanings`), and the moments of changes
//! don't fall. Settings that aren't of version 3, and those that ask for no limits, mean what they meant before there were
//! any (`laws::before_limits`); and settings of version 2 mean the same as version 3 (`laws::third_versions`). Changes that
//! tell no version mean what they meant before they could, and the same in version 2 (`laws::unversioned_changes`).
//! `migrate` answers a text that is read as the table of the old text in version 2 and means the same settings, or the fault
//! of `settings_of`; what is migrated stays as it is when it's migrated again (`laws::migrations`).
//!
//! Proved besides:
//! - Every text of settings or changes has one meaning, itself or its first fault with its key, and is read as exactly
//!   that, unless memory is refused. `NotToml` comes where the text isn't UTF-8 or isn't a TOML document:
//!   `settings_of`, `changes_of`.
//!
//! Why it is so: versions 1 and 2 differ in a segment's row alone: its keys, and how its tunnels and its flood list are read
//! (`src/tunnel.rt`). Version 3 has one key of the underlay more, and a table of limits (`src/limits.rt`), where another
//! limit is a key of its own. All other keys, what a segment means and the rules that it keeps to are the same, so the
//! endpoint knows no version. A segment's row is read in two, its local keys, and its tunnels with their flood list, so that
//! another version of the text can change the tunnels alone.
#![tactic(auto)]

mod change_row;
mod common_rules;
mod document;
mod flood;
mod kind;
mod known;
pub mod laws;
mod limits;
mod local_rules;
mod members;
mod migration;
mod nesting;
mod port;
mod segment;
mod settings;
mod tunnel;
mod underlay_table;
mod version;

pub use change_row::changes_of;
pub use config_text::{Key, SettingsFault};
pub use migration::migrate;
pub use overlay::settings::{Change, NewSegment, SegmentRule, Settings, Target, TimedChange};
pub use settings::settings_of;
