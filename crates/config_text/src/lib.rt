//! TOML tables (TOML 1.1) read key by key: a value for each key, or the first fault and the path of its key.
//!
//! Use first: [`Reader`] stands at one table and asks for its keys in order, each by a [`Column`] that says what its values
//! mean; a list under one key is read by a [`ListColumn`], a list of tables by a [`ListRow`] for each. [`SettingsFault`] is what
//! can be wrong, with its [`Key`]. [`mac_of`] and [`addr_of`] read addresses, and [`cut`] parts a text at a separator.
//!
//! Specs to read: `specs/Fault`, then `specs/Table` and `specs/Column`; `specs/Address` for the texts of addresses.
//!
//! Proved: a table is read key by key as its definition says, or with the first fault and its key: required, optional and
//! defaulted keys, lists and lists of tables, these unless memory is refused. MAC, IPv4 and IPv6 texts mean exactly their
//! definitions, and a text is parted at its first separator.
//!
//! Why it is so: reading TOML is a crate of its own below the settings. It knows keys, columns and addresses, no settings,
//! and no key by name.
#![tactic(auto)]

mod address;
mod column;
mod digit;
mod fault;
mod key;
mod list_column;
mod parts;
mod reader;
mod row;

pub use address::{addr_of, ip4_of, ip6_of, mac_of};
pub use column::{
    AnyAddr, AnyMac, Column, EndpointAddr, IndividualMac, OwnIp4, OwnIp6, Truth, U8Range, U16Range,
    U32Range, U64Range, VidNumber, Words,
};
pub use fault::SettingsFault;
pub use key::Key;
pub use list_column::{ListColumn, gather};
pub use parts::cut;
pub use reader::Reader;
pub use row::{ListRow, read_rows};
