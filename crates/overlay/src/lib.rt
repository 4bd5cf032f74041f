//! What an endpoint is told of its overlay: its local ports and who belongs to which segment, flood lists, the underlay with the
//! tunnels of each segment, and the settings that have it all.
//!
//! Use first: [`settings::Settings`] keep to every rule there is; [`ports::PortSet`] and [`underlay::Overlay`] are made of them;
//! [`flood::FloodList`] is the list of one segment.
//!
//! Specs to read: those that each module names, `specs/Ports`, `specs/Flood`, `specs/Overlay` and `specs/Rules` first.
//!
//! Proved: what each module says.
#![tactic(auto)]

pub mod flood;
pub mod ports;
pub mod settings;
pub mod underlay;
