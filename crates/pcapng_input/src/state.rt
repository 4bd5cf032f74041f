//! Where an adapted input stands.
use crate::fault::PcapngFault;
use pcap::text::Order;

/// Where an adapted input stands.
#[derive(Clone, Copy)]
pub enum State {
    /// In front of the first four octets, by which the format is told.
    Begun,
    /// In a text that is told as it is.
    Plain,
    /// In a block that is read.
    Within,
    /// So many octets in front of the second length of a block that is passed over.
    Passing {
        order: Order,
        size: usize,
        left: usize,
    },
    /// In a block for which memory was refused.
    NoMemory,
    /// At the end.
    Over,
    /// At a fault.
    Faulty(PcapngFault),
}
