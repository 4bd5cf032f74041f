//! What a block tells.
use pcapng_input::PcapngFault;

/// What a block tells.
#[derive(Clone, Copy)]
pub enum Taken {
    /// Nothing that goes into a capture.
    Nothing,
    /// The interface with this number was described.
    Described(u32),
    /// A packet of the interface with this number.
    Packet(u32),
    /// The fault that the text has for all interfaces.
    Refused(PcapngFault),
}
