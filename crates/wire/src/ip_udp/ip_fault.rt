//! Why octets are no IP packet.
use thiserror::Error;

/// Why octets are no IP packet, in the order of the checks.
#[derive(Clone, Copy, Debug, PartialEq, Eq, Error)]
pub enum IpFault {
    /// The header is cut or has another version, or tells a length below its own or beyond what is there.
    #[error("BadIp")]
    BadIp,
    /// The IPv4 header checksum is wrong (RFC 791, 3.1).
    #[error("BadIpSum")]
    BadIpSum,
}
