//! Numbers in the byte order of a section.
ghost use Rattle.std.specs.Prelude.{◌≡◌, ◌≤◌, length};
ghost use Rattle.pcap.specs.Style.{number_of};

use byteorder::{BigEndian, ByteOrder, LittleEndian};
use pcap::text::Order;

/// The number in the first 2 octets.
pub fn number2(order: Order, text: &[u8]) -> u16
    requires { 2 ≤ length text.now }
    ensures { result ≡ number_of order 2 text.now }
{
    match order {
        Order::Big => BigEndian::read_u16(text),
        Order::Little => LittleEndian::read_u16(text),
    }
}

/// The number in the first 4 octets.
pub fn number4(order: Order, text: &[u8]) -> u32
    requires { 4 ≤ length text.now }
    ensures { result ≡ number_of order 4 text.now }
{
    match order {
        Order::Big => BigEndian::read_u32(text),
        Order::Little => LittleEndian::read_u32(text),
    }
}

/// The number in the first 8 octets.
pub fn number8(order: Order, text: &[u8]) -> u64
    requires { 8 ≤ length text.now }
    ensures { result ≡ number_of order 8 text.now }
{
    match order {
        Order::Big => BigEndian::read_u64(text),
        Order::Little => LittleEndian::read_u64(text),
    }
}
