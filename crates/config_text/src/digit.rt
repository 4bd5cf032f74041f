//! Hexadecimal digits, and the pairs of them that a MAC address writes.
ghost use Rattle.std.specs.Prelude.{◌≡◌, ◌<◌, IfSome};
ghost use Rattle.config_text.specs.Address.{hex_digit};

use crate::parts::Part;

/// The value of a hexadecimal digit of either case.
fn hex_digit(c: u8) -> Option<u8>
    ensures value { result ≡ hex_digit c }
    ensures small { IfSome result (λ d. d < 16) }
{
    match c {
        b'0'..=b'9' => Some(c - b'0'),
        b'a'..=b'f' => Some(c - b'a' + 10),
        b'A'..=b'F' => Some(c - b'A' + 10),
        _ => None,
    }
}

/// Two hexadecimal digits.
pub(crate) struct HexPair;

impl Part for HexPair {
    type Out = u8;

    ghost use Rattle.config_text.specs.Address.{hex_pair};

    ghost reads = { hex_pair };

    fn read(text: &[u8]) -> Option<u8> {
        match text {
            [high, low] => Some(16 * hex_digit(*high)? + hex_digit(*low)?),
            _ => None,
        }
    }
}
