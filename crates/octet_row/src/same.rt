//! Whether two texts are the same.
ghost use Rattle.std.specs.Prelude.{◌≡◌};
ghost use Rattle.wire.specs.Octets.{is_same};

use byteorder::{ByteOrder, LittleEndian};

/// How many octets are compared at once.
const WORD: usize = 8;

/// Whether two texts have the same octets: eight at a time, since the library's comparison of slices takes 2.4 instructions an
/// octet, and by that the last seven at most.
#[inline]
pub fn is_same(one: &[u8], other: &[u8]) -> bool
    ensures { result ≡ is_same one.now other.now }
{
    if one.len() != other.len() {
        return false;
    }
    let mut at = 0;
    while one.len() - at >= WORD {
        if LittleEndian::read_u64(&one[at..]) != LittleEndian::read_u64(&other[at..]) {
            return false;
        }
        at += WORD;
    }
    one[at..] == other[at..]
}
