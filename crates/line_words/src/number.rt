//! Numbers in decimal digits.
ghost use Rattle.std.specs.Prelude.{◌≡◌};
ghost use Rattle.line_words.specs.Numbers.{byte_of, number_after, number_of, octet_of};

/// The number that a text writes in decimal digits without leading zeros; none for any other text, and from 2^64 on.
pub fn number_of(text: &[u8]) -> Option<u64>
    ensures { result ≡ number_of text.now }
{
    match text {
        [] => None,
        [b'0', _, ..] => None,
        _ => number_after(text),
    }
}

/// The number that digits write.
fn number_after(text: &[u8]) -> Option<u64>
    ensures { result ≡ number_after 0 text.now }
{
    let mut number: u64 = 0;
    let mut rest = text;
    while let [c, behind @ ..] = rest {
        if !c.is_ascii_digit() {
            return None;
        }
        number = number.checked_mul(10)?.checked_add(u64::from(*c - b'0'))?;
        rest = behind;
    }
    Some(number)
}

/// The number of 8 bits that a text writes in decimal digits without leading zeros; none for any other text, and from 256 on.
pub fn octet_of(text: &[u8]) -> Option<u8>
    ensures { result ≡ octet_of text.now }
{
    let number = number_of(text)?;
    byte_of(number)
}

/// The octet of a number; none from 256 on.
fn byte_of(number: u64) -> Option<u8>
    ensures { result ≡ byte_of number }
{
    if number < 256 {
        Some(number as u8)
    } else {
        None
    }
}
