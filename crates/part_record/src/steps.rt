//! The lines of a text, from its front.
ghost use Rattle.std.specs.Prelude.{◌≡◌, ◌≢◌, ◌≤◌, ◌<◌, ◌+◌, ◌^◌, ℕ, List, ◌∷◌, ◌++◌, All, decimal, length, IsTrue, ◌↔◌, MatchOption};
ghost use Rattle.hex.specs.Hex.{encode_lower};
ghost use Rattle.part_record.specs.Record.{IsOneLine, capture_line, line, port_lines, sum_line};
ghost use Rattle.part_record.specs.Sum.{IsSum};
ghost use Rattle.timeline.specs.declared.source.Tap.TheVariants.{Port};

use crate::facts::MOST_PORTS;
use arrayvec::ArrayVec;
use itoa::Buffer;

/// What stands behind a word that a text begins with.
pub(crate) fn behind<'a>(text: &'a str, word: &str) -> Option<&'a str>
    ensures { MatchOption result ((rest : List ℕ) → text.now ≢ word.now ++ rest) (λ rest. text.now ≡ word.now ++ rest.now) }
{
    text.strip_prefix(word)
}

/// The first line without its end, and what stands behind it.
pub(crate) fn first_line(text: &str) -> Option<(&str, &str)>
    ensures { MatchOption result ((told rest : List ℕ) → text.now ≢ told ++ 10 ∷ rest)
        (λ found. (text.now ≡ found.0.now ++ 10 ∷ found.1.now) × IsOneLine found.0.now) }
{
    text.split_once('\n')
}

/// The 64 hexadecimal digits of a digest, in lower case.
pub(crate) fn digits_of(sum: &[u8; 32]) -> [u8; 64]
    ensures { result ≡ encode_lower sum.now }
{
    let mut digits = [0; 64];
    let _written = hex::encode_to_slice(sum, &mut digits);
    digits
}

/// The digest of these 64 digits.
fn sum_of(digits: &[u8]) -> Option<[u8; 32]>
    ensures { MatchOption result ((sum : List ℕ) → IsSum sum → digits.now ≢ encode_lower sum)
        (λ sum. IsSum sum × (digits.now ≡ encode_lower sum)) }
{
    let mut sum = [0; 32];
    if hex::decode_to_slice(digits, &mut sum).is_err() {
        return None;
    }
    let again = digits_of(&sum);
    if is_same(again.as_slice(), digits) {
        Some(sum)
    } else {
        None
    }
}

/// Whether two texts have the same octets.
pub(crate) fn is_same(a: &[u8], b: &[u8]) -> bool
    ensures { IsTrue result ↔ (a.now ≡ b.now) }
{
    a == b
}

/// The number of these decimal digits, without zeros in front.
pub(crate) fn number_of(digits: &str) -> Option<u64>
    ensures { MatchOption result ((n : ℕ) → n < 2 ^ 64 → digits.now ≢ decimal n)
        (λ n. (n < 2 ^ 64) × (digits.now ≡ decimal n)) }
{
    match digits.parse::<u64>() {
        Ok(number) => {
            let mut buffer = Buffer::new();
            let again = buffer.format(number);
            if is_same(again.as_bytes(), digits.as_bytes()) {
                Some(number)
            } else {
                None
            }
        }
        Err(_) => None,
    }
}

/// The digest on the line of a word, and what stands behind the line.
pub(crate) fn sum_behind<'a>(text: &'a str, word: &str) -> Option<([u8; 32], &'a str)>
    ensures { MatchOption result ((sum rest : List ℕ) → IsSum sum → text.now ≢ sum_line word.now sum ++ rest)
        (λ found. IsSum found.0 × (text.now ≡ sum_line word.now found.0 ++ found.1.now)) }
{
    let told = behind(text, word)?;
    let Some((digits, rest)) = first_line(told) else {
        return None;
    };
    let Some(sum) = sum_of(digits.as_bytes()) else {
        return None;
    };
    Some((sum, rest))
}

/// The digest on the line of a port's capture, and what stands behind the line.
fn port_sum(text: &str, port: u8) -> Option<([u8; 32], &str)>
    ensures { MatchOption result ((sum rest : List ℕ) → IsSum sum → text.now ≢ capture_line (Port port) sum ++ rest)
        (λ found. IsSum found.0 × (text.now ≡ capture_line (Port port) found.0 ++ found.1.now)) }
{
    let mut buffer = Buffer::new();
    let numbered = behind(text, "capture p")?;
    let told = behind(numbered, buffer.format(port))?;
    sum_behind(told, " ")
}

/// The digests on the lines of the ports' captures, 255 at most, and what stands behind these lines.
pub(crate) fn ports_of(text: &str) -> (ArrayVec<[u8; 32], MOST_PORTS>, &str)
    ensures read { text.now ≡ port_lines 1 result.0.items ++ result.1.now }
    ensures sums { All IsSum result.0.items }
    ensures few { length result.0.items ≤ 255 }
    ensures all { (sum rest : List ℕ) → IsSum sum → length result.0.items < 255
        → result.1.now ≢ capture_line (Port (length result.0.items + 1)) sum ++ rest }
{
    let mut sums = ArrayVec::new();
    let mut rest = text;
    while !sums.is_full() {
        let port = sums.len() as u8 + 1;
        let Some(found) = port_sum(rest, port) else {
            return (sums, rest);
        };
        let sum = found.0;
        sums.push(sum);
        rest = found.1;
    }
    (sums, rest)
}

/// The number on the line of a word, and what stands behind the line.
pub(crate) fn number_behind<'a>(text: &'a str, word: &str) -> Option<(u64, &'a str)>
    ensures { MatchOption result ((n : ℕ) (rest : List ℕ) → n < 2 ^ 64 → text.now ≢ line word.now (decimal n) ++ rest)
        (λ found. (found.0 < 2 ^ 64) × (text.now ≡ line word.now (decimal found.0) ++ found.1.now)) }
{
    let told = behind(text, word)?;
    let Some((digits, rest)) = first_line(told) else {
        return None;
    };
    let Some(number) = number_of(digits) else {
        return None;
    };
    Some((number, rest))
}
