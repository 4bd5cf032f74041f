//! Times in a text.
ghost use Rattle.std.specs.Prelude.{◌≡◌, ℕ, MatchOption};
ghost use Rattle.command_line.specs.Time.{IsIn, IsTime, size_of, word_of};

use line_words::number_of;

/// A unit of time.
#[derive(Clone, Copy)]
pub(crate) enum Unit {
    /// `ns`
    Nanosecond,
    /// `us`
    Microsecond,
    /// `ms`
    Millisecond,
    /// `s`
    Second,
}

impl Unit {
    /// How it is written.
    fn word(self) -> &'static [u8]
        ensures { result.now ≡ word_of self }
    {
        match self {
            Unit::Nanosecond => b"ns",
            Unit::Microsecond => b"us",
            Unit::Millisecond => b"ms",
            Unit::Second => b"s",
        }
    }

    /// How many nanoseconds it is.
    fn size(self) -> u64
        ensures { result ≡ size_of self }
    {
        match self {
            Unit::Nanosecond => 1,
            Unit::Microsecond => 1_000,
            Unit::Millisecond => 1_000_000,
            Unit::Second => 1_000_000_000,
        }
    }

    /// The nanoseconds of a text in this unit.
    fn time_in(self, text: &[u8]) -> Option<u64>
        ensures { MatchOption result ((t : ℕ) → IsIn self text.now t → ⊥) (λ t. IsIn self text.now t) }
    {
        let digits = text.strip_suffix(self.word())?;
        number_of(digits)?.checked_mul(self.size())
    }
}

/// The nanoseconds of a time, as `500us`, `10ms` or `1s`: a number in decimal digits without leading zeros, and `ns`, `us`, `ms`
/// or `s`. None: the text is no such time, or one of 2^64 nanoseconds or more.
pub fn time_of(text: &str) -> Option<u64>
    ensures { MatchOption result ((t : ℕ) → IsTime text.now t → ⊥) (λ t. IsTime text.now t) }
{
    let text = text.as_bytes();
    if let Some(time) = Unit::Nanosecond.time_in(text) {
        return Some(time);
    }
    if let Some(time) = Unit::Microsecond.time_in(text) {
        return Some(time);
    }
    if let Some(time) = Unit::Millisecond.time_in(text) {
        return Some(time);
    }
    Unit::Second.time_in(text)
}
