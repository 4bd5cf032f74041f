//! Laws over the definitions.
ghost use Rattle.line_words.specs.Numbers.{ReadsDecimals, WritesDecimals};

/// A number below 2^64 is read from its decimal digits.
pub fn decimals_read_back()
    ensures { ReadsDecimals }
{}

/// From no other text is it read.
pub fn numbers_are_decimals()
    ensures { WritesDecimals }
{}
