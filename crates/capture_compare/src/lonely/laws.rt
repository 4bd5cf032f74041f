//! Laws of keys, and of what is counted.
ghost use Rattle.capture_compare.specs.DifferingLaws.{EachPairHasARow, EachRowCountsItsPairs};
ghost use Rattle.capture_compare.specs.LonelyLaws.{KeyIsRead, OthersAreNot};

/// The key of what a tunnel carries is read as just that, and no other key is read as anything.
pub fn key_is_read()
    ensures read { KeyIsRead }
    ensures others { OthersAreNot }
{}

/// Pairs, counted one after another, make each row that of its pairs: it has the first of them and how many there are. None has no row
/// while there are fewer than 1,024.
pub fn each_row_counts_its_pairs()
    ensures each { EachRowCountsItsPairs }
    ensures none { EachPairHasARow }
{}
