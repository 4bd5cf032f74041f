//! A law of what is counted.
ghost use Rattle.capture_compare.specs.SegmentsLaws.{EachRowCountsItsFacts};

/// Each row has as many as the facts that were told have records of its segment.
pub fn each_row_counts_its_facts()
    ensures { EachRowCountsItsFacts }
{}
