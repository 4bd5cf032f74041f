//! Laws of sums.
ghost use Rattle.octet_sums.specs.Laws.{NoticesAnOctet};

/// A changed octet changes the first sum.
pub fn one_octet()
    ensures { NoticesAnOctet }
{}
