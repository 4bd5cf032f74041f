//! A law over the definitions.
ghost use Rattle.shared_tables.specs.Work.{PaysForAllWork};

/// From new tables on, through whatever calls: what was visited, with the entries that are kept, dead ones included,
/// is at most two for each call.
pub fn pays_for_all_work()
    ensures { PaysForAllWork }
{}
