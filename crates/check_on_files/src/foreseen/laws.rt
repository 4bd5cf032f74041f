//! Laws of the definitions, as contracts of functions that do nothing.
ghost use Rattle.check_on_files.specs.Foreseen.{TellsEachRefusal, TellsNothingOfTables};

/// Of each change it is told exactly once that the settings in force at its turn refuse it, where they do, and of no
/// other is anything told.
pub fn each_refusal()
    ensures { TellsEachRefusal }
{}

/// Whatever an endpoint's tables hold, it refuses a change that its settings refuse with the fault that is told, and any
/// other, if at all, with one of its tables.
pub fn whatever_the_tables()
    ensures { TellsNothingOfTables }
{}
