//! Laws of tables.
ghost use Rattle.record_match.specs.TablesLaws.{EachRowIsOfItsFacts, ItIsOfItsDelays};

/// Each row of a table is that of the facts of its length, whatever was told besides.
pub fn each_row_is_of_its_facts()
    ensures { EachRowIsOfItsFacts }
{}

/// A table of delays is one of the delays of all facts that were told to it.
pub fn it_is_of_its_delays()
    ensures { ItIsOfItsDelays }
{}
