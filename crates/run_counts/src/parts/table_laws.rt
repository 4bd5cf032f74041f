//! Laws over the definitions.
ghost use Rattle.run_counts.specs.Tables.{HasNoRows};
ghost use Rattle.run_counts.specs.Whole.{AreWhole};

/// A text that is refused for a line is the lines of no rows.
pub fn refused_have_no_rows()
    ensures { HasNoRows }
{}

/// The rows of the tables that the parts of a run told, each of its own segments and all segments among them, are side by side
/// the tables that the whole run tells.
pub fn parts_are_whole()
    ensures { AreWhole }
{}
