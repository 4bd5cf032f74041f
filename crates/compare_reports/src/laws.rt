//! Laws of what is told.
ghost use Rattle.compare_reports.specs.Doubled.{DoubledIsOfItsFacts};
ghost use Rattle.compare_reports.specs.Printed.{BehindIsOfItsFacts};

/// What is told to be behind another is just what the facts that were told have of it.
pub fn behind_is_of_its_facts()
    ensures { BehindIsOfItsFacts }
{}

/// What is told to be doubled is just what the facts that were told have of it.
pub fn doubled_is_of_its_facts()
    ensures { DoubledIsOfItsFacts }
{}
