//! Lines of tables.
ghost use Rattle.json_lines.specs.ReadBack.{AreWhole};

use crate::{Form, form};

static TABLES: [Form; 2] = [
    form!(["segment", Number, Text, Text, "fixed"] => {
        "address": [2], "line": "fixed", "place": [3], "segment": [1]
    }),
    form!(["segment", Number, Text, Text, "seen", Text, "age", Text] => {
        "address": [2], "age": [7], "line": "learned", "moment": [5], "place": [3], "segment": [1]
    }),
];

/// The entries of tables.
#[tactic(auto, using(crate::proofs::Whole::whole_forms))]
pub(crate) fn entry_forms() -> &'static [Form]
    ensures { AreWhole result.now }
{
    &TABLES
}
