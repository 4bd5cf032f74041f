//! Lines of what a run counted.
ghost use Rattle.json_lines.specs.ReadBack.{AreWhole};

use crate::{Form, form};

static COUNTS: [Form; 13] = [
    form!(["segment", Number, "sent", Number] => { "count": [3], "line": [2], "segment": [1] }),
    form!(["segment", Number, "dropped", Number, Text, Number] => {
        "count": [5], "line": [2], "name": [4], "reason": [3], "segment": [1]
    }),
    form!(["segment", "none", "dropped", Number, Text, Number] => {
        "count": [5], "line": [2], "name": [4], "reason": [3]
    }),
    form!(["change", "refused", Number, Text, Number] => {
        "cause": [2], "count": [4], "line": [1], "name": [3]
    }),
    // A place, in or out.
    form!(["place", Text, Text, Number, Number] => {
        "count": [3], "direction": [2], "line": [0], "octets": [4], "place": [1]
    }),
    form!(["checksum", "partial", Number] => { "count": [2], "line": [0] }),
    form!(["cut", Text, Number] => { "line": [0], "records": [2], "source": [1] }),
    form!(["unknown", "others", Number] => { "count": [2], "line": [0] }),
    form!(["unknown", Text, Number, "from", Text, Number] => {
        "count": [5], "kind": [1], "line": [0], "sender": [4], "vni": [2]
    }),
    form!(["remote", Text, "in", Number, Number, "out", Number, Number] => {
        "in": [3], "in_octets": [4], "line": [0], "out": [6], "out_octets": [7], "remote": [1]
    }),
    form!(["talk", "others", Number, Number, "first", Text, "last", Text] => {
        "count": [2], "first": [5], "last": [7], "line": [0], "octets": [3]
    }),
    form!(["talk", Number, Text, Text, ">", Text, Text, Number, Number, "first", Text, "last", Text] => {
        "count": [7], "destination_address": [5], "first": [10], "from": [3], "last": [12], "line": [0],
        "octets": [8], "segment": [1], "source_address": [2], "to": [6]
    }),
    form!(["talk", Number, Text, Text, ">", Text, Text, Number, Number, "first", Text, "last", Text, "short", Number] => {
        "count": [7], "destination_address": [5], "first": [10], "from": [3], "last": [12], "line": [0],
        "octets": [8], "segment": [1], "short": [14], "source_address": [2], "to": [6]
    }),
];

/// The lines of a summary, and of who talks to whom.
#[tactic(auto, using(crate::proofs::Whole::whole_forms))]
pub(crate) fn count_forms() -> &'static [Form]
    ensures { AreWhole result.now }
{
    &COUNTS
}
