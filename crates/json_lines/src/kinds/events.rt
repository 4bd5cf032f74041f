//! Decision lines, and what tests saw of an event.
ghost use Rattle.json_lines.specs.ReadBack.{AreWhole};

use crate::{Form, form};

static EVENTS: [Form; 5] = [
    form!([Number, Text, Text, Number, NumberOrNothing; Outcomes] => {
        "event": [0], "moment": [1], "number": [3], "outcomes": Outcomes, "result": "sent", "segment": [4],
        "source": [2]
    }),
    form!([Number, Text, Text, Number, NumberOrNothing, "drop", Number, Text] => {
        "event": [0], "moment": [1], "name": [7], "number": [3], "reason": [6], "result": "drop",
        "segment": [4], "source": [2]
    }),
    form!([Number, Text, Text, Number, NumberOrNothing, "done"] => {
        "event": [0], "moment": [1], "number": [3], "result": "done", "segment": [4], "source": [2]
    }),
    form!([Number, Text, Text, Number, NumberOrNothing, "refused", Number, Text] => {
        "cause": [6], "event": [0], "moment": [1], "name": [7], "number": [3], "result": "refused",
        "segment": [4], "source": [2]
    }),
    form!(["cut", Text, Number] => { "records": [2], "result": "cut", "source": [1] }),
];

/// The lines of events, and of cut captures.
#[tactic(auto, using(crate::proofs::Whole::whole_forms))]
pub(crate) fn event_forms() -> &'static [Form]
    ensures { AreWhole result.now }
{
    &EVENTS
}

static FACTS: [Form; 1] = [form!(["", ""; Rest] => { "fact": Rest })];

/// What the tests of an event saw, above its decision line.
#[tactic(auto, using(crate::proofs::Whole::whole_forms))]
pub(crate) fn fact_forms() -> &'static [Form]
    ensures { AreWhole result.now }
{
    &FACTS
}
