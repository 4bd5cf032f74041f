//! Forms of decision lines, and of others.
use json_lines::{Form, form};

/// All of them.
pub(super) static FORMS: [Form; 5] = [
    // A change that was made.
    form!([Number, Text, "c", Number, NumberOrNothing, "done"] => {
        "answer": "done", "change": [3], "event": [0], "moment": [1], "segment": [4]
    }),
    // A drop.
    form!([Number, Text, Text, Number, NumberOrNothing, "drop", Number, Text] => {
        "event": [0], "moment": [1], "reason": [7], "record": [3], "segment": [4], "source": [2], "test": [6]
    }),
    // A decision with outcomes.
    form!([Number, Text, Text, Number, NumberOrNothing; Outcomes] => {
        "event": [0], "moment": [1], "record": [3], "segment": [4], "sent": Outcomes, "source": [2]
    }),
    // A remark: what stands behind the word is one text.
    form!(["remark"; Rest] => { "kind": [0], "rest": Rest }),
    // A line that is told without its words.
    form!(["bare"] => {}),
];
