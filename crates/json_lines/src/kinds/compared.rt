//! Lines of comparisons: counts and delays.
ghost use Rattle.json_lines.specs.ReadBack.{AreWhole};

use crate::{Form, form};

static COMPARED: [Form; 16] = [
    form!(["sent", "alone", Number] => { "count": [2], "line": "sent alone" }),
    form!(["received", "alone", Number] => { "count": [2], "line": "received alone" }),
    // What is sent, received or both, and delays.
    form!([Text, Number] => { "count": [1], "line": [0] }),
    form!([TextBefore(b':'), "sent", NumberBefore(b','), "received", NumberBefore(b','), "both",
        NumberBefore(b','), "sent", "alone", NumberBefore(b','), "received", "alone", Number] => {
        "both": [6], "line": "counts", "place": [0], "received": [4], "received_alone": [12], "sent": [2],
        "sent_alone": [9]
    }),
    form!(["segment", NumberBefore(b':'), "sent", NumberBefore(b','), "received", NumberBefore(b','),
        "both", NumberBefore(b','), "sent", "alone", NumberBefore(b','), "received", "alone", Number] => {
        "both": [7], "line": [0], "received": [5], "received_alone": [13], "segment": [1], "sent": [3],
        "sent_alone": [10]
    }),
    form!(["no", "segment:", "sent", NumberBefore(b','), "received", NumberBefore(b','), "both",
        NumberBefore(b','), "sent", "alone", NumberBefore(b','), "received", "alone", Number] => {
        "both": [7], "line": "no segment", "received": [5], "received_alone": [13], "sent": [3],
        "sent_alone": [10]
    }),
    // Of two captures that stand for themselves `doubled` is told as what is sent is.
    form!([TextBefore(b':'), "doubled", Number] => { "count": [2], "line": [1], "place": [0] }),
    form!(["behind", "another", Number] => { "count": [2], "line": "behind another" }),
    form!([TextBefore(b':'), "behind", "another", Number] => {
        "count": [3], "line": "behind another", "place": [0]
    }),
    form!(["cut:", "sent", NumberBefore(b','), "received", Number] => {
        "line": "cut records", "received": [4], "sent": [2]
    }),
    form!([TextBefore(b':'), "cut:", "sent", NumberBefore(b','), "received", Number] => {
        "line": "cut records", "place": [0], "received": [5], "sent": [3]
    }),
    // A capture that ends within a record.
    form!([TextBefore(b':'), "cut"] => { "line": "ends cut", "side": [0] }),
    form!([TextBefore(b':'), TextBefore(b':'), "cut"] => { "line": "ends cut", "place": [0], "side": [1] }),
    form!([TextBefore(b':'), "no", "capture"] => { "line": "no capture", "place": [0] }),
    form!(["length", NumberBefore(b':'), "both", NumberBefore(b','), "sent", "alone", NumberBefore(b','),
        "received", "alone", Number] => {
        "both": [3], "length": [1], "line": [0], "received_alone": [9], "sent_alone": [6]
    }),
    form!([TextBefore(b':'), "length", NumberBefore(b':'), "both", NumberBefore(b','), "sent", "alone",
        NumberBefore(b','), "received", "alone", Number] => {
        "both": [4], "length": [2], "line": [1], "place": [0], "received_alone": [10], "sent_alone": [7]
    }),
];

/// The counts of what is compared, and what of it is cut.
#[tactic(auto, using(crate::proofs::Whole::whole_forms))]
pub(crate) fn compared_forms() -> &'static [Form]
    ensures { AreWhole result.now }
{
    &COMPARED
}

static DELAYS: [Form; 5] = [
    form!([TextBefore(b':'), "delays", Number] => { "count": [2], "line": [1], "place": [0] }),
    // The least, the median, the greatest and the step.
    form!(["delay", Text, Text] => { "delay": [1], "line": [0], "nanoseconds": [2] }),
    form!([TextBefore(b':'), "delay", Text, Text] => {
        "delay": [2], "line": [1], "nanoseconds": [3], "place": [0]
    }),
    form!(["delay", "99", "in", "100", Text] => { "delay": "99 in 100", "line": [0], "nanoseconds": [4] }),
    form!([TextBefore(b':'), "delay", "99", "in", "100", Text] => {
        "delay": "99 in 100", "line": [1], "nanoseconds": [5], "place": [0]
    }),
];

/// The delays of what is both.
#[tactic(auto, using(crate::proofs::Whole::whole_forms))]
pub(crate) fn delay_forms() -> &'static [Form]
    ensures { AreWhole result.now }
{
    &DELAYS
}
