//! Lines of records that are of one capture alone, and of what of near ones differs.
ghost use Rattle.json_lines.specs.ReadBack.{AreWhole};

use crate::{Form, form};

static LONELY_SENT: [Form; 9] = [
    form!([Text, "sent", "alone", "length", Number, "record", Number] => {
        "length": [4], "line": "sent alone", "moment": [0], "record": [6]
    }),
    form!([Text, Text, "sent", "alone", "length", Number, "record", Number, "vlan", Number, "event", Number] => {
        "event": [11], "length": [5], "line": "sent alone", "moment": [0], "place": [1], "record": [7],
        "vid": [9], "where": [8]
    }),
    form!([Text, Text, "sent", "alone", "length", Number, "record", Number, "untagged", "event", Number] => {
        "event": [10], "length": [5], "line": "sent alone", "moment": [0], "place": [1], "record": [7],
        "where": [8]
    }),
    form!([Text, Text, "sent", "alone", "length", Number, "record", Number, "no", "tunnel", "event", Number] => {
        "event": [11], "length": [5], "line": "sent alone", "moment": [0], "place": [1], "record": [7],
        "where": "no tunnel"
    }),
    form!([Text, Text, "sent", "alone", "length", Number, "record", Number, Text, Number, "event", Number] => {
        "event": [11], "length": [5], "line": "sent alone", "moment": [0], "place": [1], "record": [7],
        "vni": [9], "where": [8]
    }),
    // The next four: what was sent alone and is near one that was received alone; what differs stands behind.
    form!([Text, Text, "sent", "alone", "length", Number, "record", Number, "vlan", Number, "event",
        Number; Rest] => {
        "differs": Rest, "event": [11], "length": [5], "line": "sent alone", "moment": [0], "place": [1],
        "record": [7], "vid": [9], "where": [8]
    }),
    form!([Text, Text, "sent", "alone", "length", Number, "record", Number, "untagged", "event",
        Number; Rest] => {
        "differs": Rest, "event": [10], "length": [5], "line": "sent alone", "moment": [0], "place": [1],
        "record": [7], "where": [8]
    }),
    form!([Text, Text, "sent", "alone", "length", Number, "record", Number, "no", "tunnel", "event",
        Number; Rest] => {
        "differs": Rest, "event": [11], "length": [5], "line": "sent alone", "moment": [0], "place": [1],
        "record": [7], "where": "no tunnel"
    }),
    form!([Text, Text, "sent", "alone", "length", Number, "record", Number, Text, Number, "event",
        Number; Rest] => {
        "differs": Rest, "event": [11], "length": [5], "line": "sent alone", "moment": [0], "place": [1],
        "record": [7], "vni": [9], "where": [8]
    }),
];

/// Records that were sent alone.
#[tactic(auto, using(crate::proofs::Whole::whole_forms))]
pub(crate) fn lonely_sent_forms() -> &'static [Form]
    ensures { AreWhole result.now }
{
    &LONELY_SENT
}

static LONELY_RECEIVED: [Form; 5] = [
    form!([Text, "received", "alone", "length", Number, "record", Number] => {
        "length": [4], "line": "received alone", "moment": [0], "record": [6]
    }),
    form!([Text, Text, "received", "alone", "length", Number, "record", Number, "vlan", Number] => {
        "length": [5], "line": "received alone", "moment": [0], "place": [1], "record": [7], "vid": [9],
        "where": [8]
    }),
    form!([Text, Text, "received", "alone", "length", Number, "record", Number, "untagged"] => {
        "length": [5], "line": "received alone", "moment": [0], "place": [1], "record": [7], "where": [8]
    }),
    form!([Text, Text, "received", "alone", "length", Number, "record", Number, "no", "tunnel"] => {
        "length": [5], "line": "received alone", "moment": [0], "place": [1], "record": [7],
        "where": "no tunnel"
    }),
    form!([Text, Text, "received", "alone", "length", Number, "record", Number, Text, Number] => {
        "length": [5], "line": "received alone", "moment": [0], "place": [1], "record": [7], "vni": [9],
        "where": [8]
    }),
];

/// Records that were received alone.
#[tactic(auto, using(crate::proofs::Whole::whole_forms))]
pub(crate) fn lonely_received_forms() -> &'static [Form]
    ensures { AreWhole result.now }
{
    &LONELY_RECEIVED
}

static DIFFERENCES: [Form; 4] = [
    form!([TextBefore(b':'), "vlan", NumberBefore(b':'), Text, Text, "for", TextBefore(b':'), NumberBefore(b','),
        "first", "record", Number, "for", Number] => {
        "count": [7], "difference": [3], "line": "difference", "place": [0], "received_record": [10],
        "received_value": [4], "sent_record": [12], "sent_value": [6], "vid": [2], "where": [1]
    }),
    form!([TextBefore(b':'), "untagged:", Text, Text, "for", TextBefore(b':'), NumberBefore(b','), "first",
        "record", Number, "for", Number] => {
        "count": [6], "difference": [2], "line": "difference", "place": [0], "received_record": [9],
        "received_value": [3], "sent_record": [11], "sent_value": [5], "where": "untagged"
    }),
    form!([TextBefore(b':'), Text, NumberBefore(b':'), Text, Text, "for", TextBefore(b':'), NumberBefore(b','),
        "first", "record", Number, "for", Number] => {
        "count": [7], "difference": [3], "line": "difference", "place": [0], "received_record": [10],
        "received_value": [4], "sent_record": [12], "sent_value": [6], "vni": [2], "where": [1]
    }),
    form!([TextBefore(b':'), "other", "differences:", Number] => {
        "count": [3], "line": "other differences", "place": [0]
    }),
];

/// What of near records differs.
#[tactic(auto, using(crate::proofs::Whole::whole_forms))]
pub(crate) fn difference_forms() -> &'static [Form]
    ensures { AreWhole result.now }
{
    &DIFFERENCES
}
