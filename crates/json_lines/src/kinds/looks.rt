//! Lines of a look at texts and captures.
ghost use Rattle.json_lines.specs.ReadBack.{AreWhole};

use crate::{Form, form};

static LOOKS: [Form; 13] = [
    form!(["", ""; Rest] => { "line": "below", "note": Rest }),
    form!(["ok:", Number, "ports,", Number, "segments,", Number, "changes"] => {
        "changes": [5], "line": "ok", "ports": [1], "segments": [3]
    }),
    form!(["change", Number, "at", TextBefore(b':'), "refused", Number, Text] => {
        "cause": [5], "change": [1], "line": [4], "moment": [3], "name": [6]
    }),
    // Captures: pcap, then pcapng; each without moments, then with the first and the last; of one record, then of none or several.
    form!([TextBefore(b':'), "pcap", Text, Text, "ethernet,", Number, "record"] => {
        "capture": [1], "line": "capture", "order": [2], "place": [0], "precision": [3], "records": [5]
    }),
    form!([TextBefore(b':'), "pcap", Text, Text, "ethernet,", Number, "records"] => {
        "capture": [1], "line": "capture", "order": [2], "place": [0], "precision": [3], "records": [5]
    }),
    form!([TextBefore(b':'), "pcap", Text, Text, "ethernet,", Number, "record,", "first", TextBefore(b','),
        "last", Text] => {
        "capture": [1], "first_second": [8], "last_second": [10], "line": "capture", "order": [2], "place": [0],
        "precision": [3], "records": [5]
    }),
    form!([TextBefore(b':'), "pcap", Text, Text, "ethernet,", Number, "records,", "first", TextBefore(b','),
        "last", Text] => {
        "capture": [1], "first_second": [8], "last_second": [10], "line": "capture", "order": [2], "place": [0],
        "precision": [3], "records": [5]
    }),
    form!([TextBefore(b':'), "pcapng", "ethernet,", Number, "record"] => {
        "capture": [1], "line": "capture", "place": [0], "records": [3]
    }),
    form!([TextBefore(b':'), "pcapng", "ethernet,", Number, "records"] => {
        "capture": [1], "line": "capture", "place": [0], "records": [3]
    }),
    form!([TextBefore(b':'), "pcapng", "ethernet,", Number, "record,", "first", TextBefore(b','), "last",
        Text] => {
        "capture": [1], "first_second": [6], "last_second": [8], "line": "capture", "place": [0], "records": [3]
    }),
    form!([TextBefore(b':'), "pcapng", "ethernet,", Number, "records,", "first", TextBefore(b','), "last",
        Text] => {
        "capture": [1], "first_second": [6], "last_second": [8], "line": "capture", "place": [0], "records": [3]
    }),
    form!([TextBefore(b':'), Number; Rest] => { "count": [1], "line": "note", "note": Rest, "place": [0] }),
    form!([TextBefore(b':'); Rest] => { "line": "note", "note": Rest, "place": [0] }),
];

/// The lines of what is in texts and captures.
#[tactic(auto, using(crate::proofs::Whole::whole_forms))]
pub(crate) fn look_forms() -> &'static [Form]
    ensures { AreWhole result.now }
{
    &LOOKS
}
