//! Lines of the layers of a packet.
ghost use Rattle.json_lines.specs.ReadBack.{AreWhole};

use crate::{Form, form};

static LAYERS: [Form; 12] = [
    // A layer of any kind without its values.
    form!(["", "", Text, Number, Number] => { "at": [3], "length": [4], "part": [2] }),
    form!(["", "", "stop", "Deep"] => { "name": [3], "part": [2] }),
    form!(["", "", "stop", Number, Text] => { "name": [4], "part": [2], "reason": [3] }),
    form!(["", "", "ether", Number, Number, Text, ">", Text] => {
        "at": [3], "destination_address": [7], "length": [4], "part": [2], "source_address": [5]
    }),
    form!(["", "", "tag", Number, Number, Text, "vid", Number, "pcp", Number, "dei", Number] => {
        "at": [3], "dei": [11], "length": [4], "part": [2], "pcp": [9], "type": [5], "vid": [7]
    }),
    form!(["", "", "type", Number, Number, Text] => {
        "at": [3], "length": [4], "part": [2], "type": [5]
    }),
    form!(["", "", "ip4", Number, Number, Text, ">", Text, "ttl", Number, "length", Number, "protocol",
        Number] => {
        "at": [3], "destination_address": [7], "ip_length": [11], "length": [4], "part": [2],
        "protocol": [13], "source_address": [5], "ttl": [9]
    }),
    form!(["", "", "ip4", Number, Number, Text, ">", Text, "ttl", Number, "length", Number, "protocol",
        Number, "offset", Number, "more", Number] => {
        "at": [3], "destination_address": [7], "ip_length": [11], "length": [4], "more": [17],
        "offset": [15], "part": [2], "protocol": [13], "source_address": [5], "ttl": [9]
    }),
    form!(["", "", "ip6", Number, Number, Text, ">", Text, "hop-limit", Number, "length", Number,
        "next-header", Number] => {
        "at": [3], "destination_address": [7], "hop_limit": [9], "ip_length": [11], "length": [4],
        "next_header": [13], "part": [2], "source_address": [5]
    }),
    form!(["", "", "udp", Number, Number, Number, ">", Number, "length", Number, "checksum", Text] => {
        "at": [3], "checksum": [11], "destination_port": [7], "length": [4], "part": [2], "source_port": [5],
        "udp_length": [9]
    }),
    form!(["", "", "vxlan", Number, Number, "vni", Number] => {
        "at": [3], "length": [4], "part": [2], "vni": [6]
    }),
    form!(["", "", "geneve", Number, Number, "vni", Number, "options", Number] => {
        "at": [3], "length": [4], "options": [8], "part": [2], "vni": [6]
    }),
];

/// The layers of a packet, below its decision line.
#[tactic(auto, using(crate::proofs::Whole::whole_forms))]
pub(crate) fn layer_forms() -> &'static [Form]
    ensures { AreWhole result.now }
{
    &LAYERS
}
