//! The calls, by their names.
use crate::answer::Answer;
use crate::{captures, endpoints, inputs, openings, runs, texts};
use std::alloc::Global;
use std::test::Fail;
use test_inputs::memory::request;

/// Makes a call behind so many requests.
pub(crate) fn make(alloc: Global, name: &str, count: u16) -> Result<Answer, Fail> {
    match name {
        "none" => Ok(none(alloc, count)),
        "line_of" => Ok(texts::line(alloc, count)),
        "settings_of" => Ok(texts::settings(alloc, count, inputs::endpoint())),
        "settings_of_long" => Ok(texts::settings(alloc, count, inputs::long_lists())),
        "migrate" => Ok(texts::migrated(alloc, count, inputs::small(), inputs::small_migrated())),
        "changes_of" => Ok(texts::changes(alloc, count, inputs::changes())),
        "check_text" => Ok(texts::looked(
            alloc,
            count,
            inputs::endpoint(),
            inputs::changes(),
            inputs::looked_at(),
        )),
        _ => make_of_capture(alloc, name, count),
    }
}

/// Makes a call that reads or writes a capture.
fn make_of_capture(alloc: Global, name: &str, count: u16) -> Result<Answer, Fail> {
    match name {
        "put_header" => captures::header(alloc, count, inputs::header()),
        "put_record" => captures::record(alloc, count, inputs::octets(), inputs::record()),
        "Source" => Ok(captures::source(alloc, count, inputs::capture())),
        "Timeline" => Ok(captures::timeline(alloc, count, inputs::capture())),
        "classic_of" => Ok(captures::classic(
            alloc,
            count,
            inputs::two_interfaces(),
            inputs::capture(),
        )),
        "CaptureInput" => Ok(captures::adapted(
            alloc,
            count,
            inputs::two_interfaces(),
            inputs::capture(),
        )),
        "read_text" => Ok(captures::read(alloc, count, inputs::capture())),
        _ => make_opened(alloc, name, count),
    }
}

/// Makes a call that opens or takes settings.
fn make_opened(alloc: Global, name: &str, count: u16) -> Result<Answer, Fail> {
    match name {
        "ListTables" => openings::tables(alloc, count, false),
        "SharedTables" => openings::tables(alloc, count, true),
        "PortSet" => openings::ports(alloc, count),
        "Overlay" => openings::under(alloc, count, inputs::endpoint()),
        "Overlay_long" => openings::under(alloc, count, inputs::long_lists()),
        "EndpointState" => openings::state(alloc, count),
        "Endpoint" => openings::endpoint(alloc, count, inputs::endpoint()),
        "Endpoint_long" => openings::endpoint(alloc, count, inputs::long_lists()),
        _ => make_decided(alloc, name, count),
    }
}

/// Makes a call that takes a decision, or a run.
fn make_decided(alloc: Global, name: &str, count: u16) -> Result<Answer, Fail> {
    match name {
        "append_to" => endpoints::emission(alloc, count),
        "result_text" => endpoints::result(alloc, count),
        "sample" => Ok(runs::sampled(alloc, count)),
        "explain_bytes" => Ok(runs::explained(
            alloc,
            count,
            inputs::capture(),
            inputs::capture_explained(),
        )),
        "run_bytes" => runs::ran(alloc, count),
        "run" => runs::streamed(alloc, count),
        _ => Err(Fail::new("no such call")),
    }
}

/// Calls nothing.
fn none(alloc: Global, count: u16) -> Answer {
    request(alloc, count);
    Answer::Done
}
