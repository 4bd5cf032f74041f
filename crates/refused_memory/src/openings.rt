//! What is opened with settings, each by itself.
use crate::answer::Answer;
use crate::endpoints::{opened, settings};
use crate::inputs;
use endpoint_core::state::EndpointState;
use filter_db::{ListTables, TableRule};
use overlay::ports::PortSet;
use overlay::underlay::Overlay;
use shared_tables::SharedTables;
use std::alloc::Global;
use std::test::Fail;
use test_inputs::memory::request;
use wire::ether::Vid;

/// Opens the tables of two segments, in one pool or apart.
pub(crate) fn tables(alloc: Global, count: u16, are_shared: bool) -> Result<Answer, Fail> {
    let rules = [
        TableRule {
            vid: Vid::new(9).ok_or("VID 9")?,
            limit: 100,
            ageing: 300,
        },
        TableRule {
            vid: Vid::new(10).ok_or("VID 10")?,
            limit: 100,
            ageing: 300,
        },
    ];
    request(alloc, count);
    let is_open = if are_shared {
        SharedTables::open(alloc, &rules, 200).is_ok()
    } else {
        ListTables::open(alloc, &rules).is_ok()
    };
    Ok(Answer::of(is_open, true))
}

/// Opens the ports.
pub(crate) fn ports(alloc: Global, count: u16) -> Result<Answer, Fail> {
    let settings = settings(alloc, inputs::endpoint())?;
    request(alloc, count);
    if settings.ports().len() > 255 {
        return Ok(Answer::Wrong);
    }
    Ok(Answer::of(PortSet::open(alloc, settings.ports(), &[]).is_ok(), true))
}

/// Opens the underlay, with no segment.
pub(crate) fn under(alloc: Global, count: u16, text: &str) -> Result<Answer, Fail> {
    let parts = settings(alloc, text)?.into_parts();
    request(alloc, count);
    let rules = Vec::new(alloc);
    Ok(Answer::of(Overlay::open(alloc, parts.underlay, rules).is_ok(), true))
}

/// Opens the state of an endpoint.
pub(crate) fn state(alloc: Global, count: u16) -> Result<Answer, Fail> {
    let settings = settings(alloc, inputs::endpoint())?;
    request(alloc, count);
    Ok(Answer::of(EndpointState::open(alloc, settings).is_ok(), true))
}

/// Opens an endpoint.
pub(crate) fn endpoint(alloc: Global, count: u16, text: &str) -> Result<Answer, Fail> {
    let settings = settings(alloc, text)?;
    request(alloc, count);
    Ok(Answer::of(opened(alloc, settings).is_ok(), true))
}
