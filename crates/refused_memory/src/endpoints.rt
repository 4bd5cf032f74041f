//! Calls with what an endpoint decides.
ghost use Rattle.std.specs.Prelude.{◌≤◌, length};
ghost use Rattle.endpoint_core.specs.Kept.{state_of};
ghost use Rattle.endpoint_core.specs.Outlets.{HasFewOutlets};

use crate::answer::Answer;
use crate::inputs;
use endpoint_core::{Decision, Endpoint, result_text};
use overlay_config::{Settings, settings_of};
use std::alloc::{AllocError, Global};
use std::test::Fail;
use test_inputs::memory::request;

/// The settings of a text.
pub(crate) fn settings(alloc: Global, text: &str) -> Result<Settings, Fail> {
    match settings_of(alloc, text.as_bytes()) {
        Ok(settings) => Ok(settings),
        Err(_) => Err(Fail::new("no settings")),
    }
}

/// An endpoint with these settings.
pub(crate) fn opened(alloc: Global, settings: Settings) -> Result<Endpoint, AllocError> {
    Endpoint::open(alloc, settings)
}

/// What is decided of a frame at a port.
fn frame<'a>(endpoint: &mut Endpoint, now: u64, port: u8, octets: &'a [u8]) -> Decision<'a>
    requires moment { (state_of endpoint.old).moment ≤ now }
    requires low { 1 ≤ port }
    requires high { port ≤ length (state_of endpoint.old).bridges.settings.ports.ports }
    requires few { HasFewOutlets (state_of endpoint.old).bridges.settings }
{
    endpoint.frame(now, port, 14, octets)
}

/// What is decided of a frame at port 1, if there is one.
fn decision<'a>(endpoint: &mut Endpoint, octets: &'a [u8]) -> Option<Decision<'a>> {
    let now = endpoint.now();
    if endpoint.ports() == 0 || !endpoint.has_few_outlets() {
        return None;
    }
    Some(frame(endpoint, now, 1, octets))
}

/// What is decided of the capture's frame at port 1.
fn decided<'a>(alloc: Global) -> Result<Decision<'a>, Fail> {
    let settings = settings(alloc, inputs::endpoint())?;
    let mut endpoint = opened(alloc, settings)?;
    match decision(&mut endpoint, inputs::octets()) {
        Some(decision) => Ok(decision),
        None => Err(Fail::new("no port")),
    }
}

/// Of a decision that is printed.
fn printed(alloc: Global, decision: &Decision, expected: &str) -> Answer {
    match result_text(alloc, decision) {
        Ok(text) => Answer::text(text.as_slice(), expected.as_bytes()),
        Err(_) => Answer::Memory,
    }
}

/// Prints a decision.
pub(crate) fn result(alloc: Global, count: u16) -> Result<Answer, Fail> {
    let decision = decided(alloc)?;
    request(alloc, count);
    Ok(printed(alloc, &decision, inputs::result()))
}

/// Of the first emission of a decision, which is put behind an octet.
fn put(alloc: Global, count: u16, decision: &Decision, expected: &[u8]) -> Result<Answer, Fail> {
    let mut out = Vec::from_slice(alloc, &[7])?;
    let Some(outcome) = decision.outcomes().first() else {
        return Err(Fail::new("no outcome"));
    };
    let Ok(emission) = &outcome.sent else {
        return Err(Fail::new("no emission"));
    };
    request(alloc, count);
    let added = emission.append_to(&mut out);
    Ok(Answer::grown(added.is_ok(), out.as_slice(), expected))
}

/// Puts what leaves at port 2 behind an octet.
pub(crate) fn emission(alloc: Global, count: u16) -> Result<Answer, Fail> {
    let decision = decided(alloc)?;
    put(alloc, count, &decision, inputs::octets())
}
