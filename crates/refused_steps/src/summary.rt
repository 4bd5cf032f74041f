//! A number made of decisions.
use encapsulate::Emission;
use endpoint_core::{Decision, Outcome};

/// A number with another one mixed in (FNV-1a's factor of 64 bits).
pub(crate) fn mixed(number: u64, more: u64) -> u64 {
    (number ^ more).wrapping_mul(0x0000_0100_0000_01B3)
}

/// A number with octets mixed in.
fn with_octets(number: u64, octets: &[u8]) -> u64 {
    let mut number = number;
    for octet in octets {
        number = mixed(number, u64::from(*octet));
    }
    number
}

/// A number with a head and the frame's addresses mixed in, and how many octets leave.
fn with_emission(number: u64, emission: &Emission) -> u64 {
    let [head, addresses, ..] = emission.parts();
    let number = with_octets(with_octets(number, head), addresses);
    mixed(number, emission.len() as u64)
}

/// A number with an outcome mixed in: what leaves, or why nothing does.
fn with_outcome(number: u64, outcome: &Outcome) -> u64 {
    match &outcome.sent {
        Ok(emission) => with_emission(number, emission),
        Err(reason) => mixed(number, u64::from(reason.number())),
    }
}

/// A number with outcomes mixed in.
fn with_outcomes(number: u64, outcomes: &[Outcome]) -> u64 {
    let mut number = number;
    for outcome in outcomes {
        number = with_outcome(number, outcome);
    }
    number
}

/// A number with a decision mixed in: its segment, its reason and its outcomes.
pub(crate) fn with_decision(number: u64, decision: &Decision) -> u64 {
    let segment = match decision.segment() {
        Some(vid) => u64::from(vid.get()),
        None => 0,
    };
    let reason = match decision.dropped() {
        Some(reason) => u64::from(reason.number()),
        None => 0,
    };
    with_outcomes(mixed(mixed(number, segment), reason), decision.outcomes())
}
