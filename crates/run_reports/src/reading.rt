//! The names of events, read from their texts.
ghost use Rattle.std.specs.Prelude.{◌≡◌};
ghost use Rattle.run_reports.specs.Names.{can_come_from, can_name, is_any, is_event_name};
ghost use Rattle.run_reports.specs.Reading.{name_in, source_in, port_in, in_source, in_run, same_source};

use crate::wanted::{Reasons, address_in, reasons_in};
use line_words::number_of;
use timeline::{Source, Tap};

/// A name of an event: where its number counts, in a source or in the whole run, and the number.
#[derive(Clone, Copy)]
pub struct Name {
    pub source: Option<Source>,
    pub number: u64,
}

/// The name that a text is, if it is one.
pub fn name_in(text: &[u8]) -> Option<Name>
    ensures { result ≡ name_in text.now }
{
    match text.iter().position(|c| *c == b':') {
        Some(at) => in_source(source_in(&text[..at]), number_of(&text[at + 1..])),
        None => in_run(number_of(text)),
    }
}

/// Whether a text can be the name of an event: `7`, `p2:7`, `u:13`, `c:1`, numbers from 1 and ports from 1 to 255; or
/// asks for the first of a kind: `drop:30`, `drop:any`, `mac:02:00:00:00:00:03`.
pub fn is_event_name(text: &str) -> bool
    ensures { result ≡ is_event_name text.now }
{
    can_name(name_in(text.as_bytes())) || is_any(reasons_in(text)) || address_in(text).is_some()
}

/// Whether an event can have a name.
fn can_name(name: Option<Name>) -> bool
    ensures { result ≡ can_name name }
{
    match name {
        Some(name) => 1 <= name.number && can_come_from(name.source),
        None => false,
    }
}

/// Whether there is such a source in a run, or none is named.
fn can_come_from(source: Option<Source>) -> bool
    ensures { result ≡ can_come_from source }
{
    match source {
        Some(Source::Tap(Tap::Port(port))) => 1 <= port,
        _ => true,
    }
}

/// Whether a reason is asked for.
fn is_any(reasons: Reasons) -> bool
    ensures { result ≡ is_any reasons }
{
    match reasons {
        Reasons::No => false,
        _ => true,
    }
}

/// The name by a source and a number there.
fn in_source(source: Option<Source>, number: Option<u64>) -> Option<Name>
    ensures { result ≡ in_source source number }
{
    match (source, number) {
        (Some(source), Some(number)) => Some(Name {
            source: Some(source),
            number,
        }),
        _ => None,
    }
}

/// The name by a number in the run.
fn in_run(number: Option<u64>) -> Option<Name>
    ensures { result ≡ in_run number }
{
    match number {
        Some(number) => Some(Name {
            source: None,
            number,
        }),
        None => None,
    }
}

/// The source whose word this is.
fn source_in(word: &[u8]) -> Option<Source>
    ensures { result ≡ source_in word.now }
{
    match word {
        [b'p', digits @ ..] => port_in(number_of(digits)),
        [b'c'] => Some(Source::Changes),
        [b'u'] => Some(Source::Tap(Tap::Underlay)),
        _ => None,
    }
}

/// The port of this number.
fn port_in(number: Option<u64>) -> Option<Source>
    ensures { result ≡ port_in number }
{
    match number {
        Some(number) if number < 256 => Some(Source::Tap(Tap::Port(number as u8))),
        _ => None,
    }
}

/// Whether two numbers count at one place.
pub fn is_same(a: &Option<Source>, b: &Option<Source>) -> bool
    ensures { result ≡ same_source a.now b.now }
{
    match (a, b) {
        (None, None) => true,
        (Some(Source::Changes), Some(Source::Changes)) => true,
        (Some(Source::Tap(Tap::Underlay)), Some(Source::Tap(Tap::Underlay))) => true,
        (Some(Source::Tap(Tap::Port(a))), Some(Source::Tap(Tap::Port(b)))) => a == b,
        _ => false,
    }
}
