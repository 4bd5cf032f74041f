//! Texts that are thrown together from pieces, always the same.
use crate::tests::reading::{Kind, said_of};
use std::alloc::{AllocError, Global};
use std::test::Fail;
use test_inputs::settings::ENDPOINT;

/// Pieces of TOML, and of what isn't.
const PIECES: [&str; 48] = [
    "version",
    "underlay",
    "port",
    "segment",
    "change",
    "kind",
    "at",
    "vid",
    "vni",
    "tunnel",
    "mac",
    "ip4",
    " ",
    " = ",
    "=",
    ".",
    ",",
    "\n",
    "\n",
    "\n",
    "[",
    "]",
    "[[",
    "]]",
    "{",
    "}",
    "\"",
    "'",
    "\"\"\"",
    "'''",
    "#",
    "\\",
    "\\u",
    "0",
    "1",
    "10",
    "-1",
    "9223372036854775808",
    "1e9",
    "inf",
    "true",
    "1979-05-27",
    "\"vxlan\"",
    "\"192.0.2.1\"",
    "\"02:00:00:00:00:01\"",
    "\u{FEFF}",
    "\u{1F300}",
    "\r\n",
];

/// The next number of a linear congruential row with Knuth's factor, and its high bits.
fn next(state: &mut u64) -> usize {
    *state = state
        .wrapping_mul(6_364_136_223_846_793_005)
        .wrapping_add(1_442_695_040_888_963_407);
    (*state >> 33) as usize
}

/// A text of up to 40 pieces.
fn thrown(alloc: Global, state: &mut u64) -> Result<String, AllocError> {
    let mut text = String::new(alloc);
    for _ in 0..next(state) % 41 {
        text.push_str(PIECES[next(state) % PIECES.len()])?;
    }
    Ok(text)
}

/// Whether a text has a fault or a meaning, the same when it is read again, and none as a comment.
fn is_answered(alloc: Global, text: &str) -> Result<bool, AllocError> {
    let settings = said_of(alloc, Kind::Settings, text.as_bytes())?;
    let again = said_of(alloc, Kind::Settings, text.as_bytes())?;
    let changes = said_of(alloc, Kind::Changes, text.as_bytes())?;
    let lines = text.replace(alloc, "\n", "\n# ")?.replace(alloc, "\r", "")?;
    let mut commented = String::from_str(alloc, ENDPOINT)?;
    commented.push_str("# ")?;
    commented.push_str(&lines)?;
    commented.push_str("\n")?;
    let said = said_of(alloc, Kind::Settings, commented.as_bytes())?;
    let is_memory = settings.as_str() == "OutOfMemory" || changes.as_str() == "OutOfMemory";
    Ok(!is_memory && again.as_str() == settings.as_str() && said.as_str() == "ok")
}

#[test]
fn whatever_is_thrown_together_is_answered(rt: HostRuntime) -> Result<(), Fail> {
    let alloc = rt.alloc();
    let mut state = 7348;
    for n in 0..2_000u16 {
        let text = thrown(alloc, &mut state)?;
        let is_answered = is_answered(alloc, &text)?;
        assert!(rt; is_answered, "text {n}: {text}");
    }
    Ok(())
}
