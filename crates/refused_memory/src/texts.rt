//! Calls that read the texts of settings, changes and words.
use crate::answer::Answer;
use capture_run::RunFault;
use command_line::{Line, LineFault, line_of};
use overlay_config::{SettingsFault, changes_of, migrate, settings_of};
use std::alloc::Global;
use test_inputs::memory::request;
use text_calls::check_text;

/// Words with every value that a run takes.
const WORDS: [&str; 10] = [
    "tep",
    "run",
    "--settings",
    "S",
    "--changes",
    "C",
    "--underlay",
    "U",
    "--out=O",
    "P1",
];

/// Reads words.
pub(crate) fn line(alloc: Global, count: u16) -> Answer {
    request(alloc, count);
    match line_of(alloc, &WORDS) {
        Ok(line) => Answer::of(matches!(line, Line::Run { .. }), false),
        Err(fault) => Answer::of(false, matches!(fault, LineFault::OutOfMemory)),
    }
}

/// Reads settings of two segments.
pub(crate) fn settings(alloc: Global, count: u16, text: &str) -> Answer {
    request(alloc, count);
    match settings_of(alloc, text.as_bytes()) {
        Ok(settings) => Answer::of(settings.segments().len() == 2, false),
        Err(fault) => Answer::of(false, matches!(fault, SettingsFault::OutOfMemory)),
    }
}

/// Migrates settings.
pub(crate) fn migrated(alloc: Global, count: u16, text: &str, expected: &str) -> Answer {
    request(alloc, count);
    match migrate(alloc, text.as_bytes()) {
        Ok(text) => Answer::text(text.as_slice(), expected.as_bytes()),
        Err(fault) => Answer::of(false, matches!(fault, SettingsFault::OutOfMemory)),
    }
}

/// Reads two changes.
pub(crate) fn changes(alloc: Global, count: u16, text: &str) -> Answer {
    request(alloc, count);
    match changes_of(alloc, text.as_bytes()) {
        Ok(changes) => Answer::of(changes.len() == 2, false),
        Err(fault) => Answer::of(false, matches!(fault, SettingsFault::OutOfMemory)),
    }
}

/// Of a text that was printed.
pub(crate) fn printed(text: Result<Vec<u8>, RunFault>, expected: &str) -> Answer {
    match text {
        Ok(text) => Answer::text(text.as_slice(), expected.as_bytes()),
        Err(fault) => Answer::of(false, matches!(fault, RunFault::OutOfMemory)),
    }
}

/// Looks at settings and changes.
pub(crate) fn looked(
    alloc: Global,
    count: u16,
    settings: &str,
    changes: &str,
    expected: &str,
) -> Answer {
    request(alloc, count);
    printed(
        check_text(alloc, settings.as_bytes(), changes.as_bytes()),
        expected,
    )
}
