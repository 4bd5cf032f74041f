//! A look at a settings text and a changes text.
ghost use Rattle.std.specs.Prelude.{◌≡◌, Ok, IfOk};
ghost use Rattle.overlay_config.specs.Change.{changes_in};
ghost use Rattle.overlay_config.specs.Settings.{settings_in};
ghost use Rattle.text_calls.specs.Check.{GivesText, Reads, both, checked, counts_line};

use capture_run::{RunFault, of_changes, of_settings};
use overlay_config::{Settings, TimedChange, changes_of, settings_of};
use std::alloc::{AllocError, Global};
use std::fmt::Write;

/// The line `ok: P ports, S segments, C changes` of a settings text and a changes text, ended by LF.
///
/// The first fault is answered, the settings' before the changes'. `OutOfMemory` comes only where memory was refused.
pub fn check_text(alloc: Global, settings: &[u8], changes: &[u8]) -> Result<Vec<u8>, RunFault>
    ensures { GivesText result (checked (settings_in settings.now) (changes_in changes.now)) }
{
    let (settings, changes) = read_texts(alloc, settings, changes)?;
    let line = check_read(alloc, &settings, changes.as_slice())?;
    Ok(line)
}

/// What a settings text and a changes text mean.
///
/// The first fault is answered, the settings' before the changes'. `OutOfMemory` comes only where memory was refused.
pub fn read_texts(
    alloc: Global,
    settings: &[u8],
    changes: &[u8],
) -> Result<(Settings, Vec<TimedChange>), RunFault>
    ensures { Reads result (both (settings_in settings.now) (changes_in changes.now)) }
{
    let settings = match settings_of(alloc, settings) {
        Ok(settings) => settings,
        Err(fault) => return Err(of_settings(fault)),
    };
    match changes_of(alloc, changes) {
        Ok(changes) => Ok((settings, changes)),
        Err(fault) => Err(of_changes(fault)),
    }
}

/// The line that [`check_text`] answers of texts that mean these settings and these changes. `AllocError`: memory was refused.
pub fn check_read(
    alloc: Global,
    settings: &Settings,
    changes: &[TimedChange],
) -> Result<Vec<u8>, AllocError>
    ensures { IfOk result (λ line. checked (Ok settings.now) (Ok changes.now) ≡ Ok line.items) }
{
    let ports = settings.ports().len();
    let segments = settings.segments().len();
    counts_line(alloc, ports, segments, changes.len())
}

/// The line that tells so many ports, segments and changes.
fn counts_line(
    alloc: Global,
    ports: usize,
    segments: usize,
    changes: usize,
) -> Result<Vec<u8>, AllocError>
    ensures { IfOk result (λ line. line.items ≡ counts_line ports segments changes) }
{
    let mut line = String::new(alloc);
    writeln!(
        line,
        "ok: {ports} ports, {segments} segments, {changes} changes"
    )?;
    Ok(line.into_bytes())
}
