//! From words to a line: as the program takes them, or as a run of which something is told, and whose folder may be left out.
ghost use Rattle.std.specs.Prelude.{◌≡◌, IfErr, IfOk, IfSome, OnOk, Some, option_and_then, option_map};
ghost use Rattle.clap.specs.Kinds.{IsAmong};
ghost use Rattle.clap.specs.Walk.{texts};
ghost use Rattle.clap.specs.Words.{fault_of, kind_of, subcommand_rows_of, takes};
ghost use Rattle.command_line.specs.App.{tep_app};
ghost use Rattle.command_line.specs.Meaning.{AreTaken, ExplainsWords, HasDepth, RefusesAsWhole, is_telling};
ghost use Rattle.command_line.specs.Meaning.{line_meant, meaning_of, telling, telling_meant, words_meant};

use crate::commands;
use crate::line::{Line, LineFault, is_printing, list_of, view_of};
use crate::matches::line_from;
use clap::error::ErrorKind;
use clap::{ArgMatches, Error};
use std::alloc::{AllocError, Global};

/// The line that words are. A fault is the program's own, also where the words are no run of which something is told.
pub(crate) fn line_in<'a>(alloc: Global, words: &'a [&'a str]) -> Result<Line<'a>, LineFault>
    ensures ok { IfOk result (λ line. words_meant (texts words.entry.now) ≡ Some (meaning_of line)) }
    ensures depth { IfOk result HasDepth }
    ensures taken { OnOk result (AreTaken (texts words.entry.now)) }
    ensures fault { IfErr result (ExplainsWords (texts words.entry.now)) }
{
    let Ok(command) = commands::tep(alloc) else {
        return Err(LineFault::OutOfMemory);
    };
    match command.try_get_matches_from(words) {
        Ok(matches) => line_from(alloc, &matches),
        Err(error) => telling_line_or(alloc, words, error),
    }
}

/// The line of a run of which something is told, or this error of the program's, for which it refuses the words.
fn telling_line_or<'a>(
    alloc: Global,
    words: &'a [&'a str],
    error: Error,
) -> Result<Line<'a>, LineFault>
    requires { RefusesAsWhole (texts words.now) error }
    ensures ok { IfOk result (λ line. words_meant (texts words.entry.now) ≡ Some (meaning_of line)) }
    ensures depth { IfOk result HasDepth }
    ensures taken { OnOk result (AreTaken (texts words.entry.now)) }
    ensures fault { IfErr result (ExplainsWords (texts words.entry.now)) }
{
    match error.kind() {
        ErrorKind::OutOfMemory => Err(LineFault::OutOfMemory),
        _ => match telling_line(alloc, words) {
            Ok(Some(line)) => Ok(line),
            Ok(None) => Err(LineFault::Refused(error)),
            Err(_) => Err(LineFault::OutOfMemory),
        },
    }
}

/// The line of a run of which something is told, where the words are one.
fn telling_line<'a>(alloc: Global, words: &'a [&'a str]) -> Result<Option<Line<'a>>, AllocError>
    ensures ok { IfOk result (λ line. option_map meaning_of line ≡ telling_meant (texts words.entry.now)) }
    ensures depth { IfOk result (λ line. IfSome line HasDepth) }
{
    let command = commands::telling(alloc)?;
    match command.try_get_matches_from(words) {
        Ok(matches) => telling_line_from(alloc, &matches),
        Err(error) => match error.kind() {
            ErrorKind::OutOfMemory => Err(AllocError),
            _ => Ok(None),
        },
    }
}

/// The line of a whole parse, where something is told of a run.
fn telling_line_from<'a>(
    alloc: Global,
    matches: &ArgMatches<'a>,
) -> Result<Option<Line<'a>>, AllocError>
    ensures ok { IfOk result (λ line. option_map meaning_of line
        ≡ option_and_then telling (line_meant (subcommand_rows_of matches.now))) }
    ensures depth { IfOk result (λ line. IfSome line HasDepth) }
{
    let line = match line_from(alloc, matches) {
        Ok(line) => line,
        Err(LineFault::OutOfMemory) => return Err(AllocError),
        Err(_) => return Ok(None),
    };
    if is_telling(&line) {
        Ok(Some(line))
    } else {
        Ok(None)
    }
}

/// Whether something is told of a run besides its outputs.
fn is_telling(line: &Line<'_>) -> bool
    ensures { result ≡ is_telling (meaning_of line.now) }
{
    is_printing(line) || (view_of(line).is_some() || list_of(line).is_some())
}
