//! What a line names.
use command_line::Line;
use program_files::Names;
use timeline::Tap;

/// The capture that a line names for a tap.
pub fn capture_at<'a>(line: &Line<'a>, tap: Tap) -> Option<&'a str> {
    match line {
        Line::Run {
            underlay,
            ports,
            ..
        }
        | Line::Digest { underlay, ports } => capture_among(Some(*underlay), ports.as_slice(), tap),
        Line::Check {
            underlay,
            ports,
            ..
        } => capture_among(*underlay, ports.as_slice(), tap),
        Line::Explain { capture, .. } => capture_among(Some(*capture), &[], tap),
        _ => None,
    }
}

/// The capture of a tap among those of the underlay and of the ports.
fn capture_among<'a>(underlay: Option<&'a str>, ports: &[&'a str], tap: Tap) -> Option<&'a str> {
    match tap {
        Tap::Underlay => underlay,
        Tap::Port(number) => {
            let index = usize::from(number).checked_sub(1)?;
            ports.get(index).copied()
        }
    }
}

/// The folder that a line writes into, where it writes.
pub fn folder_of<'a>(line: &Line<'a>) -> Option<&'a str> {
    match line {
        Line::Run { out, .. } => *out,
        Line::Merge { out, .. } => Some(*out),
        _ => None,
    }
}

/// The names of what a run reads.
pub fn names_of<'n, 'a>(line: &'n Line<'a>) -> Option<Names<'n, 'a>> {
    match line {
        Line::Run {
            settings,
            changes,
            underlay,
            ports,
            digests,
            ..
        } => Some(Names {
            settings: *settings,
            changes: *changes,
            underlay: *underlay,
            ports: ports.as_slice(),
            digests: *digests,
        }),
        _ => None,
    }
}

/// The settings text of a line that doesn't tell itself where it is refused, and why.
pub fn settings_of_line<'a>(line: &Line<'a>) -> Option<&'a str> {
    match line {
        Line::Run { settings, .. } | Line::Explain { settings, .. } | Line::Migrate { settings } =>
            { Some(*settings) }
        Line::CompareWorked { settings, .. } => *settings,
        _ => None,
    }
}

/// The changes text of such a line.
pub fn changes_of_line<'a>(line: &Line<'a>) -> Option<&'a str> {
    match line {
        Line::Run { changes, .. } => *changes,
        _ => None,
    }
}

/// Whether a line names a text by this name, and not a capture.
pub fn is_text(line: &Line<'_>, name: &str) -> bool {
    match line {
        Line::Run {
            settings,
            changes,
            digests,
            ..
        } => *settings == name || *changes == Some(name) || *digests == Some(name),
        Line::Check {
            settings,
            changes,
            ..
        } => *settings == name || *changes == Some(name),
        Line::Explain { settings, .. } | Line::Migrate { settings } => *settings == name,
        Line::CompareWorked { settings, .. } => *settings == Some(name),
        Line::Fabric { leaves } => leaves.as_slice().contains(&name),
        _ => false,
    }
}
