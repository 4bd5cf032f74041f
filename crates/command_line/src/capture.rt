//! The names of captures.
//!
//! An interface stands behind the capture that it is of (`all.pcapng#eth1`), not in an option of its own beside it
//! (`--interface p1=eth1`): so the two can't disagree on the number of a port, no port can be named twice, and `-u` and
//! `explain` take it in the same form. It is `#` and not `:`, since names of files have colons more often (moments, IPv6
//! addresses), and names of interfaces too (`eth0:1`). The last `#` counts, so that each file can still be named: with one `#`
//! more behind it.
ghost use Rattle.std.specs.Prelude.{◌≡◌, option_map};
ghost use Rattle.command_line.specs.Capture.{file_of, interface_of};

/// The name by which standard input is asked for, where a capture's file is named.
pub const STANDARD_INPUT: &str = "-";

/// The name by which standard output is asked for, where the view of a run is.
pub const STANDARD_OUTPUT: &str = "-";

/// What stands for a capture of which there is none, where what a run wrote is compared.
pub const NO_CAPTURE: &str = "-";

/// What the name of a capture asks for: `FILE`, or `FILE#INTERFACE`.
#[derive(Clone, Copy, Debug)]
pub struct CaptureName<'a> {
    /// The file, or [`STANDARD_INPUT`].
    pub file: &'a str,
    /// The interface whose packets are taken, by its number or its name. None: the packets of all.
    pub interface: Option<&'a str>,
}

/// Takes the name of a capture apart at its last `#`. So a file whose own name has one is asked for with one more behind
/// it.
pub fn capture_name(name: &str) -> CaptureName<'_>
    ensures file { result.file.now ≡ file_of name.now }
    ensures interface { option_map (λ interface. interface.now) result.interface ≡ interface_of name.now }
{
    let Some((file, interface)) = name.rsplit_once('#') else {
        return CaptureName {
            file: name,
            interface: None,
        };
    };
    CaptureName {
        file,
        interface: if interface.is_empty() {
            None
        } else {
            Some(interface)
        },
    }
}
