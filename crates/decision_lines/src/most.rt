//! How long the lines of a run may be.
ghost use Rattle.std.specs.Prelude.{◌≡◌, ◌&&◌, nat_le, if◌then◌else◌};

/// How many ports are few.
const FEW_PORTS: usize = 16;

/// How many remotes of a flood list are few: with few ports besides a frame has 32 outcomes at most.
const FEW_REMOTES: u16 = 16;

/// With few of both no line is longer: of 32 outcomes, 77 octets each, with 74 in front and its end.
const WITH_FEW: usize = 4_096;

/// No line is longer: of 767 outcomes.
const WITH_MORE: usize = 59_134;

/// How many octets the next line of a run may have that has so many ports, and flood lists of at most so many remotes; or the
/// lines of all its cut captures together, of at most 30 octets each. Who hands lines on in blocks asks for so much room before
/// an event.
#[inline]
pub fn most_of_a_line(ports: usize, flood: u16) -> usize
    ensures { result ≡ (if nat_le ports 16 && nat_le flood 16 then 4096 else 59134) }
{
    if ports <= FEW_PORTS && flood <= FEW_REMOTES {
        return WITH_FEW;
    }
    WITH_MORE
}
