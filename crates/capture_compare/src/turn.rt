//! Whose record comes next.
ghost use Rattle.std.specs.Prelude.{◌≡◌};
ghost use Rattle.capture_compare.specs.Turns.{turn_of};

/// Whose record comes next, and when.
#[derive(Clone, Copy)]
pub(crate) enum Turn {
    /// That of what was sent.
    Sent(u64),
    /// That of what was received.
    Received(u64),
    /// There is none.
    Done,
}

/// Whose record comes next, by the moments of the next ones.
pub(crate) fn turn_of(sent: Option<u64>, received: Option<u64>) -> Turn
    ensures { result ≡ turn_of sent received }
{
    match (sent, received) {
        (None, None) => Turn::Done,
        (Some(sent), None) => Turn::Sent(sent),
        (None, Some(received)) => Turn::Received(received),
        (Some(sent), Some(received)) => {
            if sent <= received {
                Turn::Sent(sent)
            } else {
                Turn::Received(received)
            }
        }
    }
}
