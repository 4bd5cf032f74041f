//! What a window forgot for want of room.
ghost use Rattle.std.specs.Prelude.{◌≡◌, [], ◌∷◌, None, if◌then◌else◌, min};
ghost use Rattle.echo_window.specs.Echo.{lesser, with_ages};

/// What a window forgot for want of room, although an echo of it might still have come.
#[derive(Clone, Copy, Debug, PartialEq, Eq)]
pub struct Forgotten {
    /// How many frames, up to 2^64 - 1.
    pub count: u64,
    /// The least age at which one went, in nanoseconds: from its own moment to that of the record it made room for. None: none
    /// went.
    pub least_age: Option<u64>,
}

impl Forgotten {
    /// Nothing.
    pub(crate) fn nothing() -> Forgotten
        ensures { result ≡ record { count = 0; least_age = None } }
    {
        Forgotten {
            count: 0,
            least_age: None,
        }
    }

    /// Counts one more frame, which went at this age, unless it was met again wherever it might be.
    pub(crate) fn add(&mut self, age: u64, is_met_everywhere: bool)
        ensures { self.new ≡ with_ages self.old (if is_met_everywhere then [] else age ∷ []) }
    {
        if is_met_everywhere {
            return;
        }
        self.count = self.count.saturating_add(1);
        self.least_age = Some(lesser(self.least_age, age));
    }
}

/// The lesser of two numbers, of which the first may not be there.
fn lesser(least: Option<u64>, age: u64) -> u64
    ensures { result ≡ lesser least age }
{
    match least {
        Some(least) => least.min(age),
        None => age,
    }
}
