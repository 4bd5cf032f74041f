//! Records of captures.
ghost use Rattle.std.specs.Prelude.{◌≡◌, ◌≤◌, ◌==◌, if◌then◌else◌};

/// A record of a capture: when it was captured, and its octets, of which some may be missing.
#[derive(Clone, Copy, Debug)]
pub struct Seen<'a> {
    /// Nanoseconds.
    pub moment: u64,
    /// Those that were captured.
    pub octets: &'a [u8],
    /// How many more it had: 0 of a whole one, else it is cut.
    pub missing: u32,
}

impl<'a> Seen<'a> {
    /// So many more where it is cut.
    pub(crate) fn if_cut(&self, count: u64) -> u64
        ensures value { result ≡ (if self.now.missing == 0 then 0 else count) }
        ensures bound { result ≤ count }
    {
        if self.missing == 0 { 0 } else { count }
    }
}
