//! The first octets of an input.
ghost use Rattle.std.specs.Prelude.{◌≡◌, ◌≤◌, drop, take};

/// How many octets are looked at: as many as the global header of a classic capture has.
pub const HEAD_LENGTH: usize = 24;

/// The first octets of an input: 24 or, where there are fewer, all.
#[derive(Clone, Copy, Debug)]
pub struct Head {
    pub(crate) octets: [u8; HEAD_LENGTH],
    pub(crate) length: usize,
    ghost within: { length ≤ 24 },
}

impl Head {
    /// The octets.
    pub fn octets(&self) -> &[u8]
        ensures { result.now ≡ take self.now.length self.now.octets }
    {
        &self.octets[..self.length]
    }

    /// The octets behind the first so many.
    pub(crate) fn behind(&self, at: usize) -> &[u8]
        requires { at ≤ self.now.length }
        ensures { result.now ≡ drop at (take self.now.length self.now.octets) }
    {
        &self.octets()[at..]
    }
}
