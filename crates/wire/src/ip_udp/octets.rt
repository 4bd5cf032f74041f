//! Arrays out of octets.
ghost use Rattle.std.specs.Prelude.{◌≡◌, ◌+◌, ◌≤◌, length};
ghost use Rattle.wire.specs.Octets.{part};

/// The `N` octets from a place on.
pub(crate) fn array_at<const N: usize>(octets: &[u8], at: usize) -> [u8; N]
    requires { at + N ≤ length octets.now }
    ensures { result ≡ part at N octets.now }
{
    let mut found = [0; N];
    found.copy_from_slice(&octets[at..at + N]);
    found
}
