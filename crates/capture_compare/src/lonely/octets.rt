//! Arrays out of octets.
ghost use Rattle.std.specs.Prelude.{◌≡◌, length};

/// The `N` octets that there are.
pub(crate) fn array_of<const N: usize>(octets: &[u8]) -> [u8; N]
    requires { length octets.now ≡ N }
    ensures { result ≡ octets.now }
{
    let mut found = [0; N];
    found.copy_from_slice(octets);
    found
}
