//! The paths of keys.
ghost use Rattle.std.specs.Prelude.{◌≡◌, ◌+◌, ◌≤◌, ◌++◌, length, codes, decimal, Some};

use arrayvec::ArrayString;
use std::fmt;
use std::marker::Model;

/// The path of a key, as `segment.12.flood`, in at most 40 octets; seen by contracts as its text.
#[derive(Debug, Drop)]
pub struct Key {
    text: ArrayString<40>,
}

impl Model for Key {
    ghost use Rattle.std.specs.Prelude.{ℕ, List};

    ghost Value = { List ℕ };

    ghost view = { λ k. k.text.bytes };
}

impl Key {
    /// One part of a path and the other behind it.
    pub fn of(first: &str, second: &str) -> Key
        requires { length first.now + length second.now ≤ 40 }
        ensures { result ≡ first.now ++ second.now }
    {
        let mut text = ArrayString::new();
        text.push_str(first);
        text.push_str(second);
        Key { text }
    }

    /// The name of a table in a list, as `port.2`.
    pub fn numbered(name: &str, number: u32) -> Key
        requires { length name.now ≤ 29 }
        ensures value { result ≡ name.now ++ codes "." ++ decimal number }
        ensures short { length result ≤ length name.now + 11 }
    {
        let mut text = ArrayString::new();
        text.push_str(name);
        text.push_str(".");
        text.push_str(itoa::Buffer::new().format(number));
        Key { text }
    }

    /// The path as text, of at most 40 octets.
    pub fn as_str(&self) -> &str
        ensures value { result.now ≡ self.now }
        ensures fits { length self.now ≤ 40 }
    {
        self.text.as_str()
    }
}

impl fmt::Display for Key {
    ghost output = { λ k. Some k };

    fn fmt<W: fmt::Write>(&self, f: &mut fmt::Formatter<W>) -> fmt::Result {
        fmt::Display::fmt(&self.text, f)
    }
}
