//! Lines of text in a fixed room.
ghost use Rattle.std.specs.Prelude.{◌≡◌, ℕ, ◌≤◌, ◌<◌, ◌+◌, ◌/◌, ◌%◌, List, [], ◌∷◌, ◌++◌, length, take, decimal};

use itoa::Buffer;
use std::marker::Model;

/// Lines of text in a room of 8,192 octets, seen by contracts as their text. They are cleared and written again, and never
/// ask for memory. The layers of a packet have 8,000 octets at most: 34 heads of at most 200 each, and the payload, ten tails
/// and the stop of at most 60 each.
#[derive(Drop)]
pub struct Lines {
    octets: [u8; 8192],
    len: usize,
}

impl Model for Lines {
    ghost Value = { List ℕ };

    ghost view = { λ l. take l.len l.octets };

    ghost invariant = { λ l. l.len ≤ 8192 };
}

impl Lines {
    /// No text.
    pub fn new() -> Lines
        ensures { result ≡ [] }
    {
        Lines {
            octets: [0; 8192],
            len: 0,
        }
    }

    /// Empties them.
    #[inline]
    pub fn clear(&mut self)
        ensures { self.new ≡ [] }
    {
        self.len = 0;
    }

    /// The text.
    #[inline]
    pub fn text(&self) -> &[u8]
        ensures value { result.now ≡ self.now }
        ensures short { length self.now ≤ 8192 }
    {
        &self.octets[..self.len]
    }

    /// Puts a text at the end.
    #[inline(always)]
    pub fn put_text(&mut self, text: &[u8])
        requires room { length self.old + length text.now ≤ 8192 }
        ensures text { self.new ≡ self.old ++ text.now }
        ensures len { length self.new ≡ length self.old + length text.now }
    {
        let end = self.len + text.len();
        self.octets[self.len..end].copy_from_slice(text);
        self.len = end;
    }

    /// Puts a number in decimal digits at the end.
    #[inline]
    pub fn put_number(&mut self, number: u64)
        requires room { length self.old + 20 ≤ 8192 }
        ensures text { self.new ≡ self.old ++ decimal number }
        ensures len { length self.new ≤ length self.old + 20 }
        ensures word { number < 65536 → length self.new ≤ length self.old + 5 }
        ensures octet { number < 256 → length self.new ≤ length self.old + 3 }
    {
        if number < 10_000 {
            return self.put_short(number as u16);
        }
        if number < 100_000_000 {
            self.put_short((number / 10_000) as u16);
            return self.put_four((number % 10_000) as u16);
        }
        self.put_text(Buffer::new().format(number).as_bytes());
    }

    /// Puts a number below 10,000 in decimal digits at the end.
    #[inline(always)]
    fn put_short(&mut self, number: u16)
        requires short { number < 10000 }
        requires room { length self.old + 4 ≤ 8192 }
        ensures text { self.new ≡ self.old ++ decimal number }
        ensures len { length self.new ≤ length self.old + 4 }
        ensures one { number < 10 → length self.new ≤ length self.old + 1 }
        ensures three { number < 1000 → length self.new ≤ length self.old + 3 }
    {
        if number < 10 {
            self.put_text(&[b'0' + number as u8]);
        } else if number < 100 {
            self.put_text(&[b'0' + (number / 10) as u8, b'0' + (number % 10) as u8]);
        } else if number < 1000 {
            self.put_three(number);
        } else {
            self.put_four(number);
        }
    }

    /// Puts a number below 1,000 in three decimal digits at the end.
    #[inline(always)]
    fn put_three(&mut self, number: u16)
        requires three { number < 1000 }
        requires room { length self.old + 3 ≤ 8192 }
        ensures text { self.new ≡ self.old ++ (48 + number / 100) ∷ (48 + number / 10 % 10) ∷ (48 + number % 10) ∷ [] }
        ensures len { length self.new ≡ length self.old + 3 }
    {
        self.put_text(&[
            b'0' + (number / 100) as u8,
            b'0' + (number / 10 % 10) as u8,
            b'0' + (number % 10) as u8,
        ]);
    }

    /// Puts a number below 10,000 in four decimal digits at the end.
    #[inline(always)]
    fn put_four(&mut self, number: u16)
        requires four { number < 10000 }
        requires room { length self.old + 4 ≤ 8192 }
        ensures text { self.new ≡ self.old ++ (48 + number / 1000)
            ∷ (48 + number / 100 % 10) ∷ (48 + number / 10 % 10) ∷ (48 + number % 10) ∷ [] }
        ensures len { length self.new ≡ length self.old + 4 }
    {
        self.put_text(&[
            b'0' + (number / 1000) as u8,
            b'0' + (number / 100 % 10) as u8,
            b'0' + (number / 10 % 10) as u8,
            b'0' + (number % 10) as u8,
        ]);
    }
}
