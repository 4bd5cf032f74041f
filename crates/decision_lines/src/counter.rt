//! A number that is counted in decimal digits.
ghost use Rattle.std.specs.Prelude.{◌≡◌, ℕ, ◌≤◌, ◌<◌, ◌+◌, ◌*◌, ◌^◌, ◌++◌, List, length, take, decimal};

use crate::line::digits;
use itoa::write_digits;
use std::marker::Model;

/// A number and its decimal digits, from the first place on.
#[derive(Drop)]
pub struct Counter {
    digits: [u8; 20],
    len: usize,
    value: u64,
}

impl Model for Counter {
    ghost Value = { ℕ };

    ghost view = { λ c. c.value };

    ghost invariant = { λ c. (c.len ≤ 20) × (take c.len c.digits ≡ decimal c.value) };
}

impl Counter {
    /// Zero.
    pub fn new() -> Counter
        ensures { result ≡ 0 }
    {
        Counter {
            digits: [b'0'; 20],
            len: 1,
            value: 0,
        }
    }

    /// The number itself.
    #[inline]
    pub fn value(&self) -> u64
        ensures { result ≡ self.now }
    {
        self.value
    }

    /// Goes on to another number, which is mostly the same or the next.
    #[inline]
    pub fn go_to(&mut self, number: u64)
        ensures { self.new ≡ number }
    {
        if self.value == number {
            return;
        }
        if self.value < number && number - self.value == 1 {
            self.add_one();
        } else {
            self.begin_at(number);
        }
    }

    /// Begins anew at a number.
    fn begin_at(&mut self, number: u64)
        ensures { self.new ≡ number }
    {
        self.value = number;
        self.len = write_whole(number, &mut self.digits);
    }

    /// Writes its digits at a place in a line's room, and answers where they end.
    #[inline]
    pub(crate) fn write_at(&self, room: &mut [u8; 65536], at: usize) -> usize
        requires room { at + 20 ≤ 65536 }
        ensures end { result ≡ at + length (decimal self.now) }
        ensures within { result ≤ at + 20 }
        ensures text { take result room.new ≡ take at room.old ++ decimal self.now }
    {
        room[at..at + 20].copy_from_slice(&self.digits);
        at + self.len
    }

    /// Adds one.
    #[inline(always)]
    pub fn add_one(&mut self)
        requires { self.old + 1 < 2 ^ 64 }
        ensures { self.new ≡ self.old + 1 }
    {
        self.value += 1;
        let last = self.len - 1;
        if self.digits[last] < b'9' {
            self.digits[last] += 1;
        } else {
            self.len = write_whole(self.value, &mut self.digits);
        }
    }
}

/// Writes a number from the first place on, and answers the number of its digits.
fn write_whole(value: u64, room: &mut [u8; 20]) -> usize
    ensures text { take result room.new ≡ decimal value }
    ensures short { result ≤ 20 }
{
    let count = digits(value);
    write_digits(value, room, count);
    count
}
