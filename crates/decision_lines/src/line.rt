//! A line of text in one buffer.
//!
//! Where the line ends is read into a variable once in each call. Read from its field it would be read anew behind each octet
//! that is put: nothing tells the compiler that the octet isn't written over that word, which lies behind the array. That costs
//! 65 to 92 instructions an event.
ghost use Rattle.std.specs.Prelude.{◌≡◌, ℕ, ◌≤◌, ◌<◌, ◌+◌, ◌/◌, ◌%◌, List, [], ◌∷◌, ◌++◌, length, take, decimal};
ghost use Rattle.endpoint_core.specs.Text.{hex_digit, hex_octet};

use crate::counter::Counter;
use itoa::write_digits;
use std::marker::Model;

/// The two decimal digits of each number below 100.
static PAIRS: [[u8; 2]; 100] = [
    *b"00", *b"01", *b"02", *b"03", *b"04", *b"05", *b"06", *b"07", *b"08", *b"09", *b"10", *b"11",
    *b"12", *b"13", *b"14", *b"15", *b"16", *b"17", *b"18", *b"19", *b"20", *b"21", *b"22", *b"23",
    *b"24", *b"25", *b"26", *b"27", *b"28", *b"29", *b"30", *b"31", *b"32", *b"33", *b"34", *b"35",
    *b"36", *b"37", *b"38", *b"39", *b"40", *b"41", *b"42", *b"43", *b"44", *b"45", *b"46", *b"47",
    *b"48", *b"49", *b"50", *b"51", *b"52", *b"53", *b"54", *b"55", *b"56", *b"57", *b"58", *b"59",
    *b"60", *b"61", *b"62", *b"63", *b"64", *b"65", *b"66", *b"67", *b"68", *b"69", *b"70", *b"71",
    *b"72", *b"73", *b"74", *b"75", *b"76", *b"77", *b"78", *b"79", *b"80", *b"81", *b"82", *b"83",
    *b"84", *b"85", *b"86", *b"87", *b"88", *b"89", *b"90", *b"91", *b"92", *b"93", *b"94", *b"95",
    *b"96", *b"97", *b"98", *b"99",
];

/// A line in a buffer of 65,536 octets, seen by contracts as its text. It is cleared and written again, and never asks for
/// memory. Each call reads the length before it writes octets and not behind that: the compiler doesn't know that no octet is
/// written over the length.
///
/// The longest decision line has 59,134 octets at most: a front of 74, 767 outcomes of 77 each with its space, and the end of
/// the line. So each call has its room where a line is begun first and has no more outcomes than there are outlets.
#[derive(Drop)]
pub struct Line {
    octets: [u8; 65536],
    len: usize,
    /// The latest moment that was put, without its last eight digits.
    front: Counter,
}

impl Model for Line {
    ghost Value = { List ℕ };

    ghost view = { λ l. take l.len l.octets };

    ghost invariant = { λ l. l.len ≤ 65536 };
}

impl Line {
    /// An empty line.
    #[inline(never)]
    pub fn new() -> Line
        ensures { result ≡ [] }
    {
        Line {
            octets: [0; 65536],
            len: 0,
            front: Counter::new(),
        }
    }

    /// Empties the line.
    #[inline]
    pub fn clear(&mut self)
        ensures { self.new ≡ [] }
    {
        self.len = 0;
    }

    /// The text of the line.
    #[inline]
    pub fn text(&self) -> &[u8]
        ensures value { result.now ≡ self.now }
        ensures short { length self.now ≤ 65536 }
    {
        &self.octets[..self.len]
    }

    /// Puts one octet at the end.
    #[inline]
    pub fn put_octet(&mut self, octet: u8)
        requires room { length self.old < 65536 }
        ensures text { self.new ≡ self.old ++ octet ∷ [] }
        ensures len { length self.new ≡ length self.old + 1 }
    {
        let len = self.len;
        self.octets[len] = octet;
        self.len = len + 1;
    }

    /// Puts a text at the end.
    #[inline]
    pub fn put_text(&mut self, text: &[u8])
        requires room { length self.old + length text.now ≤ 65536 }
        ensures text { self.new ≡ self.old ++ text.now }
        ensures len { length self.new ≡ length self.old + length text.now }
    {
        let end = self.len + text.len();
        self.octets[self.len..end].copy_from_slice(text);
        self.len = end;
    }

    /// Puts a number in decimal digits at the end.
    #[inline(always)]
    pub fn put_number(&mut self, number: u64)
        requires room { length self.old + 20 ≤ 65536 }
        ensures text { self.new ≡ self.old ++ decimal number }
        ensures len { length self.new ≤ length self.old + 20 }
    {
        if number < 10_000 {
            return self.put_short(number as u16);
        }
        if number < 100_000_000 {
            self.put_short((number / 10_000) as u16);
            return self.put_four((number % 10_000) as u16);
        }
        self.put_long(number);
    }

    /// Puts a number from 100,000,000 on in decimal digits at the end.
    #[inline(always)]
    fn put_long(&mut self, number: u64)
        requires long { 100000000 ≤ number }
        requires room { length self.old + 20 ≤ 65536 }
        ensures text { self.new ≡ self.old ++ decimal number }
        ensures len { length self.new ≤ length self.old + 20 }
    {
        let high = number / 100_000_000;
        let low = (number % 100_000_000) as u32;
        if high < 10_000 {
            self.put_short(high as u16);
        } else {
            self.put_digits(high, digits(high));
        }
        self.put_four((low / 10_000) as u16);
        self.put_four((low % 10_000) as u16);
    }

    /// Puts a number below 10,000 in four decimal digits at the end.
    #[inline]
    fn put_four(&mut self, number: u16)
        requires four { number < 10000 }
        requires room { length self.old + 4 ≤ 65536 }
        ensures text { self.new ≡ self.old ++ (48 + number / 1000)
            ∷ (48 + number / 100 % 10) ∷ (48 + number / 10 % 10) ∷ (48 + number % 10) ∷ [] }
        ensures len { length self.new ≡ length self.old + 4 }
    {
        self.put_pair((number / 100) as u8);
        self.put_pair((number % 100) as u8);
    }

    /// Puts a number below 65,536 in decimal digits at the end.
    #[inline(always)]
    pub fn put_short(&mut self, number: u16)
        requires room { length self.old + 5 ≤ 65536 }
        ensures text { self.new ≡ self.old ++ decimal number }
        ensures len { length self.new ≤ length self.old + 5 }
    {
        if number < 100 {
            return self.put_small(number as u8);
        }
        if number < 10_000 {
            self.put_small((number / 100) as u8);
            return self.put_pair((number % 100) as u8);
        }
        let number = u64::from(number);
        self.put_digits(number, digits(number));
    }

    /// Puts a number below 256 in decimal digits at the end.
    #[inline]
    pub fn put_small(&mut self, number: u8)
        requires room { length self.old + 3 ≤ 65536 }
        ensures text { self.new ≡ self.old ++ decimal number }
        ensures len { length self.new ≤ length self.old + 3 }
        ensures two { number < 100 → length self.new ≤ length self.old + 2 }
    {
        if number < 10 {
            return self.put_octet(b'0' + number);
        }
        if number < 100 {
            return self.put_pair(number);
        }
        self.put_octet(b'0' + number / 100);
        self.put_pair(number % 100);
    }

    /// Puts a number below 100 in two decimal digits at the end.
    #[inline]
    fn put_pair(&mut self, number: u8)
        requires two { number < 100 }
        requires room { length self.old + 2 ≤ 65536 }
        ensures text { self.new ≡ self.old ++ (48 + number / 10) ∷ (48 + number % 10) ∷ [] }
        ensures len { length self.new ≡ length self.old + 2 }
    {
        let [tens, ones] = PAIRS[usize::from(number)];
        self.put_octet(tens);
        self.put_octet(ones);
    }

    /// Puts a number that has this many decimal digits.
    #[inline]
    fn put_digits(&mut self, number: u64, count: usize)
        requires count { count ≡ length (decimal number) }
        requires room { length self.old + count ≤ 65536 }
        ensures text { self.new ≡ self.old ++ decimal number }
        ensures len { length self.new ≡ length self.old + count }
    {
        let end = self.len + count;
        write_digits(number, &mut self.octets, end);
        self.len = end;
    }

    /// Puts a counted number in decimal digits at the end.
    #[inline]
    pub fn put_counter(&mut self, counter: &Counter)
        requires room { length self.old + 20 ≤ 65536 }
        ensures text { self.new ≡ self.old ++ decimal counter.now }
        ensures len { length self.new ≤ length self.old + 20 }
    {
        self.len = counter.write_at(&mut self.octets, self.len);
    }

    /// Puts a moment in decimal digits at the end. Those in front of its last eight are mostly those of the latest moment that was
    /// put, and are kept from it.
    #[inline(always)]
    pub fn put_moment(&mut self, moment: u64)
        requires room { length self.old + 28 ≤ 65536 }
        ensures text { self.new ≡ self.old ++ decimal moment }
        ensures len { length self.new ≤ length self.old + 20 }
    {
        if moment < 100_000_000 {
            return self.put_number(moment);
        }
        self.put_front(moment / 100_000_000);
        let low = (moment % 100_000_000) as u32;
        self.put_four((low / 10_000) as u16);
        self.put_four((low % 10_000) as u16);
    }

    /// Puts the digits of a number, which are mostly those that are kept.
    #[inline]
    fn put_front(&mut self, number: u64)
        requires room { length self.old + 20 ≤ 65536 }
        ensures text { self.new ≡ self.old ++ decimal number }
        ensures len { length self.new ≤ length self.old + 20 }
    {
        self.front.go_to(number);
        self.len = self.front.write_at(&mut self.octets, self.len);
    }

    /// Puts an octet in two hexadecimal digits at the end.
    #[inline]
    pub(crate) fn put_hex(&mut self, octet: u8)
        requires room { length self.old + 2 ≤ 65536 }
        ensures text { self.new ≡ self.old ++ hex_octet octet }
        ensures len { length self.new ≡ length self.old + 2 }
    {
        self.put_octet(hex_digit(octet / 16));
        self.put_octet(hex_digit(octet % 16));
    }
}

fn hex_digit(digit: u8) -> u8
    requires { digit < 16 }
    ensures { result ≡ hex_digit digit }
{
    if digit < 10 {
        b'0' + digit
    } else {
        b'a' - 10 + digit
    }
}

/// How many decimal digits a number has.
#[inline]
pub(crate) fn digits(number: u64) -> usize
    ensures value { result ≡ length (decimal number) }
    ensures short { result ≤ 20 }
    ensures small { number < 256 → result ≤ 3 }
    ensures word { number < 65536 → result ≤ 5 }
    ensures twelve { number < 1000000000000 → result ≤ 12 }
{
    if number < 10 {
        1
    } else {
        number.ilog10() as usize + 1
    }
}
