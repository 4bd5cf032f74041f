//! The number and two sums of octets.
ghost use Rattle.std.specs.Prelude.{◌≡◌, ◌≤◌, ◌<◌, ◌+◌, ◌*◌, ◌/◌, ◌%◌, ◌^◌, List, ℕ, [], ◌∷◌, ◌++◌, length, take, IsTrue, ◌↔◌};
ghost use Rattle.octet_sums.specs.Sums.{IsSumOf, prime};

use byteorder::{ByteOrder, LittleEndian};

/// How many octets a word has.
const WORD: usize = 8;

/// What the sums are taken modulo: the greatest prime below 2^64.
const PRIME: u128 = 18_446_744_073_709_551_557;

/// How many octets are summed at most before what was summed is reduced: few enough for both sums to fit.
const BLOCK: usize = 65_536;

/// The number and two sums of octets, by which other octets are noticed where an accident brought them: Fletcher's sums (1982;
/// RFC 1146, 2) over words of 64 bits, little-endian and modulo the greatest prime below 2^64, of which the second counts the
/// words from the front.
///
/// Nobody who means to is kept from making other octets with the same sums.
#[derive(Clone, Copy, Debug, Default, PartialEq, Eq)]
pub struct OctetSum {
    /// How many octets there are.
    pub octets: u64,
    /// The sum of the words, the last one filled with zeros.
    pub first: u64,
    /// The sum of the words, each as often as its number, from 1.
    pub second: u64,
}

impl OctetSum {
    /// That of no octets.
    pub fn new() -> OctetSum
        ensures { IsSumOf result [] }
    {
        OctetSum {
            octets: 0,
            first: 0,
            second: 0,
        }
    }

    /// Whether both are the same.
    pub fn is_same(self, other: OctetSum) -> bool
        ensures { IsTrue result ↔ (self ≡ other) }
    {
        self.octets == other.octets && self.first == other.first && self.second == other.second
    }

    /// Adds octets behind those that it has.
    pub fn add(&mut self, octets: &[u8])
        ensures { (before : List ℕ) → IsSumOf self.old before → IsSumOf self.new (before ++ octets.now) }
    {
        let (begun, at) = self.to_word(octets);
        *self = begun.with_rest(&octets[at..]);
    }

    /// The same with octets up to the end of a word, and how many they are; where they aren't all, the next begins a word.
    fn to_word(self, octets: &[u8]) -> (OctetSum, usize)
        ensures bound { result.1 ≤ length octets.now }
        ensures sum { (before : List ℕ) → IsSumOf self before → IsSumOf result.0 (before ++ take result.1 octets.now) }
        ensures word { result.1 < length octets.now → result.0.octets % 8 ≡ 0 }
    {
        let mut sum = self;
        let mut at = 0;
        while at < octets.len() && sum.octets % 8 != 0 {
            sum = sum.with_octet(octets[at]);
            at += 1;
        }
        (sum, at)
    }

    /// The same with octets of which the first, where there are any, begins a word.
    fn with_rest(self, octets: &[u8]) -> OctetSum
        requires { 0 < length octets.now → self.octets % 8 ≡ 0 }
        ensures { (before : List ℕ) → IsSumOf self before → IsSumOf result (before ++ octets.now) }
    {
        let (whole, at) = self.with_words(octets);
        whole.with_each(&octets[at..])
    }

    /// The same with as many words as there are, and how many octets they have.
    fn with_words(self, octets: &[u8]) -> (OctetSum, usize)
        requires { 0 < length octets.now → self.octets % 8 ≡ 0 }
        ensures bound { result.1 ≤ length octets.now }
        ensures sum { (before : List ℕ) → IsSumOf self before → IsSumOf result.0 (before ++ take result.1 octets.now) }
    {
        let mut sum = self;
        let mut at = 0;
        while octets.len() - at >= WORD {
            let (longer, count) = sum.with_block(&octets[at..]);
            sum = longer;
            at += count;
        }
        (sum, at)
    }

    /// The same with the words that octets begin with, as many as are summed at most, where they begin one, and how many octets
    /// they have.
    ///
    /// What is summed is reduced once, and each word is added in place of multiplied: the second of what is summed has the
    /// first word most often, the last one once.
    fn with_block(self, octets: &[u8]) -> (OctetSum, usize)
        requires long { 8 ≤ length octets.now }
        requires word { self.octets % 8 ≡ 0 }
        ensures some { 8 ≤ result.1 }
        ensures bound { result.1 ≤ length octets.now }
        ensures word { result.0.octets % 8 ≡ 0 }
        ensures sum { (before : List ℕ) → IsSumOf self before → IsSumOf result.0 (before ++ take result.1 octets.now) }
    {
        let most = octets.len().min(BLOCK);
        let mut at = 0;
        let mut first = 0_u128;
        let mut falling = 0_u128;
        while most - at >= WORD {
            let word = LittleEndian::read_u64(&octets[at..]);
            first += u128::from(word);
            falling += first;
            at += WORD;
        }
        (self.with_summed(at, first, falling), at)
    }

    /// The same with words of so many octets, by their sum and by that of each as often as there are words from it on.
    fn with_summed(self, count: usize, first: u128, falling: u128) -> OctetSum
        requires word { self.octets % 8 ≡ 0 }
        requires words { count % 8 ≡ 0 }
        requires few { count ≤ 65536 }
        requires summed { first ≤ 2 ^ 80 }
        ensures octets { result.octets ≡ (self.octets + count) % 2 ^ 64 }
        ensures first { result.first ≡ (self.first + first) % prime }
        ensures second { (rising : ℕ) → rising + falling ≡ (self.octets / 8 + count / 8 + 1) * first
            → result.second ≡ (self.second + rising) % prime }
    {
        let number = u128::from(self.octets / 8) + (count / WORD) as u128 + 1;
        let all = number * (first % PRIME);
        OctetSum {
            octets: self.octets.wrapping_add(count as u64),
            first: reduced(u128::from(self.first) + first),
            second: reduced(u128::from(self.second) + all + (PRIME - falling % PRIME)),
        }
    }

    /// The same with each of these octets.
    fn with_each(self, octets: &[u8]) -> OctetSum
        ensures { (before : List ℕ) → IsSumOf self before → IsSumOf result (before ++ octets.now) }
    {
        let mut sum = self;
        for octet in octets {
            sum = sum.with_octet(*octet);
        }
        sum
    }

    /// The same with one octet.
    fn with_octet(self, octet: u8) -> OctetSum
        ensures { (before : List ℕ) → IsSumOf self before → IsSumOf result (before ++ octet ∷ []) }
    {
        let told = u64::from(octet) << (8 * (self.octets % 8));
        let number = self.octets / 8 + 1;
        OctetSum {
            octets: self.octets.wrapping_add(1),
            first: reduced(u128::from(self.first) + u128::from(told)),
            second: reduced(u128::from(self.second) + u128::from(told) * u128::from(number)),
        }
    }
}

/// A sum modulo the prime.
fn reduced(sum: u128) -> u64
    ensures { result ≡ sum % prime }
{
    (sum % PRIME) as u64
}
