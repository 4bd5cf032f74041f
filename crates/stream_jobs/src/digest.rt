//! A digest of octets.
ghost use Rattle.std.specs.Prelude.{◌≤◌, None, length};

use byteorder::{ByteOrder, LittleEndian};
use pcap::stream::{DeviceFault, Output, WriteFault};

/// How many octets are added at once.
const BLOCK: usize = 32;

/// Sums of words, and sums of these sums, in four lanes. It depends on the octets alone, whatever pieces they come in. It is
/// cheap beside the work that made the octets, and tells two texts of one run apart, but nobody who means harm.
#[derive(Clone, Copy)]
pub struct Digest {
    sums: [u64; 4],
    sums_of_sums: [u64; 4],
    /// The words of the block that isn't whole.
    block: [u64; 4],
    length: u64,
}

impl Digest {
    /// That of no octets.
    pub fn new() -> Digest {
        Digest {
            sums: [0; 4],
            sums_of_sums: [0; 4],
            block: [0; 4],
            length: 0,
        }
    }

    /// Adds octets.
    pub fn add(&mut self, octets: &[u8]) {
        let missing = (BLOCK - (self.length % 32) as usize) % BLOCK;
        let (front, rest) = octets.split_at(missing.min(octets.len()));
        self.add_singly(front);
        let blocks = rest.len() / BLOCK;
        for number in 0..blocks {
            self.add_block(&rest[number * BLOCK..]);
        }
        self.add_singly(&rest[blocks * BLOCK..]);
    }

    /// Adds a number.
    pub fn add_number(&mut self, number: u64) {
        self.add(&number.to_le_bytes());
    }

    /// Adds octets one by one.
    fn add_singly(&mut self, octets: &[u8]) {
        for octet in octets {
            let at = (self.length % 32) as usize;
            self.block[at / 8] |= u64::from(*octet) << (at % 8 * 8);
            self.length = self.length.wrapping_add(1);
            if at == BLOCK - 1 {
                let block = self.block;
                self.mix(block);
                self.block = [0; 4];
            }
        }
    }

    /// Adds the first 32 octets.
    #[inline(always)]
    fn add_block(&mut self, octets: &[u8])
        requires { 32 ≤ length octets.now }
    {
        self.mix([
            LittleEndian::read_u64(octets),
            LittleEndian::read_u64(&octets[8..]),
            LittleEndian::read_u64(&octets[16..]),
            LittleEndian::read_u64(&octets[24..]),
        ]);
        self.length = self.length.wrapping_add(32);
    }

    /// Adds four words.
    #[inline(always)]
    fn mix(&mut self, words: [u64; 4]) {
        for lane in 0..4 {
            self.sums[lane] = self.sums[lane].wrapping_add(words[lane]);
            self.sums_of_sums[lane] = self.sums_of_sums[lane].wrapping_add(self.sums[lane]);
        }
    }

    /// The digest as one word.
    pub fn word(&self) -> u64 {
        let mut word = self.length;
        for lane in 0..4 {
            for part in [self.sums[lane], self.sums_of_sums[lane], self.block[lane]] {
                word = (word ^ part)
                    .wrapping_mul(0x9E37_79B9_7F4A_7C15)
                    .rotate_left(29);
            }
        }
        word
    }
}

/// An output that keeps nothing but the digest of what is written.
#[derive(Drop)]
pub struct DigestOutput {
    digest: Digest,
}

impl DigestOutput {
    /// One to which nothing was written.
    pub fn new() -> DigestOutput {
        DigestOutput {
            digest: Digest::new(),
        }
    }

    /// The digest of what was written.
    pub fn word(&self) -> u64 {
        self.digest.word()
    }
}

impl Output for DigestOutput {
    ghost written = { λ _. None };

    ghost failures = { λ _. 0 };

    fn hand_on_held(&mut self) -> Result<(), WriteFault> {
        Ok(())
    }

    fn write(&mut self, octets: &[u8]) -> Result<usize, DeviceFault> {
        self.digest.add(octets);
        Ok(octets.len())
    }
}
