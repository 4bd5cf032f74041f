//! Draws from a seed.

/// Numbers that come of a seed, one after another: the mix of SplitMix64.
#[derive(Clone, Copy)]
pub struct Draws {
    state: u64,
}

impl Draws {
    /// Those of a seed.
    pub fn new(seed: u32) -> Draws {
        let mut draws = Draws {
            state: u64::from(seed),
        };
        draws.state = draws.word();
        draws
    }

    /// The next one.
    pub fn word(&mut self) -> u64 {
        self.state = self.state.wrapping_add(0x9E37_79B9_7F4A_7C15);
        let mut word = self.state;
        word = (word ^ (word >> 30)).wrapping_mul(0xBF58_476D_1CE4_E5B9);
        word = (word ^ (word >> 27)).wrapping_mul(0x94D0_49BB_1331_11EB);
        word ^ (word >> 31)
    }

    /// One below a number; 0 where that is 0.
    pub fn below(&mut self, count: u32) -> u32 {
        let product = (self.word() >> 32).wrapping_mul(u64::from(count));
        (product >> 32) as u32
    }

    /// One octet.
    pub fn octet(&mut self) -> u8 {
        self.word().to_le_bytes()[7]
    }
}

/// One of `count` numbers from 0 on, by the 16 bits of a drawn word from this place on.
#[inline(always)]
pub fn part_of(word: u64, place: u32, count: u32) -> u32 {
    let bits = word.wrapping_shr(place) & 0xFFFF;
    (bits.wrapping_mul(u64::from(count)) >> 16) as u32
}
