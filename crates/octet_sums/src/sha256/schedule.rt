//! The schedule of a block (FIPS 180-4, 6.2.2), four words at a time.
//!
//! It follows a published method, that of Intel's white paper "Fast SHA-256 Implementations on Intel Architecture Processors"
//! (2012): four words stand in a vector, and since the last two of them need the first two, the small sigma 1 is added in two
//! halves. A rotation by 17 or 19 is one shift of a word that stands twice beside itself in a number of 64 bits: in the low
//! half a shift to the right leaves the word's rotation. The constants of four rounds are added at once.
ghost use Rattle.std.specs.Prelude.{◌≡◌, ℕ, ◌+◌, ◌*◌, ◌/◌, ◌%◌, ◌^◌, ◌<◌, ◌≤◌, ◌∷◌, List, [], length, map, slice_index};
ghost use Rattle.std.specs.Int.{w32, rotate_right};
ghost use Rattle.sha2.specs.Sha256.{schedule, small_sigma0, small_sigma1, word_at};
ghost use Rattle.octet_sums.specs.Lanes.{four, four_keyed};

use std::simd::prelude::*;

/// The constants of the rounds (FIPS 180-4, 4.2.2).
const ROUND_CONSTANTS: [u32; 64] = [
    0x428a_2f98,
    0x7137_4491,
    0xb5c0_fbcf,
    0xe9b5_dba5,
    0x3956_c25b,
    0x59f1_11f1,
    0x923f_82a4,
    0xab1c_5ed5,
    0xd807_aa98,
    0x1283_5b01,
    0x2431_85be,
    0x550c_7dc3,
    0x72be_5d74,
    0x80de_b1fe,
    0x9bdc_06a7,
    0xc19b_f174,
    0xe49b_69c1,
    0xefbe_4786,
    0x0fc1_9dc6,
    0x240c_a1cc,
    0x2de9_2c6f,
    0x4a74_84aa,
    0x5cb0_a9dc,
    0x76f9_88da,
    0x983e_5152,
    0xa831_c66d,
    0xb003_27c8,
    0xbf59_7fc7,
    0xc6e0_0bf3,
    0xd5a7_9147,
    0x06ca_6351,
    0x1429_2967,
    0x27b7_0a85,
    0x2e1b_2138,
    0x4d2c_6dfc,
    0x5338_0d13,
    0x650a_7354,
    0x766a_0abb,
    0x81c2_c92e,
    0x9272_2c85,
    0xa2bf_e8a1,
    0xa81a_664b,
    0xc24b_8b70,
    0xc76c_51a3,
    0xd192_e819,
    0xd699_0624,
    0xf40e_3585,
    0x106a_a070,
    0x19a4_c116,
    0x1e37_6c08,
    0x2748_774c,
    0x34b0_bcb5,
    0x391c_0cb3,
    0x4ed8_aa4a,
    0x5b9c_ca4f,
    0x682e_6ff3,
    0x748f_82ee,
    0x78a5_636f,
    0x84c8_7814,
    0x8cc7_0208,
    0x90be_fffa,
    0xa450_6ceb,
    0xbef9_a3f7,
    0xc671_78f2,
];

/// The word at this octet of a block, its first octet the highest.
#[inline(always)]
fn word(block: &[u8], at: usize) -> u32
    requires { at + 4 ≤ length block.now }
    ensures { result ≡ word_at block.now at }
{
    u32::from_be_bytes([block[at], block[at + 1], block[at + 2], block[at + 3]])
}

/// Four words of a block from the word `t` on: the front of its schedule.
#[inline(always)]
pub(crate) fn block_words(block: &[u8], t: usize) -> u32x4
    requires block { length block.now ≡ 64 }
    requires within { t + 4 ≤ 16 }
    ensures { result ≡ four (schedule block.now 48) t }
{
    u32x4::from_array([
        word(block, 4 * t),
        word(block, 4 * (t + 1)),
        word(block, 4 * (t + 2)),
        word(block, 4 * (t + 3)),
    ])
}

#[inline(always)]
fn rotated(x: u32x4, by: u32) -> u32x4
    requires { (0 < by) × (by < 32) }
    ensures { result ≡ map (λ n. rotate_right w32 n by) x }
{
    (x >> u32x4::splat(by)) | (x << u32x4::splat(32 - by))
}

#[inline(always)]
fn small_sigma0(x: u32x4) -> u32x4
    ensures { result ≡ map small_sigma0 x }
{
    rotated(x, 7) ^ rotated(x, 18) ^ (x >> u32x4::splat(3))
}

/// Pairs of neighbouring words, each as one number.
#[inline(always)]
fn doubled(x: u32x4) -> u64x2
    ensures { (a b : ℕ) → x ≡ a ∷ a ∷ b ∷ b ∷ [] → result ≡ (a * 2 ^ 32 + a) ∷ (b * 2 ^ 32 + b) ∷ [] }
{
    u64x2::from_le_bytes(x.to_le_bytes())
}

/// The low and the high half of each number.
#[inline(always)]
fn halves(x: u64x2) -> u32x4
    ensures { (p q : ℕ) → x ≡ p ∷ q ∷ []
        → result ≡ p % 2 ^ 32 ∷ p / 2 ^ 32 % 2 ^ 32 ∷ q % 2 ^ 32 ∷ q / 2 ^ 32 % 2 ^ 32 ∷ [] }
{
    u32x4::from_le_bytes(x.to_le_bytes())
}

/// The small sigma 1 of two words that stand twice beside each other, in the first and the third lane: what a shift moves
/// out of one is what a rotation puts in.
#[inline(always)]
fn two_sigmas(x: u32x4) -> u32x4
    ensures { (a b : ℕ) → x ≡ a ∷ a ∷ b ∷ b ∷ []
        → (length result ≡ 4) × (slice_index result 0 ≡ small_sigma1 a) × (slice_index result 2 ≡ small_sigma1 b) }
{
    let both = doubled(x);
    let turned: u64x2 = (both >> u64x2::splat(17)) ^ (both >> u64x2::splat(19));
    halves(turned) ^ (x >> u32x4::splat(10))
}

/// The small sigma 1 of the last two of four words.
#[inline(always)]
fn last_sigmas(x: u32x4) -> u32x4
    ensures { (a b c d : ℕ) → x ≡ a ∷ b ∷ c ∷ d ∷ [] → result ≡ small_sigma1 c ∷ small_sigma1 d ∷ 0 ∷ 0 ∷ [] }
{
    two_sigmas(x.swizzle([2, 2, 3, 3])).shuffle(u32x4::splat(0), [0, 2, 4, 5])
}

/// The small sigma 1 of the first two of four words, in the places of the last two.
#[inline(always)]
fn first_sigmas(x: u32x4) -> u32x4
    ensures { (a b c d : ℕ) → x ≡ a ∷ b ∷ c ∷ d ∷ [] → result ≡ 0 ∷ 0 ∷ small_sigma1 a ∷ small_sigma1 b ∷ [] }
{
    two_sigmas(x.swizzle([0, 0, 1, 1])).shuffle(u32x4::splat(0), [4, 5, 0, 2])
}

/// The four words behind sixteen of the schedule. The last two of them follow from the first two.
#[inline(always)]
pub(crate) fn next_words(w0: u32x4, w1: u32x4, w2: u32x4, w3: u32x4) -> u32x4
    ensures { (b : List ℕ) (t : ℕ) → t + 20 ≤ 64 → w0 ≡ four (schedule b 48) t → w1 ≡ four (schedule b 48) (t + 4)
        → w2 ≡ four (schedule b 48) (t + 8) → w3 ≡ four (schedule b 48) (t + 12)
        → result ≡ four (schedule b 48) (t + 16) }
{
    let part: u32x4 = w0
        + w2.shuffle(w3, [1, 2, 3, 4])
        + small_sigma0(w0.shuffle(w1, [1, 2, 3, 4]));
    let first: u32x4 = part + last_sigmas(w3);
    first + first_sigmas(first)
}

/// Four words of a schedule from the word `t` on, each with its round's constant added.
#[inline(always)]
pub(crate) fn with_constants(w: u32x4, t: usize) -> u32x4
    requires { t + 4 ≤ 64 }
    ensures { (words : List ℕ) → w ≡ four words t → result ≡ four_keyed words t }
{
    w + u32x4::from_slice(&ROUND_CONSTANTS[t..])
}
