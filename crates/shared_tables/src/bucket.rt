//! Buckets of addresses, and their trees.
//!
//! Each bucket has sixty-four trees, told apart by six bits of a product of VID and address: so addresses that are numbered
//! one after another have mostly a tree each. Promises are said of buckets and hold, since entries of a tree are entries of
//! its bucket.
ghost use Rattle.std.specs.Prelude.{◌≡◌, ◌<◌, [], ◌∷◌};
ghost use Rattle.shared_tables.specs.Bucket.{bucket_of, tree_of, key_of, IsKey, vid_in, mac_in, spread};

use wire::ether::{Mac, Vid};

/// How many there are.
const BUCKETS: usize = 4096;

/// How many trees each of them has.
const TREES_EACH: usize = 64;

/// How many trees there are.
pub const TREES: usize = BUCKETS * TREES_EACH;

/// 2^64 over the golden ratio.
const GOLDEN: u64 = 0x9E37_79B9_7F4A_7C15;

/// Two octets and six as one number.
fn joined(vid: u16, a: u8, b: u8, c: u8, d: u8, e: u8, f: u8) -> u64
    ensures value { result ≡ key_of vid (a ∷ b ∷ c ∷ d ∷ e ∷ f ∷ []) }
    ensures vid { vid_in result ≡ vid }
    ensures mac { mac_in result ≡ a ∷ b ∷ c ∷ d ∷ e ∷ f ∷ [] }
    ensures fits { vid < 4096 → IsKey result }
{
    let upper = u64::from(u32::from_be_bytes([a, b, c, d]));
    let lower = u64::from(u16::from_be_bytes([e, f]));
    u64::from(vid) * 0x1_0000_0000_0000 + upper * 0x1_0000 + lower
}

/// A VID and an address as one number.
pub fn key(vid: Vid, mac: Mac) -> u64
    ensures value { result ≡ key_of vid mac }
    ensures vid { vid_in result ≡ vid }
    ensures mac { mac_in result ≡ mac }
    ensures fits { IsKey result }
{
    let [a, b, c, d, e, f] = mac.0;
    joined(vid.get(), a, b, c, d, e, f)
}

/// The VID in a key.
pub fn vid_of(key: u64) -> u16
    ensures { result ≡ vid_in key }
{
    let [high, low, _, _, _, _, _, _] = key.to_be_bytes();
    u16::from_be_bytes([high, low])
}

/// The address in a key.
pub fn mac_of(key: u64) -> Mac
    ensures { result ≡ mac_in key }
{
    let [_, _, a, b, c, d, e, f] = key.to_be_bytes();
    Mac([a, b, c, d, e, f])
}

/// The bucket of a key, below 4,096.
fn bucket_by_key(key: u64) -> usize
    ensures value { result ≡ bucket_of (vid_in key) (mac_in key) }
    ensures in_range { result < 4096 }
{
    let words = key
        .wrapping_add(key >> 16)
        .wrapping_add(key >> 32)
        .wrapping_add(key >> 48);
    (words % BUCKETS as u64) as usize
}

/// Which of its bucket's trees a key is in.
#[tactic(auto, unfolding(crate::specs::Bucket::spread))]
fn spread(key: u64) -> usize
    ensures value { result ≡ spread key }
    ensures in_range { result < 64 }
{
    (key.wrapping_mul(GOLDEN) >> 58) as usize % TREES_EACH
}

/// The number of a key's tree, below 262,144.
pub fn tree_by_key(key: u64) -> usize
    ensures value { result ≡ tree_of (vid_in key) (mac_in key) }
    ensures in_range { result < 262144 }
{
    bucket_by_key(key) * TREES_EACH + spread(key)
}

/// The number of the tree of an address in a segment, below 262,144.
pub fn tree_of(vid: Vid, mac: Mac) -> usize
    ensures value { result ≡ tree_of vid mac }
    ensures in_range { result < 262144 }
{
    tree_by_key(key(vid, mac))
}
