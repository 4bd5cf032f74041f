//! Rows.

/// A key, and what is counted of it.
#[derive(Clone, Copy, Debug)]
pub struct KeyCount<K, C> {
    pub key: K,
    pub counts: C,
}
