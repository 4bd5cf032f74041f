//! Lists of counts.
ghost use Rattle.std.specs.Prelude.{◌≡◌, ℕ, length, slice_index_or, slice_set};
ghost use Rattle.run_counts.specs.Told.{sum_of};

/// Adds to each count another. Each ends at 2^64 - 1.
pub fn add_all(counts: &mut [u64], others: &[u64])
    requires { length counts.old ≡ length others.now }
    ensures size { length counts.new ≡ length counts.old }
    ensures sums { (i : ℕ) → slice_index_or counts.new i 0 ≡ sum_of (slice_index_or counts.old i 0) (slice_index_or others.now i 0) }
{
    for index in 0..counts.len() {
        counts[index] = counts[index].saturating_add(others[index]);
    }
}

/// Sets a count, where there is one.
pub fn set_count(counts: &mut [u64], index: usize, count: u64)
    ensures { counts.new ≡ slice_set counts.old index count }
{
    if index < counts.len() {
        counts[index] = count;
    }
}
