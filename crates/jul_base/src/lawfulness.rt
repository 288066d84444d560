//! Tests of the lists of a graph.
ghost use Rattle.std.specs.Prelude.{◌≡◌, ℕ, ◌+◌, ◌<◌, ◌≤◌, ◌↔◌, All, IsTrue, length, slice_index};

/// Whether no number is greater than the next.
pub(crate) fn rises(xs: &[u32]) -> bool
    ensures { IsTrue result ↔ ((v : ℕ) → v + 1 < length xs.now →
        slice_index xs.now v ≤ slice_index xs.now (v + 1)) }
{
    for i in 1..xs.len() {
        if xs[i] < xs[i - 1] {
            return false;
        }
    }
    true
}

/// Whether each number is below the bound.
pub(crate) fn are_below(xs: &[u32], bound: usize) -> bool
    ensures { IsTrue result ↔ All (λ x. x < bound) xs.now }
{
    xs.iter().all(|x| (*x as usize) < bound)
}

/// Whether the list is empty or its first number is 0.
pub(crate) fn begins_with_zero(xs: &[u32]) -> bool
    ensures { IsTrue result ↔ (slice_index xs.now 0 ≡ 0) }
{
    match xs.first() {
        Some(x) => *x == 0,
        None => true,
    }
}
