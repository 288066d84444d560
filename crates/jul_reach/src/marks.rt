//! Marks of vertices.
ghost use Rattle.std.specs.Prelude.{◌≡◌, ◌+◌, ◌↔◌, ◌⊎◌, ℕ, ◌<◌, true, false, not, length, All, Contains, count_by};
ghost use Rattle.std.specs.List.Sorted.{IsStrictlyIncreasing};
ghost use Rattle.jul_reach.specs.Reaching.{mark_at};

/// Marks these vertices, none of which has a mark.
pub fn mark_all(marks: &mut [bool], ids: &[u32])
    requires increasing { IsStrictlyIncreasing ids.now }
    requires unmarked { All (λ v. mark_at marks.old v ≡ false) ids.now }
    requires within { All (λ v. v < length marks.old) ids.now }

    ensures marked { (v : ℕ) → (mark_at marks.new v ≡ true) ↔ ((mark_at marks.old v ≡ true) ⊎ Contains ids.now v) }
    ensures fewer { count_by not marks.new + length ids.now ≡ count_by not marks.old }
{
    for id in ids {
        marks[*id as usize] = true;
    }
}
