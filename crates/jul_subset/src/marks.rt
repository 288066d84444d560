//! A mark for each vertex: made from a list of ids, and read back as an increasing list.
ghost use Rattle.std.specs.Prelude.{◌≡◌, ℕ, ◌<◌, ◌^◌, ◌↔◌, true, IfOk, length, All, Contains};
ghost use Rattle.jul_subset.specs.Marks.{mark_at, marked};

use std::alloc::{AllocError, Global};

/// Marks of so many vertices, set at each of `ids`.
pub(crate) fn marks_at(alloc: Global, n: u32, ids: &[u32]) -> Result<Vec<bool>, AllocError>
    requires within { All (λ v. v < n) ids.now }

    ensures len { IfOk result (λ marks. length marks.items ≡ n) }
    ensures set { IfOk result (λ marks. (v : ℕ) → (mark_at marks.items v ≡ true) ↔ Contains ids.now v) }
{
    let mut marks = vec![in alloc; false; n as usize]?;
    for id in ids {
        marks[*id as usize] = true;
    }
    Ok(marks)
}

/// The vertices that have a mark, in increasing order, in a list with room for `len` of them.
pub(crate) fn listed(alloc: Global, len: usize, marks: &[bool]) -> Result<Vec<u32>, AllocError>
    requires few { length marks.now < 2 ^ 32 }

    ensures { IfOk result (λ ids. ids.items ≡ marked marks.now) }
{
    let mut ids = Vec::with_capacity(alloc, len)?;
    for (v, mark) in marks.iter().enumerate() {
        if *mark {
            ids.push(v as u32)?;
        }
    }
    Ok(ids)
}
