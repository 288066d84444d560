//! Which vertices are sources: a mark for each, by one pass over the list.
ghost use Rattle.std.specs.Prelude.{◌<◌, All, IfOk};
ghost use Rattle.jul_base.specs.Sets.{has};
ghost use Rattle.jul_check.specs.Marks.{AreMarks};

use std::alloc::{AllocError, Global};

/// A mark for each of `n` vertices, set where it is a source. Takes memory for a mark a vertex.
pub(crate) fn mark_sources(alloc: Global, sources: &[u32], n: u32) -> Result<Vec<bool>, AllocError>
    requires within { All (λ s. s < n) sources.now }

    ensures marks { IfOk result (λ marks. AreMarks n (has sources.now) marks.items) }
{
    let mut marks = vec![in alloc; false; n as usize]?;
    for s in sources {
        marks[*s as usize] = true;
    }
    Ok(marks)
}
