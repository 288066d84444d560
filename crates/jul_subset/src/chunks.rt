//! Lists cut into chunks, and the results of chunks put together.
ghost use Rattle.std.specs.Prelude.{◌≡◌, ◌*◌, ◌<◌, IfOk, length};
ghost use Rattle.std.specs.List.{flat_map};
ghost use Rattle.jul_subset.specs.Chunks.{chunk_of};

use std::alloc::{AllocError, Global};

/// The part of `items` that chunk `n` has, where each but the last has `size` of them.
#[inline]
pub fn chunk_at<T>(items: &[T], size: usize, n: usize) -> &[T]
    requires { n * size < length items.now }

    ensures { result.now ≡ chunk_of items.now size n }
{
    let (_, rest) = items.split_at(n * size);
    if rest.len() < size {
        return rest;
    }
    let (members, _) = rest.split_at(size);
    members
}

/// The lists of all chunks, one after another. Memory is taken once.
pub fn joined<T: Copy + Drop>(alloc: Global, outs: &Vec<Vec<T>>) -> Result<Vec<T>, AllocError>
    ensures { IfOk result (λ all. all.items ≡ flat_map (λ out. out.items) outs.now.items) }
{
    let mut all = Vec::with_capacity(alloc, length_of_all(outs))?;
    for out in outs {
        all.extend_from_slice(out.as_slice())?;
    }
    Ok(all)
}

/// How many items the lists have together.
fn length_of_all<T: Drop>(outs: &Vec<Vec<T>>) -> usize {
    let mut len: usize = 0;
    for out in outs {
        len = len.saturating_add(out.len());
    }
    len
}
