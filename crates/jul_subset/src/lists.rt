//! Subsets made from lists of ids.
ghost use Rattle.std.specs.Prelude.{◌≡◌, ℕ, ◌<◌, ◌≤◌, ◌↔◌, false, IfOk, IfErr};
ghost use Rattle.std.specs.Prelude.{length, slice_index, All, Contains};
ghost use Rattle.std.specs.List.Sorted.{IsStrictlyIncreasing};
ghost use Rattle.jul_base.specs.declared.limits.TheConstants.{MAX_N};
ghost use Rattle.jul_subset.specs.Subsets.{IsSubset};
ghost use Rattle.jul_subset.specs.Lists.{FindsRepeat, IsRightBefore, NamesFirstWrong};

use crate::errors::SubsetError;
use crate::marks::{listed, marks_at};
use crate::subsets::VertexSubset;
use jul_base::in_order;
use std::alloc::{AllocError, Global};

/// A list is put in order by marks where it has an id for each so many vertices, else it is sorted.
const SHARE_FOR_MARKS: usize = 32;

impl VertexSubset {
    /// The sparse subset of these ids, of a graph of `n` vertices. The time depends on the length of the list and
    /// not on `n`. An error names the first id that isn't below `n` or stands earlier in the list.
    pub fn from_list(alloc: Global, n: u32, ids: &[u32]) -> Result<VertexSubset, SubsetError>
        requires few { n ≤ MAX_N }

        ensures n { IfOk result (λ s. s.n ≡ n) }
        ensures sparse { IfOk result (λ s. s.dense ≡ false) }
        ensures subset { IfOk result IsSubset }
        ensures members { IfOk result (λ s. (v : ℕ) → Contains s.members v ↔ Contains ids.now v) }
        ensures right { IfOk result (λ _. IsRightBefore n ids.now (length ids.now)) }
        ensures wrong { IfErr result (NamesFirstWrong n ids.now) }
    {
        let inside = first_outside(n, ids);
        let (front, _) = ids.split_at(inside);
        let members = in_order(Vec::from_slice(alloc, front)?);
        match first_repeat(alloc, front, members.as_slice())? {
            Some(at) => Err(SubsetError::Repeat { at }),
            None => {
                if inside < ids.len() {
                    return Err(SubsetError::Range { at: inside });
                }
                Ok(VertexSubset::from_increasing(alloc, n, members))
            }
        }
    }

    /// The sparse subset of these ids below `n`, which may stand in any order and more than once. A long list is put
    /// in order by a mark for each vertex, a short one is sorted.
    pub fn from_unordered(alloc: Global, n: u32, ids: Vec<u32>) -> Result<VertexSubset, AllocError>
        requires few { n ≤ MAX_N }
        requires within { All (λ v. v < n) ids.items }

        ensures n { IfOk result (λ s. s.n ≡ n) }
        ensures sparse { IfOk result (λ s. s.dense ≡ false) }
        ensures subset { IfOk result IsSubset }
        ensures members { IfOk result (λ s. (v : ℕ) → Contains s.members v ↔ Contains ids.items v) }
    {
        if ids.len() < n as usize / SHARE_FOR_MARKS {
            return Ok(VertexSubset::from_increasing(alloc, n, in_order(ids)));
        }
        let marks = marks_at(alloc, n, ids.as_slice())?;
        let members = listed(alloc, ids.len(), marks.as_slice())?;
        Ok(VertexSubset::from_increasing(alloc, n, members))
    }
}

/// The first place whose id isn't below `n`, or the length of the list.
fn first_outside(n: u32, ids: &[u32]) -> usize
    ensures in_list { result ≤ length ids.now }
    ensures before { (i : ℕ) → i < result → slice_index ids.now i < n }
    ensures at { result < length ids.now → n ≤ slice_index ids.now result }
{
    for (at, id) in ids.iter().enumerate() {
        if *id >= n {
            return at;
        }
    }
    ids.len()
}

/// The first place of `ids` whose id stands earlier too. `members` are the ids in increasing order.
fn first_repeat(alloc: Global, ids: &[u32], members: &[u32]) -> Result<Option<usize>, AllocError>
    requires increasing { IsStrictlyIncreasing members.now }
    requires all { (v : ℕ) → Contains ids.now v → Contains members.now v }

    ensures { IfOk result (FindsRepeat ids.now) }
{
    let mut seen = vec![in alloc; false; members.len()]?;
    for (at, id) in ids.iter().enumerate() {
        let rank = rank_of(members, *id);
        if seen[rank] {
            return Ok(Some(at));
        }
        seen[rank] = true;
    }
    Ok(None)
}

/// The place of a member in the increasing list.
fn rank_of(members: &[u32], v: u32) -> usize
    requires increasing { IsStrictlyIncreasing members.now }
    requires member { Contains members.now v }

    ensures in_list { result < length members.now }
    ensures at { slice_index members.now result ≡ v }
{
    members.binary_search(&v).unwrap_or(0)
}
