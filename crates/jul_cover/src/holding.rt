//! Which sets hold each element: the transpose of the sets.
ghost use Rattle.std.specs.Prelude.{◌≡◌, ℕ, ◌≤◌, [], length, IfOk, IfSome};
ghost use Rattle.jul_base.specs.declared.limits.TheConstants.{MAX_M};
ghost use Rattle.jul_cover.specs.Keeping.{AreHolders, AreRowsOf, capped};

use jul_base::{Ids, MAX_M, RawGraph};
use jul_rows::{InRows, Rows, SetRows};
use std::alloc::{AllocError, Global};

/// The holders of each element, in increasing order, or none where the sets have more elements together than a graph may
/// have places.
pub(crate) fn holders_of(alloc: Global, sets: &SetRows) -> Result<Option<InRows>, AllocError>
    ensures { IfOk result (λ found. IfSome found (AreHolders sets.now)) }
{
    let graph = graph_of(alloc, sets)?;
    if !graph.is_lawful() {
        return Ok(None);
    }
    Ok(Some(Rows::of(graph).flip()?))
}

/// The graph whose rows are the sets, if it is lawful.
fn graph_of(alloc: Global, sets: &SetRows) -> Result<RawGraph, AllocError>
    ensures { IfOk result (AreRowsOf sets.now) }
{
    let n = sets.n();
    let mut offsets = Vec::with_capacity(alloc, n as usize)?;
    let mut targets = Vec::new(alloc);
    for s in 0..n {
        offsets.push(offset_at(targets.len()))?;
        targets.extend_from_slice(sets.set(s))?;
    }
    Ok(RawGraph {
        weighted: false,
        offsets: Ids::from_vec(offsets),
        targets: Ids::from_vec(targets),
        weights: Ids::from_vec(Vec::new(alloc)),
    })
}

/// The offset of a row behind so many places. It is wrong where these are more than a lawful graph has.
fn offset_at(place: usize) -> u32
    ensures { result ≡ capped place }
{
    if place <= MAX_M as usize {
        place as u32
    } else {
        MAX_M
    }
}
