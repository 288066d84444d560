//! Results put in the order of their chunks. Nothing here knows of threads.
ghost use Rattle.std.specs.Prelude.{◌≡◌, List, length, map, Some, IfOk, All, slice_get};
ghost use Rattle.jul_base.specs.Times.{EachOnceBelow};

use std::alloc::{AllocError, Global};

/// This many places for results, each without one.
fn vacant<X: Drop>(alloc: Global, count: usize) -> Result<Vec<Option<X>>, AllocError>
    ensures { IfOk result (λ v. length v.items ≡ count) }
{
    let mut places = Vec::with_capacity(alloc, count)?;
    for _ in 0..count {
        places.push(None)?;
    }
    Ok(places)
}

/// Puts each result at its chunk.
fn place<X: Drop>(mut done: Vec<(u32, X)>, places: &mut Vec<Option<X>>)
    requires once { EachOnceBelow (length places.old.items) (map (λ p. p.0) done.items) }

    ensures len { length places.new.items ≡ length places.old.items }
    ensures placed { All (λ p. slice_get places.new.items p.0 ≡ Some (Some p.1)) done.items }
{
    while let Some((chunk, out)) = done.pop() {
        places[chunk as usize] = Some(out);
    }
}

/// The results of places that all have one.
fn unwrap_all<X: Drop>(alloc: Global, mut places: Vec<Option<X>>) -> Result<Vec<X>, AllocError>
    requires { (xs : List X) × (places.items ≡ map Some xs) }
    ensures { IfOk result (λ v. places.items ≡ map Some v.items) }
{
    let mut outs = Vec::with_capacity(alloc, places.len())?;
    while let Some(place) = places.pop() {
        let Some(out) = place else { unreachable!() };
        outs.push(out)?;
    }
    outs.reverse();
    Ok(outs)
}

/// The chunks of results, in the order in which they stand.
pub fn chunks_of<X>(alloc: Global, done: &[(u32, X)]) -> Result<Vec<u32>, AllocError>
    ensures { IfOk result (λ v. v.items ≡ map (λ p. p.0) done.now) }
{
    done.iter().map(|p| p.0).collect(alloc)
}

/// The results in the order of chunks, and the chunks in the order in which they stand in `done`.
pub fn settle<X: Drop>(
    alloc: Global,
    chunks: u32,
    done: Vec<(u32, X)>,
) -> Result<(Vec<X>, Vec<u32>), AllocError>
    requires { EachOnceBelow chunks (map (λ p. p.0) done.items) }

    ensures count { IfOk result (λ r. length r.0.items ≡ chunks) }
    ensures stored { IfOk result (λ r. All (λ p. slice_get r.0.items p.0 ≡ Some p.1) done.items) }
    ensures order { IfOk result (λ r. r.1.items ≡ map (λ p. p.0) done.items) }
{
    let order = chunks_of(alloc, done.as_slice())?;
    let mut places = vacant(alloc, chunks as usize)?;
    place(done, &mut places);
    let outs = unwrap_all(alloc, places)?;
    Ok((outs, order))
}
