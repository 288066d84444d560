//! Trees that were drawn by hand, with several numbers of workers.
ghost use Rattle.std.specs.Prelude.{◌≡◌, ◌≤◌, [], ◌∷◌, true, IfOk};
ghost use Rattle.jul_base.specs.declared.graphs.RawGraph.{RawGraph};
ghost use Rattle.jul_base.specs.Graph.{vertices, IsLawful};
ghost use Rattle.jul_base.specs.Sources.{AreSources};
ghost use Rattle.jul_base.specs.Distances.{AreDistances};

use crate::hops_and_parents;
use jul_base::{Column, CountGate, Gate, NONE, OpenGate};
use jul_pool::Team;
use jul_rows::Rows;
use std::alloc::Global;
use std::process::Abort;
use std::test::Fail;
use std::thread::Threads;

/// A ring of weight 0 from 2 to 0, to 1 and back to 2. From 1 and from 2 to 3 (5), from 0 (5), from 2 (6) and from 3 (0) to 4,
/// and from 5 to 2 (1). No walk leads to 5.
fn ring(alloc: Global) -> Result<Rows, Fail>
    ensures lawful { IfOk result (λ rows. IsLawful rows) }
    ensures graph { IfOk result (λ rows. rows ≡ record {
      weighted = true;
      offsets = 0 ∷ 2 ∷ 4 ∷ 7 ∷ 8 ∷ 8 ∷ [];
      targets = 1 ∷ 4 ∷ 2 ∷ 3 ∷ 0 ∷ 3 ∷ 4 ∷ 4 ∷ 2 ∷ [];
      weights = 0 ∷ 5 ∷ 0 ∷ 5 ∷ 0 ∷ 5 ∷ 6 ∷ 0 ∷ 1 ∷ [];
    }) }
{
    let rows = Rows::of_lists(
        alloc,
        &[0, 2, 4, 7, 8, 8],
        &[1, 4, 2, 3, 0, 3, 4, 4, 2],
        &[0, 5, 0, 5, 0, 5, 6, 0, 1],
    )?;
    Ok(rows.ok_or("no lawful graph")?)
}

/// From 0 to 1 (9) and 2 (1), from 1 to 3 (5), from 2 to 1 (6).
fn diamond(alloc: Global) -> Result<Rows, Fail>
    ensures lawful { IfOk result (λ rows. IsLawful rows) }
    ensures graph { IfOk result (λ rows. rows ≡ record {
      weighted = true;
      offsets = 0 ∷ 2 ∷ 3 ∷ 4 ∷ [];
      targets = 1 ∷ 2 ∷ 3 ∷ 1 ∷ [];
      weights = 9 ∷ 1 ∷ 5 ∷ 6 ∷ [];
    }) }
{
    let rows = Rows::of_lists(alloc, &[0, 2, 3, 4], &[1, 2, 3, 1], &[9, 1, 5, 6])?;
    Ok(rows.ok_or("no lawful graph")?)
}

/// Hops and parents with a gate, and one vertex to a chunk.
fn drawn<R: Threads + Sync, G: Gate>(
    rt: &R,
    alloc: Global,
    rows: &Rows,
    sources: &[u32],
    dist: &[u64],
    workers: u32,
    gate: &G,
) -> Result<(Column, Column), Fail>
    requires sources { AreSources (vertices rows.now) sources.now }
    requires dist { AreDistances rows.now sources.now dist.now }
    requires workers { (1 ≤ workers) × (workers ≤ 64) }
{
    let team = Team {
        workers,
        chunk: 1,
        gate,
    };
    Ok(hops_and_parents(rt, alloc, &team, rows, None, sources, dist)?)
}

/// Ends the test where 1, 2 or 7 workers find other hops or parents.
fn expect<R: Threads + Sync + Abort>(
    rt: &R,
    alloc: Global,
    rows: &Rows,
    sources: &[u32],
    dist: &[u64],
    hops: &[u64],
    parent: &[u64],
) -> Result<(), Fail>
    requires sources { AreSources (vertices rows.now) sources.now }
    requires dist { AreDistances rows.now sources.now dist.now }
{
    for workers in [1u32, 2, 7] {
        let found = drawn(rt, alloc, rows, sources, dist, workers, &OpenGate)?;
        assert_eq!(rt; found.0.as_slice(), hops, "{workers} workers");
        assert_eq!(rt; found.1.as_slice(), parent, "{workers} workers");
    }
    Ok(())
}

#[test]
fn the_least_of_the_tight_parents_with_the_fewest_hops(rt: HostRuntime) -> Result<(), Fail> {
    // Both 1 and 2 are tight to 3, and 1 has more hops. Both 0 and 3 are tight to 4, with as many hops.
    let rows = ring(rt.alloc())?;
    expect(
        &rt,
        rt.alloc(),
        &rows,
        [2u32].as_slice(),
        [0, 0, 0, 5, 5, NONE].as_slice(),
        [1, 2, 0, 1, 2, NONE].as_slice(),
        [2, 0, NONE, 2, 0, NONE].as_slice(),
    )
}

#[test]
fn each_of_two_sources_has_no_hops_and_no_parent(rt: HostRuntime) -> Result<(), Fail> {
    // The place of weight 0 from 1 to 2 is tight, and 2 has no parent.
    let rows = ring(rt.alloc())?;
    expect(
        &rt,
        rt.alloc(),
        &rows,
        [1u32, 2].as_slice(),
        [0, 0, 0, 5, 5, NONE].as_slice(),
        [1, 0, 0, 1, 2, NONE].as_slice(),
        [2, NONE, NONE, 1, 0, NONE].as_slice(),
    )
}

#[test]
fn the_rounds_go_through_the_pool(rt: HostRuntime) -> Result<(), Fail> {
    // 0 leads to 2, 2 to 1 and 1 to 3: a round for each of the four, with one chunk at least.
    let rows = diamond(rt.alloc())?;
    let gate = CountGate::new();
    let (hops, parent) = drawn(
        &rt,
        rt.alloc(),
        &rows,
        [0u32].as_slice(),
        [0, 7, 1, 12].as_slice(),
        2,
        &gate,
    )?;
    assert_eq!(rt; hops.as_slice(), [0, 2, 1, 3].as_slice());
    assert_eq!(rt; parent.as_slice(), [NONE, 2, 0, 1].as_slice());
    assert!(rt; gate.take() >= 4);
    Ok(())
}
