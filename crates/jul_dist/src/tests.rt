//! Distances that were added up by hand, with several numbers of workers.
ghost use Rattle.std.specs.Prelude.{◌≤◌, ◌<◌, All};
ghost use Rattle.jul_base.specs.Graph.{vertices};
ghost use Rattle.jul_base.specs.InRows.{IsFlip};

use crate::least_distances;
use jul_base::{Column, CountGate, Gate, NONE, OpenGate};
use jul_pool::Team;
use jul_rows::Rows;
use std::alloc::Global;
use std::process::Abort;
use std::test::Fail;
use std::thread::Threads;

/// The rows of these lists. Lists that aren't lawful end the test.
fn rows_of(alloc: Global, offsets: &[u32], targets: &[u32], weights: &[u32]) -> Result<Rows, Fail> {
    Ok(Rows::of_lists(alloc, offsets, targets, weights)?.ok_or("no lawful graph")?)
}

/// From 0 to 1 (9) and 2 (1), from 1 to 3 (5), from 2 to 1 (6).
fn diamond(alloc: Global) -> Result<Rows, Fail> {
    rows_of(alloc, &[0, 2, 3, 4], &[1, 2, 3, 1], &[9, 1, 5, 6])
}

/// The distances with a gate, one vertex to a chunk and two buckets open. Sources that aren't vertices end the test.
fn from<R: Threads + Sync + Abort, G: Gate>(
    rt: &R,
    alloc: Global,
    rows: &Rows,
    sources: &[u32],
    delta: u64,
    workers: u32,
    gate: &G,
) -> Result<Column, Fail>
    requires delta { 1 ≤ delta }
    requires workers { (1 ≤ workers) × (workers ≤ 64) }
{
    for source in sources {
        assert!(rt; *source < rows.n());
    }
    let team = Team {
        workers,
        chunk: 1,
        gate,
    };
    let in_rows = rows.flip()?;
    let pushed = least_distances(rt, alloc, &team, rows, None, sources, delta, 2)?;
    let found = least_distances(rt, alloc, &team, rows, Some(&in_rows), sources, delta, 2)?;
    assert_eq!(rt; pushed.as_slice(), found.as_slice());
    Ok(found)
}

#[test]
fn a_vertex_that_is_lowered_in_its_own_bucket_is_drawn_again(rt: HostRuntime) -> Result<(), Fail> {
    // With a delta of 10 vertex 1 gets 9, is drawn with vertex 2 from bucket 0, is lowered to 7 and is drawn from
    // bucket 0 again. With a delta of 1 it is moved from bucket 9 to bucket 7.
    let rows = diamond(rt.alloc())?;
    for workers in [1u32, 2, 7] {
        for delta in [1u64, 10] {
            let dist = from(&rt, rt.alloc(), &rows, &[0], delta, workers, &OpenGate)?;
            let expected = [0, 7, 1, 12];
            assert_eq!(rt;
                dist.as_slice(),
                expected.as_slice(),
                "{workers} workers, {delta}"
            );
        }
    }
    Ok(())
}

#[test]
fn the_nearest_of_two_sources_counts(rt: HostRuntime) -> Result<(), Fail> {
    let rows = diamond(rt.alloc())?;
    for workers in [1u32, 2, 7] {
        let dist = from(&rt, rt.alloc(), &rows, &[0, 2], 10, workers, &OpenGate)?;
        assert_eq!(rt;
            dist.as_slice(),
            [0, 6, 0, 11].as_slice(),
            "{workers} workers"
        );
    }
    Ok(())
}

#[test]
fn a_way_round_may_be_shorter(rt: HostRuntime) -> Result<(), Fail> {
    // From 0 to 1 (5) and 2 (1), from 2 to 1 (2). Vertex 3 isn't reached.
    let rows = rows_of(rt.alloc(), &[0, 2, 2, 3], &[1, 2, 1], &[5, 1, 2])?;
    for workers in [1u32, 2, 7] {
        let dist = from(&rt, rt.alloc(), &rows, &[0], 1, workers, &OpenGate)?;
        assert_eq!(rt;
            dist.as_slice(),
            [0, 3, 1, NONE].as_slice(),
            "{workers} workers"
        );
    }
    Ok(())
}

#[test]
fn distances_exceed_32_bits(rt: HostRuntime) -> Result<(), Fail> {
    // From 0 to 1 and from 1 to 2, with the greatest weight.
    let rows = rows_of(rt.alloc(), &[0, 1, 2], &[1, 2], &[u32::MAX, u32::MAX])?;
    for workers in [1u32, 2, 7] {
        let dist = from(&rt, rt.alloc(), &rows, &[0], 1, workers, &OpenGate)?;
        let expected = [0, 4_294_967_295, 8_589_934_590];
        assert_eq!(rt; dist.as_slice(), expected.as_slice(), "{workers} workers");
    }
    Ok(())
}

#[test]
fn the_rounds_go_through_the_pool(rt: HostRuntime) -> Result<(), Fail> {
    // Vertex 0 is drawn, then 1 and 2, then 1 again, then 3: five vertices, each in a chunk of its own.
    let rows = diamond(rt.alloc())?;
    let gate = CountGate::new();
    let dist = from(&rt, rt.alloc(), &rows, &[0], 10, 2, &gate)?;
    assert_eq!(rt; dist.as_slice(), [0, 7, 1, 12].as_slice());
    assert!(rt; gate.take() >= 5);
    Ok(())
}
