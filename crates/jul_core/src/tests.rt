//! Cores worked out by hand, with several numbers of workers.
ghost use Rattle.std.specs.Prelude.{◌≡◌, ◌≤◌, ◌<◌, [], IfOk};
ghost use Rattle.jul_base.specs.Graph.{vertices};
ghost use Rattle.jul_base.specs.Symmetry.{IsSymmetric};
ghost use Rattle.jul_bucket.specs.declared.orders.Order.TheVariants.{Increasing};
ghost use Rattle.jul_words.specs.Seats.{rooted, zeros};
ghost use Rattle.jul_core.specs.Peels.{AreDegrees};

use crate::columns::degrees;
use crate::symmetry::are_windows_mirrored;
use crate::{cores_of, is_found_symmetric, peel};
use jul_base::{CountGate, Gate, MAX_N, OpenGate};
use jul_bucket::{Buckets, Order};
use jul_pool::Team;
use jul_rows::Rows;
use jul_words::{CountSeat, CountWords};
use std::alloc::{AllocError, Global};
use std::process::Abort;
use std::test::Fail;
use std::thread::Threads;

/// The rows of a graph without weights. Lists that make no graph end the test.
fn graph_of(alloc: Global, offsets: &[u32], targets: &[u32]) -> Result<Rows, Fail> {
    Ok(Rows::of_lists(alloc, offsets, targets, &[])?.ok_or("no lawful graph")?)
}

/// The same where the graph is to be symmetric, which it must be.
fn rows_of(rt: &impl Abort, alloc: Global, offsets: &[u32], targets: &[u32]) -> Result<Rows, Fail>
    ensures { IfOk result (λ rows. IsSymmetric rows) }
{
    let rows = graph_of(alloc, offsets, targets)?;
    assert!(rt; rows.first_asymmetry()?.is_none());
    Ok(rows)
}

/// Two triangles, 0 1 2 and 3 4 5, and an edge between 2 and 3.
fn triangles(rt: &impl Abort, alloc: Global) -> Result<Rows, Fail>
    ensures { IfOk result (λ rows. IsSymmetric rows) }
{
    rows_of(
        rt,
        alloc,
        &[0, 2, 4, 7, 10, 12],
        &[1, 2, 0, 2, 0, 1, 3, 2, 4, 5, 3, 5, 3, 4],
    )
}

/// A table with a word for each vertex.
fn counts_for(alloc: Global, rows: &Rows) -> Result<(CountWords, CountSeat), AllocError>
    ensures { IfOk result (λ r. r.1 ≡ rooted (zeros r.0 (vertices rows.now))) }
{
    CountWords::open(alloc, rows.n())
}

/// The buckets of the degrees, of which two are open.
fn buckets_for(alloc: Global, rows: &Rows) -> Result<Buckets, AllocError>
    ensures order { IfOk result (λ b. b.order ≡ Increasing) }
    ensures degrees { IfOk result (λ b. AreDegrees rows.now b.places) }
    ensures no_draws { IfOk result (λ b. b.draws ≡ []) }
{
    prove!(rows.n() <= MAX_N);
    let places = degrees(alloc, rows)?;
    Buckets::make(alloc, Order::Increasing, 2, places.as_slice())
}

/// Whether these buckets and ids were drawn, and no others.
fn draws_are(buckets: &Buckets, expected: &[(u64, &[u32])]) -> bool {
    let draws = buckets.drawn();
    if draws.len() != expected.len() {
        return false;
    }
    for (draw, (bucket, ids)) in draws.iter().zip(expected.iter()) {
        if draw.bucket != *bucket || draw.ids.as_slice() != *ids {
            return false;
        }
    }
    true
}

/// Peels with one vertex to a chunk, and ends the test where columns or draws aren't these.
fn peels_to<R: Threads + Sync + Abort, G: Gate>(
    rt: &R,
    alloc: Global,
    rows: &Rows,
    workers: u32,
    gate: &G,
    columns: (&[u64], &[u64]),
    draws: &[(u64, &[u32])],
) -> Result<(), Fail>
    requires symmetric { IsSymmetric rows.now }
    requires workers { (1 ≤ workers) × (workers ≤ 64) }
{
    let team = Team {
        workers,
        chunk: 1,
        gate,
    };
    let (counts, seat) = counts_for(alloc, rows)?;
    let mut buckets = buckets_for(alloc, rows)?;
    let out = peel(rt, alloc, &team, rows, &counts, seat, &mut buckets)?;
    let (core, level) = columns;
    assert_eq!(rt; out.cores.core.as_slice(), core, "{workers} workers");
    assert_eq!(rt; out.cores.level.as_slice(), level, "{workers} workers");
    assert!(rt; draws_are(&buckets, draws), "{workers} workers");
    Ok(())
}

#[test]
fn joined_triangles_are_a_core_in_two_levels(rt: HostRuntime) -> Result<(), Fail> {
    // The corners go first. The middle has one place left then, and stays in bucket 2.
    let rows = triangles(&rt, rt.alloc())?;
    let columns = (
        [2u64, 2, 2, 2, 2, 2].as_slice(),
        [0u64, 0, 1, 1, 0, 0].as_slice(),
    );
    let draws = [(2u64, [0u32, 1, 4, 5].as_slice()), (2, [2, 3].as_slice())];
    for workers in [1u32, 2, 7, 64] {
        peels_to(
            &rt,
            rt.alloc(),
            &rows,
            workers,
            &OpenGate,
            columns,
            draws.as_slice(),
        )?;
    }
    Ok(())
}

#[test]
fn a_vertex_that_hangs_on_a_triangle_goes_first(rt: HostRuntime) -> Result<(), Fail> {
    let rows = rows_of(&rt, rt.alloc(), &[0, 2, 4, 7], &[1, 2, 0, 2, 0, 1, 3, 2])?;
    let columns = ([2u64, 2, 2, 1].as_slice(), [1u64, 1, 1, 0].as_slice());
    let draws = [(1u64, [3u32].as_slice()), (2, [0, 1, 2].as_slice())];
    for workers in [1u32, 2, 7] {
        peels_to(
            &rt,
            rt.alloc(),
            &rows,
            workers,
            &OpenGate,
            columns,
            draws.as_slice(),
        )?;
    }
    let team = Team {
        workers: 2,
        chunk: 1,
        gate: &OpenGate,
    };
    let cores = cores_of(&rt, rt.alloc(), &team, &rows, 1)?;
    assert_eq!(rt; cores.core.as_slice(), columns.0);
    Ok(())
}

/// Whether workers find the graph symmetric, or not, as wanted.
fn found_is<R: Threads + Sync>(
    rt: &R,
    alloc: Global,
    rows: &Rows,
    workers: u32,
    symmetric: bool,
) -> Result<bool, Fail>
    requires workers { (1 ≤ workers) × (workers ≤ 64) }
{
    let team = Team {
        workers,
        chunk: 1,
        gate: &OpenGate,
    };
    Ok(
        are_windows_mirrored(rt, alloc, &team, rows)? == symmetric
            && is_found_symmetric(rt, alloc, &team, rows)? == symmetric,
    )
}

#[test]
fn a_symmetric_graph_is_found_symmetric_in_windows(rt: HostRuntime) -> Result<(), Fail> {
    let rows = triangles(&rt, rt.alloc())?;
    for workers in [1u32, 2, 3, 7] {
        assert!(rt;
            found_is(&rt, rt.alloc(), &rows, workers, true)?,
            "{workers} workers"
        );
    }
    Ok(())
}

#[test]
fn rows_in_any_order_are_found_symmetric_in_windows(rt: HostRuntime) -> Result<(), Fail> {
    // Two triangles and an edge between 2 and 3.
    let offsets = [0u32, 2, 4, 7, 10, 12];
    let symmetric = graph_of(
        rt.alloc(),
        offsets.as_slice(),
        &[2, 1, 2, 0, 3, 1, 0, 5, 2, 4, 3, 5, 4, 3],
    )?;
    // The row of 3 has 4 twice and lacks 5.
    let asymmetric = graph_of(
        rt.alloc(),
        offsets.as_slice(),
        &[2, 1, 2, 0, 3, 1, 0, 4, 2, 4, 3, 5, 4, 3],
    )?;
    for workers in [1u32, 3] {
        assert!(rt;
            found_is(&rt, rt.alloc(), &symmetric, workers, true)?,
            "{workers} workers"
        );
        assert!(rt;
            found_is(&rt, rt.alloc(), &asymmetric, workers, false)?,
            "{workers} workers"
        );
    }
    Ok(())
}

#[test]
fn each_chunk_of_each_round_passes_the_gate(rt: HostRuntime) -> Result<(), Fail> {
    // 4 and then 2 vertices are drawn, and both times all 6 are reached.
    let rows = triangles(&rt, rt.alloc())?;
    let gate = CountGate::new();
    let team = Team {
        workers: 2,
        chunk: 1,
        gate: &gate,
    };
    cores_of(&rt, rt.alloc(), &team, &rows, 2)?;
    assert_eq!(rt; gate.take(), 18);
    Ok(())
}
