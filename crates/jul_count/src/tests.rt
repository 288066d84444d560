//! Counts worked out by hand, with several numbers of workers.
ghost use Rattle.std.specs.Prelude.{◌≡◌, ◌≤◌, ◌==◌, not, IfOk};
ghost use Rattle.jul_base.specs.Graph.{vertices};
ghost use Rattle.jul_count.specs.Adds.{CanCount};

use crate::{edge_counts_noted, edge_map_count, pack};
use jul_base::{CountGate, Gate, Ids, OpenGate};
use jul_pool::Team;
use jul_rows::Rows;
use jul_subset::{VertexSubset, VertexTest};
use jul_words::{CountSeat, CountWords};
use std::alloc::{AllocError, Global};
use std::process::Abort;
use std::test::Fail;
use std::thread::Threads;

/// The rows of a graph without weights. Lists that aren't lawful end the test.
fn rows_of(alloc: Global, offsets: &[u32], targets: &[u32]) -> Result<Rows, Fail> {
    Ok(Rows::of_lists(alloc, offsets, targets, &[])?.ok_or("no lawful graph")?)
}

/// Two triangles, 0 1 2 and 3 4 5, and an edge between 2 and 3.
fn triangles(alloc: Global) -> Result<Rows, Fail> {
    rows_of(
        alloc,
        &[0, 2, 4, 7, 10, 12],
        &[1, 2, 0, 2, 0, 1, 3, 2, 4, 5, 3, 5, 3, 4],
    )
}

/// A table with a word for each vertex, all of them 0.
fn counts_for(alloc: Global, rows: &Rows) -> Result<(CountWords, CountSeat), AllocError>
    ensures { IfOk result (λ r. CanCount (vertices rows.now) r.0 r.1) }
{
    CountWords::open(alloc, rows.n())
}

/// The counts from a subset, with one member to a chunk.
fn counted<R: Threads + Sync + Abort, G: Gate>(
    rt: &R,
    alloc: Global,
    rows: &Rows,
    from: &VertexSubset,
    workers: u32,
    gate: &G,
) -> Result<Vec<(u32, u64)>, Fail>
    requires n { from.now.n ≡ vertices rows.now }
    requires workers { (1 ≤ workers) × (workers ≤ 64) }
{
    let team = Team {
        workers,
        chunk: 1,
        gate,
    };
    let (counts, seat) = counts_for(alloc, rows)?;
    let (list, _seat) = edge_map_count(rt, alloc, &team, rows, from, &counts, seat)?;
    Ok(list)
}

#[test]
fn repeated_places_are_each_counted(rt: HostRuntime) -> Result<(), Fail> {
    let rows = rows_of(rt.alloc(), &[0, 2], &[1, 1, 0, 0])?;
    let from = VertexSubset::from_list(rt.alloc(), rows.n(), &[0])?;
    for workers in [1u32, 2] {
        let list = counted(&rt, rt.alloc(), &rows, &from, workers, &OpenGate)?;
        assert_eq!(rt; list.as_slice(), [(1, 2)].as_slice(), "{workers} workers");
    }
    Ok(())
}

#[test]
fn a_vertex_that_several_members_lead_to_stands_once(rt: HostRuntime) -> Result<(), Fail> {
    // Vertex 2 is a neighbour of all three members, each of the others of one of them.
    let rows = triangles(rt.alloc())?;
    let mut from = VertexSubset::from_list(rt.alloc(), rows.n(), &[0, 1, 3])?;
    let expected = [(0, 1), (1, 1), (2, 3), (4, 1), (5, 1)];
    for workers in [1u32, 2, 7, 64] {
        let list = counted(&rt, rt.alloc(), &rows, &from, workers, &OpenGate)?;
        assert_eq!(rt; list.as_slice(), expected.as_slice(), "{workers} workers");
    }
    from.to_dense()?;
    let list = counted(&rt, rt.alloc(), &rows, &from, 2, &OpenGate)?;
    assert_eq!(rt; list.as_slice(), expected.as_slice(), "dense");
    Ok(())
}

/// The same in no order from a list, into lists that held something.
fn noted<R: Threads + Sync + Abort, G: Gate>(
    rt: &R,
    alloc: Global,
    rows: &Rows,
    members: &[u32],
    workers: u32,
    gate: &G,
) -> Result<Vec<(u32, u64)>, Fail>
    requires workers { (1 ≤ workers) × (workers ≤ 64) }
{
    let team = Team {
        workers,
        chunk: 1,
        gate,
    };
    let from = VertexSubset::from_list(alloc, rows.n(), members)?;
    prove!(from.n() == rows.n());
    let (counts, seat) = counts_for(alloc, rows)?;
    let mut noted = vec![in alloc; 7u32; 3]?;
    let mut list = vec![in alloc; (7u32, 7u64); 3]?;
    let Some(ids) = from.as_slice() else {
        return Ok(list);
    };
    let _seat = edge_counts_noted(
        rt, alloc, &team, rows, ids, &counts, seat, &mut noted, &mut list,
    )?;
    Ok(list)
}

#[test]
fn noted_counts_are_the_counts_in_some_order(rt: HostRuntime) -> Result<(), Fail> {
    let rows = triangles(rt.alloc())?;
    let expected = [(0, 1), (1, 1), (2, 3), (4, 1), (5, 1)];
    for workers in [1u32, 2, 7] {
        let gate = CountGate::new();
        let mut list = noted(&rt, rt.alloc(), &rows, &[0, 1, 3], workers, &gate)?;
        list.sort()?;
        assert_eq!(rt; list.as_slice(), expected.as_slice(), "{workers} workers");
        assert_eq!(rt; gate.take(), 3, "{workers} workers");
    }
    Ok(())
}

#[test]
fn no_member_leads_nowhere(rt: HostRuntime) -> Result<(), Fail> {
    let rows = triangles(rt.alloc())?;
    let none = VertexSubset::from_list(rt.alloc(), rows.n(), &[])?;
    let list = counted(&rt, rt.alloc(), &rows, &none, 2, &OpenGate)?;
    assert_eq!(rt; list.len(), 0);
    Ok(())
}

#[test]
fn each_chunk_of_members_passes_the_gate(rt: HostRuntime) -> Result<(), Fail> {
    let rows = triangles(rt.alloc())?;
    let from = VertexSubset::from_list(rt.alloc(), rows.n(), &[0, 2, 3, 5])?;
    let gate = CountGate::new();
    counted(&rt, rt.alloc(), &rows, &from, 2, &gate)?;
    assert_eq!(rt; gate.take(), 4);
    Ok(())
}

/// Keeps each vertex but one.
#[derive(Drop)]
struct AllBut {
    v: u32,
}

impl VertexTest for AllBut {
    ghost can_test = { λ _ _. Unit {0} };

    ghost kept = { λ test v. not (v == test.v) };

    fn keeps(&self, v: u32) -> bool {
        v != self.v
    }
}

/// Whether these are the sets with these elements.
fn packs_are(packs: &[(u32, Ids)], expected: &[(u32, &[u32])]) -> bool {
    if packs.len() != expected.len() {
        return false;
    }
    for ((s, kept), (set, elements)) in packs.iter().zip(expected.iter()) {
        if *s != *set || kept.as_slice() != *elements {
            return false;
        }
    }
    true
}

#[test]
fn sets_are_packed_in_the_order_of_the_list(rt: HostRuntime) -> Result<(), Fail> {
    // Set 0 is 2 and 3, set 1 is 3 and 4.
    let rows = rows_of(rt.alloc(), &[0, 2, 4, 4, 4], &[2, 3, 3, 4])?;
    let sets = rows.elements()?;
    assert_eq!(rt; sets.n(), 5);
    let expected = [(1u32, [4u32].as_slice()), (0, [2].as_slice())];
    for workers in [1u32, 2, 7] {
        let team = Team {
            workers,
            chunk: 1,
            gate: &OpenGate,
        };
        let packs = pack(&rt, rt.alloc(), &team, &[1, 0], &sets, &AllBut { v: 3 })?;
        assert!(rt;
            packs_are(packs.as_slice(), expected.as_slice()),
            "{workers} workers"
        );
    }
    Ok(())
}
