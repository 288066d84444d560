//! Verdicts that were worked out by hand.
ghost use Rattle.std.specs.Prelude.{◌≡◌, IfOk, IsTrue};
ghost use Rattle.jul_base.specs.Graph.{vertices};
ghost use Rattle.jul_base.specs.Sources.{AreSources};

use crate::{Reason, Verdict, check_cores, check_cover, check_distances};
use jul_base::{Column, Cores, Cover, Distances, NONE};
use jul_rows::Rows;
use std::alloc::{AllocError, Global};
use std::process::Abort;
use std::test::Fail;

/// A graph by its lists: offsets, targets and weights.
type Graph = (&'static [u32], &'static [u32], &'static [u32]);

/// What is judged: core and level, round and covering set, or distance, hops and parent from some sources.
#[derive(Clone, Copy)]
enum Columns {
    Cores(&'static [u64], &'static [u64]),
    Cover(&'static [u64], &'static [u64]),
    Distances(&'static [u32], &'static [u64], &'static [u64], &'static [u64]),
}

/// Columns on a graph, and the vertex and the reason of the no that is wanted, if any.
type Case = (Graph, Columns, Option<(u32, Reason)>);

fn column(alloc: Global, items: &[u64]) -> Result<Column, AllocError>
    ensures { IfOk result (λ c. c ≡ items.now) }
{
    Ok(Column::from_vec(Vec::from_slice(alloc, items)?))
}

/// Whether the list is of one vertex, or of two in increasing order.
fn are_few_sources(rows: &Rows, sources: &[u32]) -> bool
    ensures { IsTrue result → AreSources (vertices rows.now) sources.now }
{
    match sources {
        [only] => *only < rows.n(),
        [first, second] => *first < *second && *second < rows.n(),
        _ => false,
    }
}

fn verdict_on(
    rt: &impl Abort,
    alloc: Global,
    rows: &Rows,
    columns: Columns,
) -> Result<Verdict, AllocError> {
    let n = rows.n() as usize;
    match columns {
        Columns::Cores(core, level) => {
            assert!(rt; core.len() == n && level.len() == n);
            let core = column(alloc, core)?;
            let level = column(alloc, level)?;
            check_cores(alloc, rows, &Cores { core, level })
        }
        Columns::Cover(round, by) => {
            assert!(rt; round.len() == n && by.len() == n);
            let round = column(alloc, round)?;
            let by = column(alloc, by)?;
            check_cover(alloc, rows, &Cover { round, by })
        }
        Columns::Distances(sources, dist, hops, parent) => {
            assert!(rt; are_few_sources(rows, sources));
            assert!(rt; dist.len() == n && hops.len() == n && parent.len() == n);
            let dist = column(alloc, dist)?;
            let hops = column(alloc, hops)?;
            let parent = column(alloc, parent)?;
            let d = Distances { dist, hops, parent };
            check_distances(alloc, rows, sources, &d)
        }
    }
}

/// Ends the test where one of the verdicts is another.
fn expect_all(rt: &impl Abort, alloc: Global, cases: &[Case]) -> Result<(), Fail> {
    for (at, (graph, columns, wanted)) in cases.iter().enumerate() {
        let (offsets, targets, weights) = *graph;
        let rows = Rows::of_lists(alloc, offsets, targets, weights)?.ok_or("no lawful graph")?;
        let found = match verdict_on(rt, alloc, &rows, *columns)? {
            Verdict::Yes => None,
            Verdict::No { vertex, reason } => Some((vertex, reason)),
        };
        assert_eq!(rt; found, *wanted, "case {at}");
    }
    Ok(())
}

const NOTHING: Graph = (&[], &[], &[]);
/// One vertex without an edge.
const ALONE: Graph = (&[0], &[], &[]);
/// A vertex with an edge to itself.
const LOOP: Graph = (&[0], &[0], &[]);
/// A triangle with one vertex hanging on it.
const TAIL: Graph = (&[0, 2, 4, 7], &[1, 2, 0, 2, 0, 1, 3, 2], &[]);
/// Two edges between the same vertices, both ways.
const TWICE: Graph = (&[0, 2], &[1, 1, 0, 0], &[]);
/// An edge that leads one way: no list has an edge out of vertex 1, which therefore comes first.
const ONE_WAY: Graph = (&[0, 1], &[1], &[]);

const CORES: [Case; 15] = [
    (TAIL, Columns::Cores(&[2, 2, 2, 1], &[1, 1, 1, 0]), None),
    // The levels needn't be those of rounds.
    (TAIL, Columns::Cores(&[2, 2, 2, 1], &[3, 9, 5, 2]), None),
    (
        TAIL,
        Columns::Cores(&[2, 2, 2, 2], &[1, 1, 1, 0]),
        Some((3, Reason::LowerBound)),
    ),
    (
        TAIL,
        Columns::Cores(&[0, 0, 0, 0], &[0, 0, 0, 0]),
        Some((0, Reason::UpperBound)),
    ),
    // The tail comes last by its level, and by its id where levels are equal.
    (
        TAIL,
        Columns::Cores(&[2, 2, 2, 1], &[0, 0, 0, 1]),
        Some((3, Reason::Order)),
    ),
    (
        TAIL,
        Columns::Cores(&[2, 2, 2, 1], &[0, 0, 0, 0]),
        Some((3, Reason::Order)),
    ),
    // A vertex isn't before itself, so that its edge to itself counts for both bounds.
    (LOOP, Columns::Cores(&[1], &[7]), None),
    (
        LOOP,
        Columns::Cores(&[0], &[7]),
        Some((0, Reason::UpperBound)),
    ),
    (
        LOOP,
        Columns::Cores(&[2], &[7]),
        Some((0, Reason::LowerBound)),
    ),
    (
        LOOP,
        Columns::Cores(&[18_446_744_073_709_551_615], &[7]),
        Some((0, Reason::LowerBound)),
    ),
    (TWICE, Columns::Cores(&[2, 2], &[0, 0]), None),
    (
        TWICE,
        Columns::Cores(&[1, 1], &[0, 0]),
        Some((0, Reason::UpperBound)),
    ),
    (ONE_WAY, Columns::Cores(&[0, 0], &[1, 0]), None),
    (
        ONE_WAY,
        Columns::Cores(&[0, 0], &[0, 0]),
        Some((0, Reason::UpperBound)),
    ),
    (NOTHING, Columns::Cores(&[], &[]), None),
];

#[test]
fn cores_are_judged(rt: HostRuntime) -> Result<(), Fail> {
    expect_all(&rt, rt.alloc(), CORES.as_slice())
}

/// Set 0 holds 2 and 3, set 1 holds 3 and 4. The others are empty.
const SETS: Graph = (&[0, 2, 4, 4, 4], &[2, 3, 3, 4], &[]);
/// The rounds where sets 0 and 1 are chosen.
const BOTH: &[u64] = &[0, 0, NONE, NONE, NONE];

const COVERS: [Case; 15] = [
    (SETS, Columns::Cover(BOTH, &[NONE, NONE, 0, 0, 1]), None),
    // The sets needn't be those of the rounds.
    (
        SETS,
        Columns::Cover(&[7, 3, 5, NONE, NONE], &[NONE, NONE, 0, 1, 1]),
        None,
    ),
    (
        SETS,
        Columns::Cover(BOTH, &[NONE, NONE, 0, 0, 0]),
        Some((4, Reason::NotHeld)),
    ),
    // Set 2 is empty and wasn't chosen.
    (
        SETS,
        Columns::Cover(BOTH, &[NONE, NONE, 0, 0, 2]),
        Some((4, Reason::NotHeld)),
    ),
    (
        SETS,
        Columns::Cover(BOTH, &[NONE, NONE, 0, 0, NONE]),
        Some((4, Reason::NotCovered)),
    ),
    (
        SETS,
        Columns::Cover(BOTH, &[NONE, NONE, 0, 0, 5]),
        Some((4, Reason::NotCovered)),
    ),
    (
        SETS,
        Columns::Cover(&[0, NONE, NONE, NONE, NONE], &[NONE, NONE, 0, 0, 1]),
        Some((4, Reason::NotChosen)),
    ),
    (
        SETS,
        Columns::Cover(BOTH, &[0, NONE, 0, 0, 1]),
        Some((0, Reason::NoElement)),
    ),
    // Of 2 and 4 the least is named.
    (
        SETS,
        Columns::Cover(BOTH, &[NONE, NONE, NONE, 0, NONE]),
        Some((2, Reason::NotCovered)),
    ),
    (
        SETS,
        Columns::Cover(BOTH, &[NONE, NONE, 1, 0, NONE]),
        Some((2, Reason::NotHeld)),
    ),
    // The set of the vertex holds the vertex alone.
    (LOOP, Columns::Cover(&[0], &[0]), None),
    (
        LOOP,
        Columns::Cover(&[NONE], &[0]),
        Some((0, Reason::NotChosen)),
    ),
    (NOTHING, Columns::Cover(&[], &[]), None),
    (ALONE, Columns::Cover(&[NONE], &[NONE]), None),
    (
        ALONE,
        Columns::Cover(&[NONE], &[0]),
        Some((0, Reason::NoElement)),
    ),
];

#[test]
fn covers_are_judged(rt: HostRuntime) -> Result<(), Fail> {
    expect_all(&rt, rt.alloc(), COVERS.as_slice())
}

/// One edge of weight 1 from 0 to 1, and a vertex 2 that isn't reached.
const APART: Graph = (&[0, 1, 1], &[1], &[]);
/// The way by vertex 2 is shorter than the edge of weight 5.
const TWO_WAYS: Graph = (&[0, 2, 2], &[1, 2, 1], &[5, 1, 2]);
/// An edge from 0 to 1, and places of weight 0 from 1 to 2 and back.
const CIRCLE: Graph = (&[0, 1, 2], &[1, 2, 1], &[5, 0, 0]);
/// An edge of the greatest weight from 0 to 1.
const HEAVY: Graph = (&[0, 1, 1], &[1], &[4_294_967_295]);
/// Of two places from 0 to 1 the second makes the distance.
const TWO_PLACES: Graph = (&[0, 2], &[1, 1], &[7, 4]);
/// A distance to which no weight can be added without a sum that wraps.
const FAR: u64 = 18_446_744_073_709_551_614;

const DISTANCES: [Case; 18] = [
    (
        APART,
        Columns::Distances(&[0], &[0, 1, NONE], &[0, 1, NONE], &[NONE, 0, NONE]),
        None,
    ),
    (
        APART,
        Columns::Distances(&[0], &[0, 1, NONE], &[0, 1, NONE], &[NONE, 0, 1]),
        Some((2, Reason::Unreached)),
    ),
    (
        APART,
        Columns::Distances(&[0], &[0, 1, NONE], &[0, 1, 2], &[NONE, 0, NONE]),
        Some((2, Reason::Unreached)),
    ),
    (
        APART,
        Columns::Distances(&[0], &[0, 1, NONE], &[0, 2, NONE], &[NONE, 0, NONE]),
        Some((1, Reason::Parent)),
    ),
    (
        APART,
        Columns::Distances(&[0], &[0, 1, NONE], &[0, 1, NONE], &[NONE, 2, NONE]),
        Some((1, Reason::Parent)),
    ),
    (
        APART,
        Columns::Distances(&[0], &[0, 1, NONE], &[0, 1, NONE], &[NONE, 3, NONE]),
        Some((1, Reason::Parent)),
    ),
    (
        APART,
        Columns::Distances(&[0], &[0, 2, NONE], &[0, 1, NONE], &[NONE, 0, NONE]),
        Some((0, Reason::Lowerable)),
    ),
    (
        APART,
        Columns::Distances(&[0], &[0, NONE, NONE], &[0, NONE, NONE], &[NONE; 3]),
        Some((0, Reason::Lowerable)),
    ),
    // The source is tried first, though its place lowers the number of its target.
    (
        APART,
        Columns::Distances(&[0], &[0, NONE, NONE], &[1, NONE, NONE], &[NONE; 3]),
        Some((0, Reason::Source)),
    ),
    (
        TWO_WAYS,
        Columns::Distances(&[0], &[0, 3, 1], &[0, 2, 1], &[NONE, 2, 0]),
        None,
    ),
    (
        TWO_WAYS,
        Columns::Distances(&[0], &[0, 5, 1], &[0, 1, 1], &[NONE, 0, 0]),
        Some((2, Reason::Lowerable)),
    ),
    // Vertex 1 is nearer to source 2 than to source 0, and both sources have distance 0.
    (
        TWO_WAYS,
        Columns::Distances(&[0, 2], &[0, 2, 0], &[0, 1, 0], &[NONE, 2, NONE]),
        None,
    ),
    // The distances from source 0 alone: source 2 has hops and a parent.
    (
        TWO_WAYS,
        Columns::Distances(&[0, 2], &[0, 3, 1], &[0, 2, 1], &[NONE, 2, 0]),
        Some((2, Reason::Source)),
    ),
    (
        TWO_WAYS,
        Columns::Distances(&[0, 2], &[0, 5, 0], &[0, 1, 0], &[NONE, 0, NONE]),
        Some((2, Reason::Lowerable)),
    ),
    (
        TWO_WAYS,
        Columns::Distances(&[0, 2], &[0, 2, 0], &[0, 1, 0], &[NONE, 0, NONE]),
        Some((1, Reason::Parent)),
    ),
    // Each of 1 and 2 is named as the other's parent. No place lowers a number.
    (
        CIRCLE,
        Columns::Distances(&[0], &[0, 3, 3], &[0, 1, 2], &[NONE, 2, 1]),
        Some((1, Reason::Parent)),
    ),
    // The sum at vertex 0 is more than a word holds. A sum that wraps would lower vertex 1.
    (
        HEAVY,
        Columns::Distances(&[2], &[FAR, FAR, 0], &[1, 1, 0], &[2, 2, NONE]),
        Some((0, Reason::Parent)),
    ),
    // Any place of the parent may be the last.
    (
        TWO_PLACES,
        Columns::Distances(&[0], &[0, 4], &[0, 1], &[NONE, 0]),
        None,
    ),
];

#[test]
fn distances_are_judged(rt: HostRuntime) -> Result<(), Fail> {
    expect_all(&rt, rt.alloc(), DISTANCES.as_slice())
}
