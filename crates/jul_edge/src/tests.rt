//! Worked answers of the edge maps, with several numbers of threads.
ghost use Rattle.std.specs.Prelude.{◌≡◌, ℕ, ◌<◌, ◌≤◌, [], ◌∷◌, IfOk, IfSome, true, length, slice_index};
ghost use Rattle.jul_base.specs.Graph.{vertices, IsLawful};
ghost use Rattle.jul_base.specs.InRows.{IsFlip};
ghost use Rattle.jul_base.specs.Logs.{Home, LOWER};
ghost use Rattle.jul_words.specs.Weights.{counted};
ghost use Rattle.jul_words.specs.Seats.{entry, IsAlone};
ghost use Rattle.jul_edge.specs.EdgeMaps.{CanStamp};

use super::*;
use jul_base::{CountGate, Free, in_order};
use jul_pool::Team;
use jul_rows::{InRows, Rows};
use jul_subset::VertexSubset;
use jul_words::{MinHand, MinWords, StampSeat, StampWords, ZeroFloors};
use std::alloc::{AllocError, Global};
use std::process::Abort;
use std::test::Fail;
use std::thread::Threads;

/// Wants all, and answers true.
#[derive(Drop)]
struct Always;

impl EdgeFn for Always {
    type Token = Free;

    ghost can_want = { λ _ _. Unit {0} };

    ghost wanted = { λ _ _. true };

    ghost can_apply = { λ _ _ _. Unit {0} };

    ghost gives = { λ _ _ answer added. (answer ≡ true) × (added ≡ []) };

    fn wants(&self, _v: u32) -> bool {
        true
    }

    fn apply(
        &self,
        _token: &mut Free,
        _by: Direction,
        _u: u32,
        _place: u32,
        _v: u32,
        _w: u32,
    ) -> bool {
        true
    }
}

/// A call, with what it takes beyond rows and members.
#[derive(Clone, Copy, Debug)]
enum Call {
    Push,
    Pull,
    Map,
    /// For a work of 5, above this threshold.
    Above(u64),
    /// By this reach, with in-rows or without them.
    ByReach(u64),
    ByReachAlone(u64),
    /// To a list.
    Noted,
    NotedByReach(u64),
    NotedByReachAlone(u64),
}

/// A table of stamps for the vertices, for round 1.
fn stamps_for(alloc: Global, rows: &Rows) -> Result<(StampWords, StampSeat), AllocError>
    ensures { IfOk result (λ r. CanStamp (vertices rows.now) r.0 1 r.1) }
{
    StampWords::open(alloc, rows.n())
}

/// The members of a subset that was made by a walk. One that was pulled is dense, and no other.
fn ids_of(
    rt: &impl Abort,
    subset: &VertexSubset,
    by: Direction,
) -> Result<(Vec<u32>, Direction), AllocError> {
    assert!(rt; subset.is_dense() == (by == Direction::Pull));
    Ok((subset.ids()?, by))
}

fn pulled<R: Threads + Sync + Abort>(
    rt: &R,
    alloc: Global,
    team: &Team<'_, CountGate>,
    rows: &Rows,
    in_rows: &InRows,
    from: &VertexSubset,
) -> Result<(Vec<u32>, Direction), AllocError>
    requires n { from.now.n ≡ vertices rows.now }
    requires flip { IsFlip rows.now in_rows.now }
{
    let token = Free::root();
    let out = edge_pull(rt, alloc, team, rows, in_rows, from, &Always, token)?;
    ids_of(rt, &out.subset, Direction::Pull)
}

/// The targets that are noted by this reach, or by a push where none is given.
fn noted<R: Threads + Sync>(
    rt: &R,
    alloc: Global,
    team: &Team<'_, CountGate>,
    rows: &Rows,
    in_rows: Option<&InRows>,
    from: &VertexSubset,
    reach: Option<u64>,
) -> Result<(Vec<u32>, Direction), AllocError>
    requires n { from.now.n ≡ vertices rows.now }
    requires flip { IfSome in_rows (λ r. IsFlip rows.now r.now) }
{
    prove!(from.n() == rows.n());
    let members = from.ids()?;
    let members = members.as_slice();
    let mut noted = Vec::new(alloc);
    let token = Free::root();
    let Some(reach) = reach else {
        edge_push_noted(rt, alloc, team, rows, members, &Always, token, &mut noted)?;
        return Ok((in_order(noted), Direction::Push));
    };
    let out = edge_notes_by_reach(
        rt, alloc, team, rows, in_rows, members, reach, &Always, token, &mut noted,
    )?;
    Ok((in_order(noted), out.direction))
}

/// The targets that a call gives, in order, and how it walked.
fn targets_by<R: Threads + Sync + Abort>(
    rt: &R,
    alloc: Global,
    team: &Team<'_, CountGate>,
    rows: &Rows,
    from: &VertexSubset,
    call: Call,
) -> Result<(Vec<u32>, Direction), AllocError>
    requires { from.now.n ≡ vertices rows.now }
{
    let in_rows = rows.flip()?;
    let given = Some(&in_rows);
    let (stamps, seat) = stamps_for(alloc, rows)?;
    let free = Free::root();
    let out = match call {
        Call::Pull => return pulled(rt, alloc, team, rows, &in_rows, from),
        Call::Noted => return noted(rt, alloc, team, rows, None, from, None),
        Call::NotedByReach(reach) => {
            return noted(rt, alloc, team, rows, given, from, Some(reach));
        }
        Call::NotedByReachAlone(reach) => {
            return noted(rt, alloc, team, rows, None, from, Some(reach));
        }
        Call::Push => edge_push(rt, alloc, team, rows, from, &Always, free, &stamps, seat, 1)?,
        Call::Map => edge_map(
            rt, alloc, team, rows, &in_rows, from, &Always, free, &stamps, seat, 1,
        )?,
        Call::Above(threshold) => edge_map_with_threshold(
            rt, alloc, team, rows, &in_rows, from, 5, threshold, &Always, free, &stamps, seat, 1,
        )?,
        Call::ByReach(reach) => edge_map_by_reach(
            rt, alloc, team, rows, given, from, reach, &Always, free, &stamps, seat, 1,
        )?,
        Call::ByReachAlone(reach) => edge_map_by_reach(
            rt, alloc, team, rows, None, from, reach, &Always, free, &stamps, seat, 1,
        )?,
    };
    ids_of(rt, &out.subset, out.direction)
}

/// Ends the test where a call from some vertices gives other targets or walks another way. Gives how many chunks there were.
fn expect<R: Threads + Sync + Abort>(
    rt: &R,
    alloc: Global,
    team: &Team<'_, CountGate>,
    rows: &Rows,
    case: (&[u32], Call, &[u32], Direction),
) -> Result<u64, Fail> {
    let (ids, call, targets, by) = case;
    let from = VertexSubset::from_list(alloc, rows.n(), ids)?;
    let (found, taken) = targets_by(rt, alloc, team, rows, &from, call)?;
    assert_eq!(rt;
        found.as_slice(),
        targets,
        "{call:?}, {} workers",
        team.workers
    );
    assert!(rt; taken == by, "{call:?}");
    Ok(team.gate.take())
}

/// Ends the test where 1, 2 or 7 workers find something else.
fn expect_all<R: Threads + Sync + Abort>(
    rt: &R,
    alloc: Global,
    rows: &Rows,
    cases: &[(&[u32], Call, &[u32], Direction)],
) -> Result<(), Fail> {
    for workers in [1u32, 2, 7] {
        let gate = CountGate::new();
        let team = Team {
            workers,
            chunk: 1,
            gate: &gate,
        };
        for case in cases {
            expect(rt, alloc, &team, rows, *case)?;
        }
    }
    Ok(())
}

/// A chain of 100 vertices, of which each but the last leads to the next.
fn chain(alloc: Global) -> Result<Rows, Fail> {
    let mut offsets = Vec::new(alloc);
    let mut targets = Vec::new(alloc);
    for v in 0..99u32 {
        offsets.push(v)?;
        targets.push(v + 1)?;
    }
    offsets.push(99)?;
    let rows = Rows::of_lists(alloc, offsets.as_slice(), targets.as_slice(), &[])?;
    Ok(rows.ok_or("no lawful graph")?)
}

/// Members, a call, the targets that it gives, and how it walks.
const ON_CHAIN: [(&[u32], Call, &[u32], Direction); 6] = [
    (&[0, 1], Call::Push, &[1, 2], Direction::Push),
    (&[0, 1], Call::Pull, &[1, 2], Direction::Pull),
    // 4 doesn't exceed 4, and 6 does.
    (&[0, 1], Call::Map, &[1, 2], Direction::Push),
    (&[0, 1, 2], Call::Map, &[1, 2, 3], Direction::Pull),
    (&[0, 1, 2], Call::Push, &[1, 2, 3], Direction::Push),
    (&[0, 1, 2], Call::Pull, &[1, 2, 3], Direction::Pull),
];

#[test]
fn a_chain_is_pushed_from_two_and_pulled_from_three(rt: HostRuntime) -> Result<(), Fail> {
    let rows = chain(rt.alloc())?;
    expect_all(&rt, rt.alloc(), &rows, ON_CHAIN.as_slice())
}

/// Four vertices and four places, of which two lead to vertex 1.
fn four(alloc: Global) -> Result<Rows, Fail> {
    let rows = Rows::of_lists(alloc, &[0, 2, 3, 4], &[1, 2, 3, 1], &[9, 1, 5, 6])?;
    Ok(rows.ok_or("no lawful graph")?)
}

/// Members, a call, the targets that it gives, and how it walks. Vertices 0 and 2 have three of the four places.
const ON_FOUR: [(&[u32], Call, &[u32], Direction); 12] = [
    // 0 doesn't exceed 0.
    (&[], Call::Map, &[], Direction::Push),
    (&[], Call::Push, &[], Direction::Push),
    (&[], Call::Pull, &[], Direction::Pull),
    (&[0, 2], Call::Above(4), &[1, 2], Direction::Pull),
    (&[0, 2], Call::Above(5), &[1, 2], Direction::Push),
    (&[0, 2], Call::ByReach(5), &[1, 2], Direction::Pull),
    (&[0, 2], Call::ByReach(2), &[1, 2], Direction::Push),
    (&[0, 2], Call::ByReachAlone(5), &[1, 2], Direction::Push),
    (&[0, 2], Call::Noted, &[1, 2], Direction::Push),
    (&[0, 2], Call::NotedByReach(5), &[1, 2], Direction::Pull),
    (&[0, 2], Call::NotedByReach(2), &[1, 2], Direction::Push),
    (
        &[0, 2],
        Call::NotedByReachAlone(5),
        &[1, 2],
        Direction::Push,
    ),
];

#[test]
fn the_ways_to_walk_four_places_agree(rt: HostRuntime) -> Result<(), Fail> {
    let rows = four(rt.alloc())?;
    expect_all(&rt, rt.alloc(), &rows, ON_FOUR.as_slice())
}

/// The size of chunks, and how many there are of two members and of all vertices.
const CUTS: [(u32, u64, u64); 4] = [(1, 2, 100), (2, 1, 50), (30, 1, 4), (65_536, 1, 1)];

#[test]
fn a_push_is_cut_by_members_and_a_pull_by_vertices(rt: HostRuntime) -> Result<(), Fail> {
    let rows = chain(rt.alloc())?;
    let few: (&[u32], &[u32]) = (&[10, 11], &[11, 12]);
    let many: (&[u32], &[u32]) = (&[1, 2, 3, 4, 5], &[2, 3, 4, 5, 6]);
    for (chunk, pushes, pulls) in CUTS {
        let gate = CountGate::new();
        let team = Team {
            workers: 2,
            chunk,
            gate: &gate,
        };
        for ((ids, targets), call, by, passes) in [
            (few, Call::Push, Direction::Push, pushes),
            (few, Call::Pull, Direction::Pull, pulls),
            (few, Call::Map, Direction::Push, pushes),
            (many, Call::Map, Direction::Pull, pulls),
        ] {
            let case = (ids, call, targets, by);
            let found = expect(&rt, rt.alloc(), &team, &rows, case)?;
            assert_eq!(rt; found, passes, "{call:?}, chunk {chunk}");
        }
    }
    Ok(())
}

/// Wants all, lowers the word of the target to the weight, and answers whether it was greater.
#[derive(Drop)]
struct LowerToWeight<'a> {
    words: &'a MinWords,
}

impl<'a> EdgeFn for LowerToWeight<'a> {
    type Token = MinHand<'a>;

    ghost can_want = { λ _ _. Unit {0} };

    ghost wanted = { λ _ _. true };

    ghost can_apply = { λ _ a home. (h : Home) × (home ≡ h ∷ []) × (a.target < length h.starts)
        × (slice_index h.floors a.target ≤ a.weight) };

    ghost gives = { λ _ a answer added. added ≡ (entry LOWER a.target a.weight (counted answer) ∷ []) ∷ [] };

    fn wants(&self, _v: u32) -> bool {
        true
    }

    fn apply(
        &self,
        hand: &mut MinHand<'a>,
        _by: Direction,
        _u: u32,
        _place: u32,
        v: u32,
        w: u32,
    ) -> bool {
        u64::from(w) < hand.words.lower(&mut hand.seat, v, u64::from(w))
    }
}

/// Lowers along the places of some vertices, by pull where the threshold is 0 and by push where it is 1.
fn lower_from<'a, R: Threads + Sync>(
    rt: &R,
    alloc: Global,
    workers: u32,
    rows: &Rows,
    from: &VertexSubset,
    threshold: u64,
    f: &LowerToWeight<'a>,
    hand: MinHand<'a>,
) -> Result<(Vec<u32>, MinHand<'a>), AllocError>
    requires workers { (1 ≤ workers) × (workers ≤ 64) }
    requires lawful { IsLawful rows.now }
    requires n { from.now.n ≡ vertices rows.now }
    requires alone { IsAlone hand.seat }
    requires words { length hand.seat.home.starts ≡ vertices rows.now }
    requires floors { (v : ℕ) → slice_index hand.seat.home.floors v ≡ 0 }
    ensures { IfOk result (λ r. r.1.seat.home ≡ hand.entry.seat.home) }
{
    let gate = CountGate::new();
    let team = Team {
        workers,
        chunk: 1,
        gate: &gate,
    };
    let in_rows = rows.flip()?;
    let (stamps, seat) = stamps_for(alloc, rows)?;
    let out = edge_map_with_threshold(
        rt, alloc, &team, rows, &in_rows, from, 1, threshold, f, hand, &stamps, seat, 1,
    )?;
    Ok((out.subset.ids()?, out.token))
}

/// What a lowering from vertices 0 and 2 gives: the subset, and the words of vertices 1 and 2.
fn lowered<R: Threads + Sync + Abort>(
    rt: &R,
    alloc: Global,
    workers: u32,
    threshold: u64,
) -> Result<(Vec<u32>, u64, u64), Fail>
    requires { (1 ≤ workers) × (workers ≤ 64) }
{
    let rows = four(alloc)?;
    assert_eq!(rt; rows.n(), 4);
    let from = VertexSubset::from_list(alloc, rows.n(), &[0, 2])?;
    let (words, seat) = MinWords::open(alloc, &[100, 100, 100, 100], &ZeroFloors { count: 4 })?;
    let hand = MinHand {
        words: &words,
        seat,
    };
    let f = LowerToWeight { words: &words };
    let (members, mut hand) = lower_from(rt, alloc, workers, &rows, &from, threshold, &f, hand)?;
    let first = hand.words.load(&mut hand.seat, 1);
    let second = hand.words.load(&mut hand.seat, 2);
    Ok((members, first, second))
}

#[test]
fn the_least_weight_stays_and_each_lowered_target_stands_once(rt: HostRuntime) -> Result<(), Fail> {
    for workers in [1u32, 2, 7] {
        for threshold in [0, 1] {
            let (members, first, second) = lowered(&rt, rt.alloc(), workers, threshold)?;
            assert_eq!(rt; members.as_slice(), [1, 2].as_slice(), "{workers} workers");
            assert_eq!(rt; first, 6, "{workers} workers");
            assert_eq!(rt; second, 1, "{workers} workers");
        }
    }
    Ok(())
}
