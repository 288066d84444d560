//! Covers worked out by hand, with several numbers of workers.
ghost use Rattle.std.specs.Prelude.{◌≡◌, ◌≤◌, [], length, replicate, IfOk};
ghost use Rattle.jul_base.specs.declared.limits.TheConstants.{NONE};
ghost use Rattle.jul_bucket.specs.declared.orders.Order.TheVariants.{Decreasing};
ghost use Rattle.jul_words.specs.Seats.{home, rooted};
ghost use Rattle.jul_cover.specs.CoverMoves.{AreSizes};

use crate::sizes::first_places;
use crate::{cover, cover_of};
use jul_base::{CountGate, Cover, MAX_N, NONE, OpenGate};
use jul_bucket::{Buckets, Order};
use jul_pool::Team;
use jul_rows::{Rows, SetRows};
use jul_words::{MinSeat, MinWords, ZeroFloors};
use std::alloc::{AllocError, Global};
use std::process::Abort;
use std::test::Fail;
use std::thread::Threads;

/// The rows of a graph without weights. Lists that aren't lawful end the test.
fn rows_of(alloc: Global, offsets: &[u32], targets: &[u32]) -> Result<Rows, Fail> {
    Ok(Rows::of_lists(alloc, offsets, targets, &[])?.ok_or("no lawful graph")?)
}

/// Ends the test where the cover hasn't these columns.
fn expect(rt: &impl Abort, cover: &Cover, round: &[u64], by: &[u64]) {
    assert_eq!(rt; cover.round.as_slice(), round);
    assert_eq!(rt; cover.by.as_slice(), by);
}

/// Covers with one set to a chunk and with 1, 2 and 7 workers, and ends the test where the columns aren't these.
fn covers_as<R: Threads + Sync + Abort>(
    rt: &R,
    alloc: Global,
    offsets: &[u32],
    targets: &[u32],
    round: &[u64],
    by: &[u64],
) -> Result<(), Fail> {
    for workers in [1u32, 2, 7] {
        let team = Team {
            workers,
            chunk: 1,
            gate: &OpenGate,
        };
        let rows = rows_of(alloc, offsets, targets)?;
        expect(rt, &cover_of(rt, alloc, &team, rows, 2)?, round, by);
    }
    Ok(())
}

#[test]
fn an_element_of_two_chosen_sets_goes_to_the_lesser(rt: HostRuntime) -> Result<(), Fail> {
    // Sets 0 and 1 have two elements each, and 3 is in both. Set 1 wins exactly half.
    let round = [0, 0, NONE, NONE, NONE];
    let by = [NONE, NONE, 0, 0, 1];
    covers_as(
        &rt,
        rt.alloc(),
        &[0, 2, 4, 4, 4],
        &[2, 3, 3, 4],
        round.as_slice(),
        by.as_slice(),
    )
}

/// Sets 0 and 1 of four elements each, of which three are in both.
const TWO_LARGE_SETS: ([u32; 9], [u32; 8]) = (
    [0, 4, 8, 8, 8, 8, 8, 8, 8],
    [4, 5, 6, 7, 5, 6, 7, 8],
);

#[test]
fn a_set_that_wins_too_few_waits(rt: HostRuntime) -> Result<(), Fail> {
    // Set 1 wins one of four elements in round 0.
    let (offsets, targets) = TWO_LARGE_SETS;
    let round = [0, 1, NONE, NONE, NONE, NONE, NONE, NONE, NONE];
    let by = [NONE, NONE, NONE, NONE, 0, 0, 0, 0, 1];
    covers_as(
        &rt,
        rt.alloc(),
        offsets.as_slice(),
        targets.as_slice(),
        round.as_slice(),
        by.as_slice(),
    )
}

/// Offsets and targets of set s of s, s + 1, s + 2 and s + 3, for each s up to 60, and of three empty sets.
fn lists_of_a_chain(alloc: Global) -> Result<(Vec<u32>, Vec<u32>), AllocError> {
    let mut offsets = Vec::new(alloc);
    let mut targets = Vec::new(alloc);
    for s in 0..64u32 {
        offsets.push(if s < 61 { 4 * s } else { 244 })?;
        if s < 61 {
            targets.extend_from_slice(&[s, s + 1, s + 2, s + 3])?;
        }
    }
    Ok((offsets, targets))
}

#[test]
fn a_bucket_that_is_drawn_again_and_again(rt: HostRuntime) -> Result<(), Fail> {
    // A round chooses the first set that is whole: each other wins one element of four.
    let (offsets, targets) = lists_of_a_chain(rt.alloc())?;
    let mut round = Vec::new(rt.alloc());
    let mut by = Vec::new(rt.alloc());
    for s in 0..64u64 {
        round.push(if s % 4 == 0 { s / 4 } else { NONE })?;
        by.push(s - s % 4)?;
    }
    covers_as(
        &rt,
        rt.alloc(),
        offsets.as_slice(),
        targets.as_slice(),
        round.as_slice(),
        by.as_slice(),
    )
}

#[test]
fn without_elements_no_set_is_chosen(rt: HostRuntime) -> Result<(), Fail> {
    let none = [NONE, NONE];
    let (round, by) = (none.as_slice(), none.as_slice());
    covers_as(&rt, rt.alloc(), &[0, 0], &[], round, by)
}

#[test]
fn a_vertex_may_cover_itself(rt: HostRuntime) -> Result<(), Fail> {
    covers_as(&rt, rt.alloc(), &[0], &[0], &[0], &[0])
}

/// A table with a word for each vertex, all of them `NONE`.
fn words_for(alloc: Global, sets: &SetRows) -> Result<(MinWords, MinSeat), AllocError>
    ensures { IfOk result (λ r.
        r.1 ≡ rooted (home r.0 (replicate (length sets.now) NONE) (replicate (length sets.now) 0))) }
{
    let start = vec![in alloc; NONE; sets.n() as usize]?;
    MinWords::open(alloc, start.as_slice(), &ZeroFloors { count: sets.n() })
}

/// The buckets of the sizes, of which two are open.
fn buckets_for(alloc: Global, sets: &SetRows) -> Result<Buckets, AllocError>
    ensures order { IfOk result (λ b. b.order ≡ Decreasing) }
    ensures sizes { IfOk result (λ b. AreSizes sets.now b.places) }
    ensures no_draws { IfOk result (λ b. b.draws ≡ []) }
{
    prove!(sets.n() <= MAX_N);
    let places = first_places(alloc, sets)?;
    Buckets::make(alloc, Order::Decreasing, 2, places.as_slice())
}

#[test]
fn each_round_is_drawn_and_its_chunks_pass_the_gate(rt: HostRuntime) -> Result<(), Fail> {
    let (offsets, targets) = TWO_LARGE_SETS;
    let sets = rows_of(rt.alloc(), offsets.as_slice(), targets.as_slice())?.elements()?;
    let gate = CountGate::new();
    let team = Team {
        workers: 2,
        chunk: 1,
        gate: &gate,
    };
    let (bids, seat) = words_for(rt.alloc(), &sets)?;
    let (owners, owner_seat) = words_for(rt.alloc(), &sets)?;
    let mut buckets = buckets_for(rt.alloc(), &sets)?;
    cover(
        &rt,
        rt.alloc(),
        &team,
        &sets,
        &bids,
        seat,
        &owners,
        owner_seat,
        &mut buckets,
    )?;
    // Bucket 2 is drawn with both sets, then again with set 1, which has one element left, and then bucket 0.
    assert_eq!(rt; buckets.drawn().len(), 3);
    assert!(rt; gate.take() >= 3);
    Ok(())
}
