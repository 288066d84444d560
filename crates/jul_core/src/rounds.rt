//! Peeling, bucket after bucket.
ghost use Rattle.std.specs.Prelude.{◌≡◌, ◌<◌, ◌≤◌, ◌^◌, length, All, IfOk};
ghost use Rattle.jul_base.specs.Graph.{vertices};
ghost use Rattle.jul_base.specs.Symmetry.{IsSymmetric};
ghost use Rattle.jul_bucket.specs.Places.{AllNone};
ghost use Rattle.jul_core.specs.PeelWork.{IsPeeling, CanRound, HasRound};

use crate::moving::moves_down;
use jul_base::{Gate, MAX_N};
use jul_bucket::Buckets;
use jul_count::edge_counts_noted;
use jul_pool::Team;
use jul_rows::{Rows, reach_of};
use jul_words::{CountSeat, CountWords};
use std::alloc::{AllocError, Global};
use std::thread::Threads;

/// What a round fills in place of what the round before left there, so that a small round takes no memory.
#[derive(Drop)]
struct Lists {
    /// The vertices that places lead to, as they were met.
    noted: Vec<u32>,
    /// Each of them with the number of these places.
    reached: Vec<(u32, u64)>,
    /// The vertices that move, with their new buckets.
    moves: Vec<(u32, u64)>,
}

/// Draws bucket after bucket till no vertex is in a bucket. Draw number t is level t.
pub(crate) fn peel_rounds<R: Threads + Sync, G: Gate>(
    rt: &R,
    alloc: Global,
    team: &Team<'_, G>,
    rows: &Rows,
    counts: &CountWords,
    mut seat: CountSeat,
    buckets: &mut Buckets,
) -> Result<CountSeat, AllocError>
    requires symmetric { IsSymmetric rows.now }
    requires peeling { IsPeeling rows.now counts.now seat.home seat buckets.old }

    ensures peeling { IfOk result (λ r. IsPeeling rows.now counts.now seat.home r buckets.new) }
    ensures none_left { IfOk result (λ _. AllNone buckets.new.places) }
{
    prove!(rows.n() <= MAX_N);
    let mut lists = Lists {
        noted: Vec::new(alloc),
        reached: Vec::new(alloc),
        moves: Vec::new(alloc),
    };
    'rounds: loop {
        let Some((bucket, ids)) = buckets.next_bucket()? else {
            return Ok(seat);
        };
        seat = lower_reached(
            rt,
            alloc,
            team,
            rows,
            ids.as_slice(),
            bucket,
            counts,
            seat,
            buckets,
            &mut lists,
        )?;
    }
}

/// So many members are looked at to see whether most places of a round lead to one vertex.
const PROBES: usize = 32;

/// Where more than so many of them lead to one vertex, most places are taken to do so.
const MOST_ALIKE: u32 = 16;

/// Whether most places of the drawn vertices lead to one vertex, as far as the first places of a few show. All adds are then
/// made at one word, where several workers would wait for one another at each.
fn leads_to_one(rows: &Rows, drawn: &[u32]) -> bool
    requires within { All (λ v. v < vertices rows.now) drawn.now }
{
    let step = drawn.len() / PROBES;
    if step == 0 {
        return false;
    }
    let first = first_target(rows, drawn[0]);
    let mut alike = 0u32;
    for k in 0..PROBES {
        if let Some(v) = drawn.get(k.saturating_mul(step)) {
            if first_target(rows, *v) == first {
                alike = alike.saturating_add(1);
            }
        }
    }
    alike > MOST_ALIKE
}

/// Where the first place of a vertex leads, if it has one.
fn first_target(rows: &Rows, v: u32) -> Option<u32>
    requires vertex { v < vertices rows.now }
{
    rows.row(v).first().copied()
}

/// The work of a round that several workers may share. It is 0, and not counted, where one is to do all.
fn work_to_share(workers: u32, rows: &Rows, drawn: &[u32]) -> u64
    requires few { length drawn.now ≤ 2 ^ 24 }
    requires within { All (λ v. v < vertices rows.now) drawn.now }
{
    if workers == 1 || leads_to_one(rows, drawn) {
        return 0;
    }
    reach_of(rows, drawn)
}

/// Moves each vertex that is in a bucket down by the number of places that lead to it from the drawn ones, but not below
/// the bucket drawn. The places are counted by as many workers as they are worth.
fn lower_reached<R: Threads + Sync, G: Gate>(
    rt: &R,
    alloc: Global,
    team: &Team<'_, G>,
    rows: &Rows,
    drawn: &[u32],
    bucket: u64,
    counts: &CountWords,
    seat: CountSeat,
    buckets: &mut Buckets,
    lists: &mut Lists,
) -> Result<CountSeat, AllocError>
    requires can { CanRound rows.now counts.now bucket drawn.now seat buckets.old }

    ensures { IfOk result (λ r. HasRound rows.now bucket drawn.now seat r buckets.old buckets.new) }
{
    prove!(rows.n() <= MAX_N);
    let work = work_to_share(team.workers, rows, drawn);
    let crew = team.for_members(drawn.len(), work);
    let Lists {
        noted,
        reached,
        moves,
    } = lists;
    let seat = edge_counts_noted(rt, alloc, &crew, rows, drawn, counts, seat, noted, reached)?;
    moves_down(rt, alloc, team, reached.as_slice(), bucket, buckets, moves)?;
    buckets.update_buckets(moves.as_slice())?;
    Ok(seat)
}
