//! Least distances from a list of sources.
ghost use Rattle.std.specs.Prelude.{◌≡◌, ◌≢◌, ℕ, ◌/◌, ◌<◌, ◌≤◌, [], length, All, IfOk, IfSome, slice_index};
ghost use Rattle.jul_base.specs.declared.limits.TheConstants.{NONE};
ghost use Rattle.jul_base.specs.Graph.{vertices};
ghost use Rattle.jul_base.specs.InRows.{IsFlip};
ghost use Rattle.jul_base.specs.Sources.{first_numbers};
ghost use Rattle.jul_base.specs.Distances.{AreDistances};
ghost use Rattle.jul_base.specs.DistanceList.{distance_list};
ghost use Rattle.jul_words.specs.Seats.{IsAlone, home, rooted};
ghost use Rattle.jul_edge.specs.EdgeMaps.{CanStamp};
ghost use Rattle.jul_bucket.specs.declared.limits.TheConstants.{MAX_OPEN};
ghost use Rattle.jul_bucket.specs.declared.orders.Order.TheVariants.{Increasing};
ghost use Rattle.jul_bucket.specs.Places.{AllNone};
ghost use Rattle.jul_words.specs.Least.{word_of};
ghost use Rattle.jul_dist.specs.Relaxing.{AreSums};
ghost use Rattle.jul_dist.specs.Draws.{IsLastDraw, NeverFall};

use crate::floors::DistanceFloors;
use crate::searching::search;
use crate::starting::first_values;
use jul_base::{Column, Gate, NONE};
use jul_bucket::{Buckets, Order};
use jul_pool::Team;
use jul_rows::{InRows, Rows};
use jul_words::{MinSeat, MinWords, StampSeat, StampWords};
use std::alloc::{AllocError, Global};
use std::thread::Threads;

/// What `distances` gives.
#[derive(Drop)]
pub struct DistOut {
    /// The least distance of each vertex, `NONE` where no walk from a source leads to it.
    pub dist: Column,
    /// The root of the table of words, with none out.
    pub seat: MinSeat,
    /// The root of the stamp table, with none out.
    pub stamp_seat: StampSeat,
}

/// The least distance of each vertex from the nearest of the sources, by delta-stepping. With a `delta` of 1 it is wBFS.
///
/// `in_rows` is the flip of `rows`, the sources are vertices, and `delta` is at least 1. The words start at 0 for each source and at `NONE` elsewhere, and so do the places of the buckets, which are increasing
/// and were never drawn from. Nothing was logged in either table. At the end the words are the distances, no vertex is in
/// a bucket, and the draws show from which bucket each reached vertex came last. No vertex is stamped.
///
/// Memory that runs out is the only refusal. Then the seats are gone, and tables and buckets aren't used again.
pub fn distances<R: Threads + Sync, G: Gate>(
    rt: &R,
    alloc: Global,
    team: &Team<'_, G>,
    rows: &Rows,
    in_rows: &InRows,
    sources: &[u32],
    delta: u64,
    words: &MinWords,
    seat: MinSeat,
    stamps: &StampWords,
    stamp_seat: StampSeat,
    buckets: &mut Buckets,
) -> Result<DistOut, AllocError>
    requires flip { IsFlip rows.now in_rows.now }
    requires sources { All (λ s. s < vertices rows.now) sources.now }
    requires delta { 1 ≤ delta }
    requires words { seat ≡ rooted (home words.now
        (first_numbers (vertices rows.now) sources.now) (distance_list rows.now sources.now)) }
    requires stamps { CanStamp (vertices rows.now) stamps.now 1 stamp_seat }
    requires order { buckets.old.order ≡ Increasing }
    requires places { buckets.old.places ≡ first_numbers (vertices rows.now) sources.now }
    requires no_draws { buckets.old.draws ≡ [] }

    ensures dist { IfOk result (λ r. AreDistances rows.now sources.now r.dist) }
    ensures words { IfOk result (λ r. (v : ℕ) → v < vertices rows.now → word_of r.seat v ≡ slice_index r.dist v) }
    ensures offers { IfOk result (λ r. AreSums r.seat.log) }
    ensures seat { IfOk result (λ r. IsAlone r.seat × (r.seat.home ≡ seat.home)) }
    ensures unstamped { IfOk result (λ r. r.stamp_seat ≡ stamp_seat) }
    ensures stamp_seat { IfOk result (λ r. IsAlone r.stamp_seat × (r.stamp_seat.home ≡ stamp_seat.home)) }
    ensures stamps { IfOk result (λ r. (round : ℕ) → length buckets.new.draws < round →
        CanStamp (vertices rows.now) stamps.now round r.stamp_seat) }

    // Each reached vertex was drawn, the last time from the bucket of its distance.
    ensures drawn { IfOk result (λ r. (v : ℕ) → v < vertices rows.now → slice_index r.dist v ≢ NONE →
        IsLastDraw buckets.new.draws v (slice_index r.dist v / delta)) }
    ensures never_fall { IfOk result (λ _. NeverFall buckets.new.draws) }
    ensures none_left { IfOk result (λ _. AllNone buckets.new.places) }
{
    let mut values = first_values(alloc, rows.n(), sources)?;
    let seat = search(
        rt,
        alloc,
        team,
        rows,
        Some(in_rows),
        sources,
        delta,
        words,
        seat,
        values.as_mut_slice(),
        buckets,
    )?;
    // With the front comes what is true of buckets between any two calls: their draws never go backward.
    prove!(buckets.front() < NONE);
    Ok(DistOut {
        dist: Column::from_vec(values),
        seat,
        stamp_seat,
    })
}

/// The same with tables and buckets of its own, of which `open_count` are open, from 1 to 65,536. Without in-rows each round
/// pushes: to make them costs more than the few pulls save where the graph is searched once. Memory that runs out is the only
/// refusal.
pub fn least_distances<R: Threads + Sync, G: Gate>(
    rt: &R,
    alloc: Global,
    team: &Team<'_, G>,
    rows: &Rows,
    in_rows: Option<&InRows>,
    sources: &[u32],
    delta: u64,
    open_count: u32,
) -> Result<Column, AllocError>
    requires flip { IfSome in_rows (λ r. IsFlip rows.now r.now) }
    requires sources { All (λ s. s < vertices rows.now) sources.now }
    requires delta { 1 ≤ delta }
    requires open_some { 0 < open_count }
    requires open_few { open_count ≤ MAX_OPEN }

    ensures { IfOk result (λ dist. AreDistances rows.now sources.now dist) }
{
    let start = first_values(alloc, rows.n(), sources)?;
    let floors = DistanceFloors { rows, sources };
    let (words, seat) = MinWords::open(alloc, start.as_slice(), &floors)?;
    let mut buckets = Buckets::make(alloc, Order::Increasing, open_count, start.as_slice())?;
    let mut values = start;
    search(
        rt,
        alloc,
        team,
        rows,
        in_rows,
        sources,
        delta,
        &words,
        seat,
        values.as_mut_slice(),
        &mut buckets,
    )?;
    Ok(Column::from_vec(values))
}
