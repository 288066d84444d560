//! Coreness and level of each vertex.
ghost use Rattle.std.specs.Prelude.{◌≡◌, ℕ, ◌<◌, ◌≤◌, [], length, IfOk};
ghost use Rattle.jul_base.specs.Graph.{vertices};
ghost use Rattle.jul_base.specs.Symmetry.{IsSymmetric};
ghost use Rattle.jul_words.specs.Seats.{IsAlone, rooted, zeros};
ghost use Rattle.jul_bucket.specs.declared.limits.TheConstants.{MAX_OPEN};
ghost use Rattle.jul_bucket.specs.declared.orders.Order.TheVariants.{Increasing};
ghost use Rattle.jul_bucket.specs.Places.{AllNone};
ghost use Rattle.jul_count.specs.Adds.{AreZero};
ghost use Rattle.jul_core.specs.Peels.{AreDegrees, AreCores, IsDrawnAt, draws_before};
ghost use Rattle.jul_core.specs.PeelPlaces.{HasOneAddEach};

use crate::columns::{columns_of, degrees};
use crate::rounds::peel_rounds;
use jul_base::{Cores, Gate, MAX_N};
use jul_bucket::{Buckets, Order};
use jul_pool::Team;
use jul_rows::Rows;
use jul_words::{CountSeat, CountWords};
use std::alloc::{AllocError, Global};
use std::thread::Threads;

/// What `peel` gives.
#[derive(Drop)]
pub struct PeelOut {
    /// The coreness and the level of each vertex.
    pub cores: Cores,
    /// The root of the table of words, with none out.
    pub seat: CountSeat,
}

/// The coreness and the level of each vertex, by peeling over buckets.
///
/// The graph is symmetric. The table has a word for each vertex, and nothing was logged in it. The buckets are increasing,
/// were never drawn from, and hold each vertex in the bucket of its degree. Draw number t of them is then level t, in the
/// bucket of its coreness, and no vertex is in a bucket at the end. The table's log has one add for each place.
///
/// Memory that runs out is the only refusal. Then the seat is gone, and table and buckets aren't used again.
pub fn peel<R: Threads + Sync, G: Gate>(
    rt: &R,
    alloc: Global,
    team: &Team<'_, G>,
    rows: &Rows,
    counts: &CountWords,
    seat: CountSeat,
    buckets: &mut Buckets,
) -> Result<PeelOut, AllocError>
    requires symmetric { IsSymmetric rows.now }
    requires words { seat ≡ rooted (zeros counts.now (vertices rows.now)) }
    requires order { buckets.old.order ≡ Increasing }
    requires degrees { AreDegrees rows.now buckets.old.places }
    requires no_draws { buckets.old.draws ≡ [] }

    ensures cores { IfOk result (λ r. AreCores rows.now r.cores) }

    // Draw number t is level t, in the bucket of the bound of round t.
    ensures draws { IfOk result (λ _. buckets.new.draws ≡ draws_before rows.now (length buckets.new.draws)) }
    ensures once { IfOk result (λ _. (v : ℕ) → v < vertices rows.now →
        (t : ℕ) × IsDrawnAt rows.now buckets.new.draws v t) }
    ensures none_left { IfOk result (λ _. AllNone buckets.new.places) }

    ensures adds { IfOk result (λ r. HasOneAddEach rows.now r.seat.log) }
    ensures zero { IfOk result (λ r. AreZero r.seat) }
    ensures seat { IfOk result (λ r. IsAlone r.seat × (r.seat.home ≡ seat.home)) }
{
    prove!(rows.n() <= MAX_N);
    let seat = peel_rounds(rt, alloc, team, rows, counts, seat, buckets)?;
    let cores = columns_of(alloc, rows, buckets.drawn())?;
    Ok(PeelOut { cores, seat })
}

/// The same with a table and buckets of its own, of which so many are open.
pub fn cores_of<R: Threads + Sync, G: Gate>(
    rt: &R,
    alloc: Global,
    team: &Team<'_, G>,
    rows: &Rows,
    open_count: u32,
) -> Result<Cores, AllocError>
    requires symmetric { IsSymmetric rows.now }
    requires open_some { 0 < open_count }
    requires open_few { open_count ≤ MAX_OPEN }

    ensures { IfOk result (λ cores. AreCores rows.now cores) }
{
    let places = degrees(alloc, rows)?;
    let (counts, seat) = CountWords::open(alloc, rows.n())?;
    let mut buckets = Buckets::make(alloc, Order::Increasing, open_count, places.as_slice())?;
    drop(places);
    let out = peel(rt, alloc, team, rows, &counts, seat, &mut buckets)?;
    Ok(out.cores)
}
