//! Least distances, bucket after bucket.
ghost use Rattle.std.specs.Prelude.{◌<◌, ◌≤◌, All, IfOk, IfSome};
ghost use Rattle.jul_base.specs.Graph.{vertices};
ghost use Rattle.jul_base.specs.InRows.{IsFlip};
ghost use Rattle.jul_bucket.specs.Places.{AllNone};
ghost use Rattle.jul_dist.specs.Advancing.{IsSearching};

use crate::moving::move_all;
use crate::rounds::relax_round;
use crate::settling::take_words;
use jul_base::Gate;
use jul_bucket::Buckets;
use jul_pool::Team;
use jul_rows::{InRows, Rows, reach_of};
use jul_words::{MinSeat, MinWords};
use std::alloc::{AllocError, Global};
use std::thread::Threads;

/// Draws bucket after bucket and relaxes the places of its vertices, till no vertex is in a bucket. The root comes back with
/// none out. Three lists are used again from round to round, so that a small round costs no more than its work.
pub(crate) fn search<R: Threads + Sync, G: Gate>(
    rt: &R,
    alloc: Global,
    team: &Team<'_, G>,
    rows: &Rows,
    in_rows: Option<&InRows>,
    sources: &[u32],
    delta: u64,
    words: &MinWords,
    mut seat: MinSeat,
    values: &mut [u64],
    buckets: &mut Buckets,
) -> Result<MinSeat, AllocError>
    requires flip { IfSome in_rows (λ r. IsFlip rows.now r.now) }
    requires sources { All (λ s. s < vertices rows.now) sources.now }
    requires delta { 1 ≤ delta }
    requires searching { IsSearching rows.now sources.now delta words.now seat.home values.old seat buckets.old }

    ensures searching { IfOk result (λ new.
        IsSearching rows.now sources.now delta words.now seat.home values.new new buckets.new) }
    ensures none_left { IfOk result (λ _. AllNone buckets.new.places) }
{
    let mut lowered = Vec::new(alloc);
    let mut fell = Vec::new(alloc);
    let mut moves = Vec::new(alloc);
    // With the count comes what is true of every graph: it is lawful.
    prove!(rows.n() <= u32::MAX);
    'rounds: loop {
        let Some((bucket, ids)) = buckets.next_bucket()? else {
            return Ok(seat);
        };
        let from = ids.as_slice();
        let reach = reach_of(rows, from);
        seat = relax_round(
            rt,
            alloc,
            team,
            rows,
            in_rows,
            from,
            reach,
            values,
            bucket * delta,
            words,
            seat,
            &mut lowered,
        )?;
        take_words(words, &mut seat, lowered.as_slice(), values, &mut fell)?;
        move_all(fell.as_slice(), values, delta, buckets, &mut moves)?;
    }
}
