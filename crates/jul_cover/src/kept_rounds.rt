//! Draw after draw over sets that are kept packed, till no set is in a bucket.
ghost use Rattle.std.specs.Prelude.{◌≡◌, ℕ, ◌<◌, ◌≤◌, length, IfOk};
ghost use Rattle.jul_base.specs.Numbers.{below};
ghost use Rattle.jul_bucket.specs.Places.{AllNone};
ghost use Rattle.jul_cover.specs.PackedSets.{AreOpen};
ghost use Rattle.jul_cover.specs.CoverWork.{IsCovering};
ghost use Rattle.jul_cover.specs.Keeping.{AreHolders};
ghost use Rattle.jul_cover.specs.KeptTurns.{last_drawn, sets_for};

use crate::columns::Columns;
use crate::keeping::{Kept, Watched, take_kept_turn};
use crate::packed_sets::PackedSets;
use crate::packing::pack_each;
use crate::tables::Tables;
use crate::turns::Standing;
use jul_base::Gate;
use jul_bucket::Buckets;
use jul_pool::Team;
use jul_rows::{InRows, SetRows};
use std::alloc::{AllocError, Global};
use std::thread::Threads;

/// Packs all sets, and then draws bucket after bucket till no set is in a bucket. A turn costs the drawn sets and what it
/// changes.
pub(crate) fn kept_rounds<R: Threads + Sync, G: Gate>(
    rt: &R,
    alloc: Global,
    team: &Team<'_, G>,
    sets: &SetRows,
    holders: &InRows,
    packs: &mut PackedSets,
    tables: &Tables<'_, '_>,
    at: Standing,
    columns: &mut Columns,
    buckets: &mut Buckets,
) -> Result<Standing, AllocError>
    requires covering { IsCovering sets.now tables.now.bids.now tables.now.owners.now at.bids.home at.owners.home
        packs.old columns.old.round.items columns.old.by.items
        (record { round = at.round; bids = at.bids; owners = at.owners }) buckets.old }
    requires holders { AreHolders sets.now holders.now }
    requires marks { AreOpen columns.old.marks.items columns.old.by.items }

    ensures covering { IfOk result (λ r.
        IsCovering sets.now tables.now.bids.now tables.now.owners.now at.bids.home at.owners.home
        packs.new columns.new.round.items columns.new.by.items
        (record { round = r.round; bids = r.bids; owners = r.owners }) buckets.new) }
    ensures none_left { IfOk result (λ _. AllNone buckets.new.places) }
{
    prove!(sets.n() <= jul_base::MAX_N);
    let mut at = at;
    let mut last = 0;
    let every = every_set(alloc, sets.n())?;
    pack_each(packs, every.as_slice(), columns);
    let mut watched = all_of(alloc, every)?;
    'rounds: loop {
        let Some(bucket) = buckets.next_bucket_in_place()? else {
            return Ok(at);
        };
        let now = watched_in(alloc, watched, last, bucket, buckets)?;
        let kept = take_kept_turn(
            rt, alloc, team, packs, holders, now, bucket, tables, at, columns, buckets,
        )?;
        let Kept {
            at: next,
            watched: rest,
        } = kept;
        at = next;
        watched = rest;
        last = bucket;
    }
}

/// The numbers of `n` sets.
fn every_set(alloc: Global, n: u32) -> Result<Vec<u32>, AllocError>
    ensures { IfOk result (λ sets. sets.items ≡ below n) }
{
    let mut sets = Vec::with_capacity(alloc, n as usize)?;
    for s in 0..n {
        sets.push(s)?;
    }
    Ok(sets)
}

/// All of these are watched.
fn all_of(alloc: Global, sets: Vec<u32>) -> Result<Watched, AllocError>
    ensures candidates { IfOk result (λ r. r.candidates.items ≡ sets.items) }
    ensures changed { IfOk result (λ r. r.changed.items ≡ sets.items) }
{
    let changed = Vec::from_slice(alloc, sets.as_slice())?;
    Ok(Watched {
        candidates: sets,
        changed,
    })
}

/// The sets to look at: those that are known where the bucket is the last one, else all of the last draw.
fn watched_in(
    alloc: Global,
    known: Watched,
    last: u64,
    bucket: u64,
    buckets: &Buckets,
) -> Result<Watched, AllocError>
    requires { 0 < length buckets.now.draws }

    ensures candidates { IfOk result (λ r.
        r.candidates.items ≡ sets_for last bucket known.candidates.items (last_drawn buckets.now.draws)) }
    ensures changed { IfOk result (λ r.
        r.changed.items ≡ sets_for last bucket known.changed.items (last_drawn buckets.now.draws)) }
{
    if last == bucket {
        return Ok(known);
    }
    let draws = buckets.drawn();
    let drawn = Vec::from_slice(alloc, draws[draws.len() - 1].ids.as_slice())?;
    all_of(alloc, drawn)
}
