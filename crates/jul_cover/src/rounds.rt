//! Draw after draw, till no set is in a bucket.
ghost use Rattle.std.specs.Prelude.{◌≡◌, ◌<◌, ◌≤◌, ℕ, List, true, false, IfOk};
ghost use Rattle.jul_base.specs.declared.limits.TheConstants.{NONE};
ghost use Rattle.jul_bucket.specs.Places.{AllNone};
ghost use Rattle.jul_cover.specs.PackedSets.{AreOpen};
ghost use Rattle.jul_cover.specs.CoverWork.{IsCovering};

use crate::columns::Columns;
use crate::holding::holders_of;
use crate::kept_rounds::kept_rounds;
use crate::packed_sets::PackedSets;
use crate::tables::Tables;
use crate::turns::{Standing, take_turn};
use jul_base::{Gate, NONE};
use jul_bucket::Buckets;
use jul_pool::Team;
use jul_rows::SetRows;
use std::alloc::{AllocError, Global};
use std::thread::Threads;

/// Once so many times the number of sets were drawn again from the bucket of the draw before, it pays to keep all packed.
const TIMES_DRAWN_AGAIN: u64 = 2;

/// Where the rounds stand, and whether no set is left in a bucket.
#[derive(Drop)]
struct Stop {
    at: Standing,
    is_done: bool,
}

/// Draws bucket after bucket till no set is in a bucket. Where buckets are drawn again and again, turns are taken that
/// cost only what they change.
pub(crate) fn cover_rounds<R: Threads + Sync, G: Gate>(
    rt: &R,
    alloc: Global,
    team: &Team<'_, G>,
    sets: &SetRows,
    packs: &mut PackedSets,
    tables: &Tables<'_, '_>,
    at: Standing,
    columns: &mut Columns,
    buckets: &mut Buckets,
) -> Result<Standing, AllocError>
    requires covering { IsCovering sets.now tables.now.bids.now tables.now.owners.now at.bids.home at.owners.home
        packs.old columns.old.round.items columns.old.by.items
        (record { round = at.round; bids = at.bids; owners = at.owners }) buckets.old }
    requires marks { AreOpen columns.old.marks.items columns.old.by.items }

    ensures covering { IfOk result (λ r.
        IsCovering sets.now tables.now.bids.now tables.now.owners.now at.bids.home at.owners.home
        packs.new columns.new.round.items columns.new.by.items
        (record { round = r.round; bids = r.bids; owners = r.owners }) buckets.new) }
    ensures none_left { IfOk result (λ _. AllNone buckets.new.places) }
{
    let limit = TIMES_DRAWN_AGAIN * u64::from(sets.n());
    let first = bid_rounds(
        rt, alloc, team, sets, packs, tables, at, limit, columns, buckets,
    )?;
    if first.is_done {
        return Ok(first.at);
    }
    let end = finish_rounds(
        rt, alloc, team, sets, packs, tables, first.at, columns, buckets,
    )?;
    Ok(end)
}

/// Draws the buckets that are left in turns that cost only what they change, unless the sets have more elements than a
/// graph may have places.
fn finish_rounds<R: Threads + Sync, G: Gate>(
    rt: &R,
    alloc: Global,
    team: &Team<'_, G>,
    sets: &SetRows,
    packs: &mut PackedSets,
    tables: &Tables<'_, '_>,
    at: Standing,
    columns: &mut Columns,
    buckets: &mut Buckets,
) -> Result<Standing, AllocError>
    requires covering { IsCovering sets.now tables.now.bids.now tables.now.owners.now at.bids.home at.owners.home
        packs.old columns.old.round.items columns.old.by.items
        (record { round = at.round; bids = at.bids; owners = at.owners }) buckets.old }
    requires marks { AreOpen columns.old.marks.items columns.old.by.items }

    ensures covering { IfOk result (λ r.
        IsCovering sets.now tables.now.bids.now tables.now.owners.now at.bids.home at.owners.home
        packs.new columns.new.round.items columns.new.by.items
        (record { round = r.round; bids = r.bids; owners = r.owners }) buckets.new) }
    ensures none_left { IfOk result (λ _. AllNone buckets.new.places) }
{
    let Some(holders) = holders_of(alloc, sets)? else {
        let rest = bid_rounds(
            rt, alloc, team, sets, packs, tables, at, NONE, columns, buckets,
        )?;
        return Ok(rest.at);
    };
    kept_rounds(
        rt, alloc, team, sets, &holders, packs, tables, at, columns, buckets,
    )
}

/// Draws bucket after bucket, and takes a turn with each in which all active sets bid, till no set is in a bucket or more
/// than so many sets were drawn again.
fn bid_rounds<R: Threads + Sync, G: Gate>(
    rt: &R,
    alloc: Global,
    team: &Team<'_, G>,
    sets: &SetRows,
    packs: &mut PackedSets,
    tables: &Tables<'_, '_>,
    at: Standing,
    limit: u64,
    columns: &mut Columns,
    buckets: &mut Buckets,
) -> Result<Stop, AllocError>
    requires covering { IsCovering sets.now tables.now.bids.now tables.now.owners.now at.bids.home at.owners.home
        packs.old columns.old.round.items columns.old.by.items
        (record { round = at.round; bids = at.bids; owners = at.owners }) buckets.old }
    requires marks { AreOpen columns.old.marks.items columns.old.by.items }

    ensures covering { IfOk result (λ r.
        IsCovering sets.now tables.now.bids.now tables.now.owners.now at.bids.home at.owners.home
        packs.new columns.new.round.items columns.new.by.items
        (record { round = r.at.round; bids = r.at.bids; owners = r.at.owners }) buckets.new) }
    ensures marks { IfOk result (λ _. AreOpen columns.new.marks.items columns.new.by.items) }
    ensures none_left { IfOk result (λ r. r.is_done ≡ true → AllNone buckets.new.places) }
    ensures limited { IfOk result (λ r. r.is_done ≡ false → limit < NONE) }
{
    prove!(sets.n() <= jul_base::MAX_N);
    let mut at = at;
    let mut last = NONE;
    let mut again = 0;
    'rounds: loop {
        if again > limit {
            return Ok(Stop { at, is_done: false });
        }
        let Some((bucket, drawn)) = buckets.next_bucket()? else {
            return Ok(Stop { at, is_done: true });
        };
        again = drawn_again(again, last, bucket, drawn.len());
        last = bucket;
        at = take_turn(
            rt, alloc, team, packs, drawn, bucket, tables, at, columns, buckets,
        )?;
    }
}

/// How many sets were drawn again from the bucket of the draw before, once so many more were drawn.
fn drawn_again(again: u64, last: u64, bucket: u64, drawn: usize) -> u64
    ensures { result ≤ NONE }
{
    if last == bucket {
        again.saturating_add(drawn as u64)
    } else {
        again
    }
}
