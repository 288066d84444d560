//! What is done with the sets of a draw.
ghost use Rattle.std.specs.Prelude.{◌≡◌, ℕ, ◌+◌, ◌<◌, ◌≤◌, ◌==◌, length, All, IfOk, if◌then◌else◌};
ghost use Rattle.std.specs.List.{flat_map};
ghost use Rattle.std.specs.List.Sorted.{IsStrictlyIncreasing};
ghost use Rattle.jul_base.specs.declared.limits.TheConstants.{MAX_N};
ghost use Rattle.jul_words.specs.Least.{word_of};
ghost use Rattle.jul_cover.specs.PackedSets.{pack_at, ArePacked, AreOpen};
ghost use Rattle.jul_cover.specs.CoverBids.{bid_base};
ghost use Rattle.jul_cover.specs.Columns.{AreWritten};
ghost use Rattle.jul_cover.specs.Offers.{IsRootOf, HasOffered};
ghost use Rattle.jul_cover.specs.Choosing.{chosen_of};
ghost use Rattle.jul_cover.specs.CoverWork.{CanTurn, HasTurned};

use crate::choosing::{active_sets, work_of};
use crate::columns::Columns;
use crate::counting::chosen_by;
use crate::moving::moves_after;
use crate::offering::offer_all;
use crate::packed_sets::PackedSets;
use crate::packing::pack_each;
use crate::sizes::base_of;
use crate::tables::Tables;
use crate::taking::take_chosen;
use jul_base::Gate;
use jul_bucket::Buckets;
use jul_pool::Team;
use jul_subset::VertexSubset;
use jul_words::MinSeat;
use std::alloc::{AllocError, Global};
use std::thread::Threads;

/// Where the rounds stand.
#[derive(Drop)]
pub(crate) struct Standing {
    /// The number of the next round.
    pub(crate) round: u64,
    /// The root of the table of bids, with none out.
    pub(crate) bids: MinSeat,
    /// The root of the table of owners, with none out.
    pub(crate) owners: MinSeat,
}

/// Sets that were chosen, and the root of the table of bids.
#[derive(Drop)]
struct Chosen {
    sets: Vec<u32>,
    seat: MinSeat,
}

/// Packs the drawn sets, lets those bid that are active, gives those that win half their elements, and moves the others to the
/// buckets of their sizes. Where none is active no round is made.
pub(crate) fn take_turn<R: Threads + Sync, G: Gate>(
    rt: &R,
    alloc: Global,
    team: &Team<'_, G>,
    packs: &mut PackedSets,
    drawn: Vec<u32>,
    bucket: u64,
    tables: &Tables<'_, '_>,
    at: Standing,
    columns: &mut Columns,
    buckets: &mut Buckets,
) -> Result<Standing, AllocError>
    requires can { CanTurn tables.now.bids.now tables.now.owners.now bucket drawn.items
        packs.old columns.old.round.items columns.old.by.items
        (record { round = at.round; bids = at.bids; owners = at.owners }) buckets.old }
    requires marks { AreOpen columns.old.marks.items columns.old.by.items }

    ensures turned { IfOk result (λ r. HasTurned bucket drawn.items packs.old packs.new
        columns.old.round.items columns.old.by.items columns.new.round.items columns.new.by.items
        (record { round = at.round; bids = at.bids; owners = at.owners })
        (record { round = r.round; bids = r.bids; owners = r.owners }) buckets.old buckets.new) }
    ensures marks { IfOk result (λ _. AreOpen columns.new.marks.items columns.new.by.items) }
{
    let Standing {
        round: t,
        bids: bid_seat,
        owners: owner_seat,
    } = at;
    pack_each(packs, drawn.as_slice(), columns);
    let active = active_sets(alloc, packs, drawn.as_slice(), bucket)?;
    let next = round_after(t, active.as_slice());
    let chosen = choose(rt, alloc, team, packs, active, bucket, t, tables, bid_seat)?;
    let owner_seat = give(
        rt,
        alloc,
        team,
        packs,
        chosen.sets,
        t,
        tables,
        owner_seat,
        columns,
    )?;
    let moves = moves_after(rt, alloc, team, drawn.as_slice(), packs, columns, buckets)?;
    buckets.update_buckets(moves.as_slice())?;
    Ok(Standing {
        round: next,
        bids: chosen.seat,
        owners: owner_seat,
    })
}

/// The number of the round after this draw, which is a round where some set is active.
pub(crate) fn round_after(t: u64, active: &[u32]) -> u64
    requires few { t ≤ MAX_N }

    ensures { result ≡ (if length active.now == 0 then t else t + 1) }
{
    if active.len() == 0 { t } else { t + 1 }
}

/// The active sets bid for their elements, and those that hold half are chosen.
fn choose<R: Threads + Sync, G: Gate>(
    rt: &R,
    alloc: Global,
    team: &Team<'_, G>,
    packs: &PackedSets,
    active: Vec<u32>,
    bucket: u64,
    t: u64,
    tables: &Tables<'_, '_>,
    seat: MinSeat,
) -> Result<Chosen, AllocError>
    requires packed { ArePacked packs.now }
    requires increasing { IsStrictlyIncreasing active.items }
    requires in_range { All (λ s. s < packs.now.n) active.items }
    requires few { t ≤ MAX_N }
    requires root { IsRootOf packs.now.n tables.now.bids.now seat }

    ensures offered { IfOk result (λ r. HasOffered active.items (pack_at packs.now) (bid_base t) seat r.seat) }
    ensures chosen { IfOk result (λ r. r.sets.items ≡
        chosen_of (pack_at packs.now) (word_of r.seat) (bid_base t) bucket active.items) }
{
    let words = tables.bids;
    let base = base_of(t);
    let work = work_of(packs, active.as_slice());
    let members = VertexSubset::from_increasing(alloc, packs.n, active);
    let mut seat = offer_all(rt, alloc, team, packs, &members, work, base, words, seat)?;
    let sets = chosen_by(
        rt, alloc, team, packs, &members, work, bucket, base, words, &mut seat,
    )?;
    Ok(Chosen { sets, seat })
}

/// The chosen sets take their elements, each the least set that holds it, and get the number of the round.
pub(crate) fn give<R: Threads + Sync, G: Gate>(
    rt: &R,
    alloc: Global,
    team: &Team<'_, G>,
    packs: &PackedSets,
    chosen: Vec<u32>,
    t: u64,
    tables: &Tables<'_, '_>,
    seat: MinSeat,
    columns: &mut Columns,
) -> Result<MinSeat, AllocError>
    requires packed { ArePacked packs.now }
    requires increasing { IsStrictlyIncreasing chosen.items }
    requires in_range { All (λ s. s < packs.now.n) chosen.items }
    requires root { IsRootOf packs.now.n tables.now.owners.now seat }
    requires round { length columns.old.round.items ≡ packs.now.n }
    requires by { length columns.old.by.items ≡ packs.now.n }
    requires marks { AreOpen columns.old.marks.items columns.old.by.items }

    ensures offered { IfOk result (λ r. HasOffered chosen.items (pack_at packs.now) 0 seat r) }
    ensures round { IfOk result (λ _.
        AreWritten chosen.items (λ _. t) columns.old.round.items columns.new.round.items) }
    ensures by { IfOk result (λ r.
        AreWritten (flat_map (pack_at packs.now) chosen.items) (word_of r)
        columns.old.by.items columns.new.by.items) }
    ensures marks { IfOk result (λ _. AreOpen columns.new.marks.items columns.new.by.items) }
{
    let words = tables.owners;
    let work = work_of(packs, chosen.as_slice());
    let members = VertexSubset::from_increasing(alloc, packs.n, chosen);
    let mut seat = offer_all(rt, alloc, team, packs, &members, work, 0, words, seat)?;
    let Some(chosen) = members.as_slice() else {
        unreachable!()
    };
    take_chosen(packs, chosen, t, words, &mut seat, columns);
    Ok(seat)
}
