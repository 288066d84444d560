//! A turn over sets that are kept packed: it costs the drawn sets, and beyond that what it changes.
ghost use Rattle.std.specs.Prelude.{◌≡◌, ◌↔◌, ℕ, ◌<◌, ◌≤◌, length, All, Contains, IfOk};
ghost use Rattle.std.specs.List.Sorted.{IsStrictlyIncreasing};
ghost use Rattle.jul_base.specs.declared.limits.TheConstants.{MAX_N};
ghost use Rattle.jul_bucket.specs.Places.{ids_at};
ghost use Rattle.jul_bucket.specs.States.{with_emptied};
ghost use Rattle.jul_cover.specs.PackedSets.{pack_at, ArePacked, AreOpen, HasPacked};
ghost use Rattle.jul_cover.specs.CoverBids.{bid_base};
ghost use Rattle.jul_cover.specs.Offers.{IsRootOf};
ghost use Rattle.jul_cover.specs.Choosing.{active_of};
ghost use Rattle.jul_cover.specs.CoverWork.{CanTurn};
ghost use Rattle.jul_cover.specs.Keeping.{AreWithin, winners_of};
ghost use Rattle.jul_cover.specs.KeptTurns.{AreAllOpen, AreRight, HasBid, HasKept};

use crate::choosing::{active_sets, work_of};
use crate::columns::Columns;
use crate::moving::moves_from;
use crate::offering::offer_all;
use crate::packed_sets::PackedSets;
use crate::packing::pack_each;
use crate::sizes::base_of;
use crate::tables::Tables;
use crate::touching::touched_by;
use crate::turns::{Standing, give, round_after};
use crate::winning::{winners_among, winning_sets};
use jul_base::Gate;
use jul_bucket::Buckets;
use jul_pool::Team;
use jul_rows::InRows;
use jul_subset::VertexSubset;
use jul_words::MinSeat;
use std::alloc::{AllocError, Global};
use std::thread::Threads;

/// The sets that a turn looks at.
#[derive(Drop)]
pub(crate) struct Watched {
    /// Who may be chosen.
    pub(crate) candidates: Vec<u32>,
    /// Whose size or bucket may have changed since the bucket was drawn last.
    pub(crate) changed: Vec<u32>,
}

/// Where the rounds stand, and which sets the next turn looks at if its bucket is the same.
#[derive(Drop)]
pub(crate) struct Kept {
    pub(crate) at: Standing,
    pub(crate) watched: Watched,
}

/// Chooses those candidates that win half, gives them their elements, moves the changed and the chosen sets of the bucket
/// to where they belong, and packs the sets that lost elements. No other set is looked at.
///
/// The bucket was drawn in place, so its sets are still in it.
pub(crate) fn take_kept_turn<R: Threads + Sync, G: Gate>(
    rt: &R,
    alloc: Global,
    team: &Team<'_, G>,
    packs: &mut PackedSets,
    holders: &InRows,
    watched: Watched,
    bucket: u64,
    tables: &Tables<'_, '_>,
    at: Standing,
    columns: &mut Columns,
    buckets: &mut Buckets,
) -> Result<Kept, AllocError>
    requires can { CanTurn tables.now.bids.now tables.now.owners.now bucket (ids_at buckets.old.places bucket)
        packs.old columns.old.round.items columns.old.by.items
        (record { round = at.round; bids = at.bids; owners = at.owners }) (with_emptied buckets.old bucket) }
    requires open_sets { AreAllOpen columns.old.by.items packs.old }
    requires within { AreWithin packs.old.n holders.now }
    requires increasing { IsStrictlyIncreasing watched.candidates.items }
    requires in_range { All (λ s. s < packs.old.n) watched.candidates.items }
    requires right { AreRight buckets.old.places bucket (pack_at packs.old) columns.old.round.items
        watched.changed.items }
    requires changed_in { All (λ s. s < packs.old.n) watched.changed.items }
    requires marks { AreOpen columns.old.marks.items columns.old.by.items }

    ensures kept { IfOk result (λ r. HasKept holders.now bucket (ids_at buckets.old.places bucket)
        watched.candidates.items packs.old packs.new
        columns.old.round.items columns.old.by.items columns.new.round.items columns.new.by.items
        (record { round = at.round; bids = at.bids; owners = at.owners })
        (record { round = r.at.round; bids = r.at.bids; owners = r.at.owners })
        (with_emptied buckets.old bucket) buckets.new r.watched.candidates.items) }
    ensures marks { IfOk result (λ _. AreOpen columns.new.marks.items columns.new.by.items) }
    ensures increasing { IfOk result (λ r. IsStrictlyIncreasing r.watched.candidates.items) }
    ensures in_range { IfOk result (λ r. All (λ s. s < packs.new.n) r.watched.candidates.items) }
    ensures right { IfOk result (λ r.
        AreRight buckets.new.places bucket (pack_at packs.new) columns.new.round.items r.watched.changed.items) }
    ensures changed_in { IfOk result (λ r. All (λ s. s < packs.new.n) r.watched.changed.items) }
{
    let Standing {
        round: t,
        bids: bid_seat,
        owners: owner_seat,
    } = at;
    let Watched {
        candidates,
        changed: mut listed,
    } = watched;
    let chosen = winning_sets(alloc, packs, holders, candidates.as_slice(), bucket)?;
    let next = round_after(t, chosen.as_slice());
    let holding = touched_by(alloc, packs, holders, chosen.as_slice())?;
    let touched = ordered(alloc, packs.n, holding)?;
    let bid_seat = bid_for(
        rt,
        alloc,
        team,
        packs,
        holders,
        chosen.as_slice(),
        bucket,
        t,
        tables,
        bid_seat,
    )?;
    listed.extend_from_slice(chosen.as_slice())?;
    let owner_seat = give(
        rt, alloc, team, packs, chosen, t, tables, owner_seat, columns,
    )?;
    let moves = moves_from(alloc, listed.as_slice(), bucket, packs, columns, buckets)?;
    buckets.update_buckets(moves.as_slice())?;
    let candidates = renewed(alloc, packs, holders, touched.as_slice(), bucket, columns)?;
    Ok(Kept {
        at: Standing {
            round: next,
            bids: bid_seat,
            owners: owner_seat,
        },
        watched: Watched {
            candidates,
            changed: touched,
        },
    })
}

/// These sets, each once, in increasing order.
fn ordered(alloc: Global, n: u32, sets: Vec<u32>) -> Result<Vec<u32>, AllocError>
    requires few { n ≤ MAX_N }
    requires in_range { All (λ s. s < n) sets.items }

    ensures increasing { IfOk result (λ r. IsStrictlyIncreasing r.items) }
    ensures in_range { IfOk result (λ r. All (λ s. s < n) r.items) }
    ensures same { IfOk result (λ r. (s : ℕ) → Contains r.items s ↔ Contains sets.items s) }
{
    let subset = VertexSubset::from_unordered(alloc, n, sets)?;
    let ids = subset.ids()?;
    Ok(ids)
}

/// The winner of each element of the chosen sets bids for what is left of it.
fn bid_for<R: Threads + Sync, G: Gate>(
    rt: &R,
    alloc: Global,
    team: &Team<'_, G>,
    packs: &PackedSets,
    holders: &InRows,
    chosen: &[u32],
    bucket: u64,
    t: u64,
    tables: &Tables<'_, '_>,
    seat: MinSeat,
) -> Result<MinSeat, AllocError>
    requires packed { ArePacked packs.now }
    requires within { AreWithin packs.now.n holders.now }
    requires in_range { All (λ s. s < packs.now.n) chosen.now }
    requires few { t ≤ MAX_N }
    requires root { IsRootOf packs.now.n tables.now.bids.now seat }

    ensures { IfOk result (λ r. HasBid (pack_at packs.now) holders.now bucket chosen.now (bid_base t) seat r) }
{
    let winners = winners_among(alloc, packs, holders, chosen, bucket)?;
    let bidders = ordered(alloc, packs.n, winners)?;
    let work = work_of(packs, bidders.as_slice());
    let members = VertexSubset::from_increasing(alloc, packs.n, bidders);
    let words = tables.bids;
    let base = base_of(t);
    let seat = offer_all(rt, alloc, team, packs, &members, work, base, words, seat)?;
    Ok(seat)
}

/// Packs the touched sets, and gives the winners of what is left of those that had been large.
fn renewed(
    alloc: Global,
    packs: &mut PackedSets,
    holders: &InRows,
    touched: &[u32],
    bucket: u64,
    columns: &Columns,
) -> Result<Vec<u32>, AllocError>
    requires packed { ArePacked packs.old }
    requires within { AreWithin packs.old.n holders.now }
    requires in_range { All (λ s. s < packs.old.n) touched.now }
    requires marks { AreOpen columns.now.marks.items columns.now.by.items }
    requires by { length columns.now.by.items ≡ packs.old.n }

    ensures packed { IfOk result (λ _. HasPacked columns.now.by.items touched.now packs.old packs.new) }
    ensures winners { IfOk result (λ r. (s : ℕ) → Contains r.items s
        ↔ Contains (winners_of (pack_at packs.new) holders.now bucket
        (active_of (pack_at packs.old) bucket touched.now)) s) }
    ensures increasing { IfOk result (λ r. IsStrictlyIncreasing r.items) }
    ensures in_range { IfOk result (λ r. All (λ s. s < packs.new.n) r.items) }
{
    let large = active_sets(alloc, packs, touched, bucket)?;
    pack_each(packs, touched, columns);
    let winners = winners_among(alloc, packs, holders, large.as_slice(), bucket)?;
    let candidates = ordered(alloc, packs.n, winners)?;
    Ok(candidates)
}
