//! A set cover and the rounds in which it was found.
ghost use Rattle.std.specs.Prelude.{◌≡◌, ℕ, ◌<◌, ◌≤◌, [], length, replicate, IfOk, slice_index};
ghost use Rattle.jul_base.specs.declared.limits.TheConstants.{NONE};
ghost use Rattle.jul_base.specs.Sets.{sets_of};
ghost use Rattle.jul_base.specs.CoverRounds.{IsCover, IsRoundCount};
ghost use Rattle.jul_words.specs.Seats.{IsAlone, home, rooted};
ghost use Rattle.jul_words.specs.Least.{word_of};
ghost use Rattle.jul_bucket.specs.declared.limits.TheConstants.{MAX_OPEN};
ghost use Rattle.jul_bucket.specs.declared.orders.Order.TheVariants.{Decreasing};
ghost use Rattle.jul_bucket.specs.Places.{AllNone};
ghost use Rattle.jul_cover.specs.CoverBids.{IsLastBid};
ghost use Rattle.jul_cover.specs.CoverBounds.{IsSmallCover};
ghost use Rattle.jul_cover.specs.CoverDraws.{HaveDraws};
ghost use Rattle.jul_cover.specs.CoverMoves.{AreSizes};

use crate::columns::Columns;
use crate::packing::packed_sets;
use crate::rounds::cover_rounds;
use crate::sizes::first_places;
use crate::tables::Tables;
use crate::turns::Standing;
use jul_base::{Column, Cover, Gate, NONE};
use jul_bucket::{Buckets, Order};
use jul_pool::Team;
use jul_rows::{Rows, SetRows};
use jul_words::{MinSeat, MinWords, ZeroFloors};
use std::alloc::{AllocError, Global};
use std::thread::Threads;

/// What `cover` gives.
#[derive(Drop)]
pub struct CoverOut {
    /// The round of each set that was chosen, and for each element the set that covers it. `NONE` elsewhere.
    pub cover: Cover,
    /// The root of the table of bids, with none out.
    pub bid_seat: MinSeat,
    /// The root of the table of owners, with none out.
    pub owner_seat: MinSeat,
}

/// A set cover in rounds.
///
/// In a round those sets are active that have at least `2^b` elements that aren't covered, where `b` is the floor of the
/// base-2 logarithm of the greatest such number. The winner of an element is the least active set that holds it. An active
/// set is chosen where it wins at least half of `2^b` elements, and covers all its elements.
///
/// Both tables have a word for each vertex, which starts at `NONE` without a floor, and nothing was logged in them. The
/// buckets are decreasing, were never drawn from, and hold each set in the bucket of the logarithm of its size, and an empty
/// one in none. At the end the owner words are the sets that cover, and the bid word of an element is
/// `(2^32 - 1 - t) * 2^32 + s` of its winner `s` in the last round `t` in which it had one.
///
/// Memory that runs out is the only refusal. Then the seats are gone, and tables and buckets aren't used again.
pub fn cover<R: Threads + Sync, G: Gate>(
    rt: &R,
    alloc: Global,
    team: &Team<'_, G>,
    sets: &SetRows,
    bids: &MinWords,
    bid_seat: MinSeat,
    owners: &MinWords,
    owner_seat: MinSeat,
    buckets: &mut Buckets,
) -> Result<CoverOut, AllocError>
    requires bids { bid_seat ≡ rooted (home bids.now (replicate (length sets.now) NONE) (replicate (length sets.now) 0)) }
    requires owners { owner_seat ≡ rooted (home owners.now
        (replicate (length sets.now) NONE) (replicate (length sets.now) 0)) }
    requires order { buckets.old.order ≡ Decreasing }
    requires sizes { AreSizes sets.now buckets.old.places }
    requires no_draws { buckets.old.draws ≡ [] }

    ensures cover { IfOk result (λ r. IsCover sets.now r.cover) }

    // At most 4 * (f + 1) times as many sets are chosen as any list has that holds every element.
    ensures small { IfOk result (λ r. IsSmallCover sets.now r.cover.round) }

    ensures owners { IfOk result (λ r. (e : ℕ) → e < length sets.now →
        word_of r.owner_seat e ≡ slice_index r.cover.by e) }
    ensures bids { IfOk result (λ r. (e : ℕ) → e < length sets.now → IsLastBid sets.now e (word_of r.bid_seat e)) }

    // For each round, in order, a draw of its bucket that has its active sets.
    ensures draws { IfOk result (λ _. (t : ℕ) × IsRoundCount sets.now t × HaveDraws sets.now buckets.new.draws t) }
    ensures none_left { IfOk result (λ _. AllNone buckets.new.places) }
    ensures bid_seat { IfOk result (λ r. IsAlone r.bid_seat × (r.bid_seat.home ≡ bid_seat.home)) }
    ensures owner_seat { IfOk result (λ r. IsAlone r.owner_seat × (r.owner_seat.home ≡ owner_seat.home)) }
{
    let n = sets.n() as usize;
    let round = vec![in alloc; NONE; n]?;
    let by = vec![in alloc; NONE; n]?;
    let marks = vec![in alloc; true; n]?;
    let mut columns = Columns { round, by, marks };
    let tables = Tables { bids, owners };
    let mut packs = packed_sets(alloc, sets)?;
    let at = Standing {
        round: 0,
        bids: bid_seat,
        owners: owner_seat,
    };
    let end = cover_rounds(
        rt,
        alloc,
        team,
        sets,
        &mut packs,
        &tables,
        at,
        &mut columns,
        buckets,
    )?;
    Ok(CoverOut {
        cover: Cover {
            round: Column::from_vec(columns.round),
            by: Column::from_vec(columns.by),
        },
        bid_seat: end.bids,
        owner_seat: end.owners,
    })
}

/// The cover of the sets of a graph's rows, with tables and buckets of its own, of which so many are open.
///
/// The rows are given back once their sets are made, before the rounds take their memory. Memory that runs out is the only
/// refusal.
pub fn cover_of<R: Threads + Sync, G: Gate>(
    rt: &R,
    alloc: Global,
    team: &Team<'_, G>,
    rows: Rows,
    open_count: u32,
) -> Result<Cover, AllocError>
    requires open_some { 0 < open_count }
    requires open_few { open_count ≤ MAX_OPEN }

    ensures cover { IfOk result (IsCover (sets_of rows)) }
    ensures small { IfOk result (λ cover. IsSmallCover (sets_of rows) cover.round) }
{
    let sets = rows.elements()?;
    drop(rows);
    let start = vec![in alloc; NONE; sets.n() as usize]?;
    let floors = ZeroFloors { count: sets.n() };
    let (bids, bid_seat) = MinWords::open(alloc, start.as_slice(), &floors)?;
    let (owners, owner_seat) = MinWords::open(alloc, start.as_slice(), &floors)?;
    drop(start);
    let places = first_places(alloc, &sets)?;
    let mut buckets = Buckets::make(alloc, Order::Decreasing, open_count, places.as_slice())?;
    drop(places);
    let out = cover(
        rt,
        alloc,
        team,
        &sets,
        &bids,
        bid_seat,
        &owners,
        owner_seat,
        &mut buckets,
    )?;
    Ok(out.cover)
}
