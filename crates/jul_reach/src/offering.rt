//! The least vertex of a subset from which a place leads to each vertex.
ghost use Rattle.std.specs.Prelude.{◌≡◌, ◌↔◌, ℕ, ◌<◌, ◌≤◌, true, length, Contains, IfOk, replicate};
ghost use Rattle.jul_base.specs.declared.limits.TheConstants.{NONE};
ghost use Rattle.jul_base.specs.Graph.{vertices};
ghost use Rattle.jul_base.specs.InRows.{IsFlip};
ghost use Rattle.jul_base.specs.Numbers.{IsColumn, IsLeastOrNone};
ghost use Rattle.jul_words.specs.Seats.{home, rooted};
ghost use Rattle.jul_edge.specs.EdgeMaps.{CanStamp};
ghost use Rattle.jul_reach.specs.Offering.{CanOffer, Offers, IsOffered};

use crate::words::numbers_of;
use jul_base::{Gate, NONE};
use jul_edge::{Direction, EdgeFn, edge_map};
use jul_pool::Team;
use jul_rows::{InRows, Rows};
use jul_subset::VertexSubset;
use jul_words::{MinHand, MinSeat, MinWords, StampSeat, StampWords, ZeroFloors};
use std::alloc::{AllocError, Global};
use std::thread::Threads;

/// Each edge offers its source to the word of its target.
#[derive(Drop)]
pub struct OfferSource<'a> {
    /// The words that are lowered.
    pub words: &'a MinWords,
}

impl<'a> EdgeFn for OfferSource<'a> {
    type Token = MinHand<'a>;

    ghost can_want = { λ _ _. Unit {0} };

    ghost wanted = { λ _ _. true };

    ghost can_apply = { λ _ a homes. CanOffer a homes };

    ghost gives = { λ _ a answer added. Offers a answer added };

    fn wants(&self, _v: u32) -> bool {
        true
    }

    fn apply(
        &self,
        hand: &mut MinHand<'a>,
        _by: Direction,
        u: u32,
        _place: u32,
        v: u32,
        _w: u32,
    ) -> bool {
        let _ = hand.words.lower(&mut hand.seat, v, u64::from(u));
        true
    }
}

/// What `least_sources` gives.
#[derive(Drop)]
pub struct LeastSources {
    /// The vertices that a place of a member leads to.
    pub targets: VertexSubset,
    /// For each vertex the least member with a place to it, and `NONE` where there is none.
    pub sources: Vec<u64>,
}

/// For each vertex the least member of `from` from which a place leads to it.
///
/// Memory that runs out is the only refusal.
pub fn least_sources<R: Threads + Sync, G: Gate>(
    rt: &R,
    alloc: Global,
    team: &Team<'_, G>,
    rows: &Rows,
    in_rows: &InRows,
    from: &VertexSubset,
) -> Result<LeastSources, AllocError>
    requires n { from.now.n ≡ vertices rows.now }
    requires flip { IsFlip rows.now in_rows.now }

    ensures targets { IfOk result (λ r. (v : ℕ) → Contains r.targets.members v
        ↔ ((u : ℕ) × IsOffered rows.now from.now.members v u)) }
    ensures sources { IfOk result (λ r. IsColumn (vertices rows.now)
        (λ v. IsLeastOrNone (IsOffered rows.now from.now.members v)) r.sources.items) }
{
    let start = vec![in alloc; NONE; rows.n() as usize]?;
    let floors = ZeroFloors { count: rows.n() };
    let (words, seat) = MinWords::open(alloc, start.as_slice(), &floors)?;
    let (stamps, stamp_seat) = StampWords::open(alloc, rows.n())?;
    offer(
        rt, alloc, team, rows, in_rows, from, &words, seat, &stamps, stamp_seat,
    )
}

/// One edge map through a hand on the words, whose root then reads them.
fn offer<R: Threads + Sync, G: Gate>(
    rt: &R,
    alloc: Global,
    team: &Team<'_, G>,
    rows: &Rows,
    in_rows: &InRows,
    from: &VertexSubset,
    words: &MinWords,
    seat: MinSeat,
    stamps: &StampWords,
    stamp_seat: StampSeat,
) -> Result<LeastSources, AllocError>
    requires n { from.now.n ≡ vertices rows.now }
    requires flip { IsFlip rows.now in_rows.now }
    requires words { seat ≡ rooted (home words.now
        (replicate (vertices rows.now) NONE) (replicate (vertices rows.now) 0)) }
    requires stamps { CanStamp (vertices rows.now) stamps.now 1 stamp_seat }

    ensures targets { IfOk result (λ r. (v : ℕ) → Contains r.targets.members v
        ↔ ((u : ℕ) × IsOffered rows.now from.now.members v u)) }
    ensures sources { IfOk result (λ r. IsColumn (vertices rows.now)
        (λ v. IsLeastOrNone (IsOffered rows.now from.now.members v)) r.sources.items) }
{
    let n = rows.n();
    let f = OfferSource { words };
    let hand = MinHand { words, seat };
    let out = edge_map(
        rt, alloc, team, rows, in_rows, from, &f, hand, stamps, stamp_seat, 1,
    )?;
    let MinHand { words: _, mut seat } = out.token;
    let sources = numbers_of(alloc, n, words, &mut seat)?;
    Ok(LeastSources {
        targets: out.subset,
        sources,
    })
}
