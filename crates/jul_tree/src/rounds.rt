//! One round over tight places.
ghost use Rattle.std.specs.Prelude.{◌≡◌, ℕ, ◌<◌, ◌≤◌, length, IfOk, IfSome};
ghost use Rattle.jul_base.specs.declared.limits.TheConstants.{MAX_N};
ghost use Rattle.jul_base.specs.Graph.{vertices};
ghost use Rattle.jul_base.specs.InRows.{IsFlip};
ghost use Rattle.jul_words.specs.Seats.{IsSeatOf, IsAlone, floor_of};
ghost use Rattle.jul_edge.specs.EdgeMaps.{CanStamp, HasStamped};
ghost use Rattle.jul_tree.specs.Hooking.{HasHooked};

use crate::hooking::Hook;
use jul_base::Gate;
use jul_edge::{Direction, edge_map_by_reach};
use jul_pool::Team;
use jul_rows::{InRows, Rows};
use jul_subset::VertexSubset;
use jul_words::{MinHand, MinSeat, MinWords, StampSeat, StampWords};
use std::alloc::{AllocError, Global};
use std::thread::Threads;

/// What a round gives back.
#[derive(Drop)]
pub(crate) struct RoundOut {
    /// The vertices that tight places of members lead to and that weren't reached before.
    pub(crate) hit: VertexSubset,
    /// How the places were walked.
    pub(crate) direction: Direction,
    /// The root of the table of keys, with none out.
    pub(crate) seat: MinSeat,
    /// The root of the stamp table, with none out.
    pub(crate) stamp_seat: StampSeat,
}

/// Offers the target of each tight place from a member of `from` the key of `hop` and the member, where the target wasn't
/// reached yet.
///
/// By `reach`, the members and their places, it is chosen how many work and how the places are walked. A pull can't end early,
/// since the least parent may come last. Memory that runs out is the only refusal; then the seats are gone.
pub(crate) fn hook_round<R: Threads + Sync, G: Gate>(
    rt: &R,
    alloc: Global,
    team: &Team<'_, G>,
    rows: &Rows,
    in_rows: Option<&InRows>,
    from: &VertexSubset,
    reach: u64,
    dist: &[u64],
    hops: &[u64],
    hop: u64,
    words: &MinWords,
    seat: MinSeat,
    stamps: &StampWords,
    stamp_seat: StampSeat,
) -> Result<RoundOut, AllocError>
    requires n { from.now.n ≡ vertices rows.now }
    requires flip { IfSome in_rows (λ r. IsFlip rows.now r.now) }
    requires dist { length dist.now ≡ vertices rows.now }
    requires hops { length hops.now ≡ vertices rows.now }
    requires few { hop ≤ MAX_N }
    requires table { IsSeatOf words.now seat }
    requires words { length seat.home.starts ≡ vertices rows.now }
    requires no_floors { (v : ℕ) → floor_of seat.home v ≡ 0 }
    requires alone { IsAlone seat }
    requires stamps { CanStamp (vertices rows.now) stamps.now hop stamp_seat }

    ensures hooked { IfOk result (λ r. HasHooked rows.now from.now.members dist.now hops.now hop seat r.seat r.hit) }
    ensures stamped { IfOk result (λ r. HasStamped r.direction hop stamp_seat r.stamp_seat) }
{
    prove!(from.n() == rows.n());
    let f = Hook {
        dist,
        hops,
        hop,
        words,
    };
    let hand = MinHand { words, seat };
    let team = team.for_work(reach);
    let out = edge_map_by_reach(
        rt, alloc, &team, rows, in_rows, from, reach, &f, hand, stamps, stamp_seat, hop,
    )?;
    let MinHand { words: _, seat } = out.token;
    Ok(RoundOut {
        hit: out.subset,
        direction: out.direction,
        seat,
        stamp_seat: out.stamp_seat,
    })
}
