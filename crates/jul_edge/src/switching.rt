//! The choice between a push and a pull.
ghost use Rattle.std.specs.Prelude.{◌≡◌, ℕ, ◌+◌, ◌/◌, ◌<◌, ◌≤◌, ◌^◌, true, false, length, nat_lt, IfOk, All};
ghost use Rattle.jul_base.specs.Graph.{vertices, places, IsLawful};
ghost use Rattle.jul_base.specs.InRows.{IsFlip};
ghost use Rattle.jul_subset.specs.Subsets.{IsSubset};
ghost use Rattle.jul_edge.specs.declared.functions.Direction.{Direction};
ghost use Rattle.jul_edge.specs.Edges.{Application, IsWanted};
ghost use Rattle.jul_rows.specs.Reach.{reach};
ghost use Rattle.jul_edge.specs.EdgeMaps.{HasMapped, CanStamp, HasStamped, direction_for};

use crate::functions::{Direction, EdgeFn};
use crate::maps::EdgeOut;
use crate::pulls::edge_pull;
use crate::pushes::push_list;
use jul_base::{Gate, Share};
use jul_pool::Team;
use jul_rows::{InRows, Rows, reach_of};
use jul_subset::VertexSubset;
use jul_words::{StampSeat, StampWords};
use std::alloc::{AllocError, Global};
use std::thread::Threads;

/// A pull is made where members and places are more than one in so many of all places.
const SHARE_FOR_PULL: u32 = 20;

/// Applies `f` once to each place from a member of `from` to a target that `f` wants: by pull where the number of
/// members plus the sum of their degrees exceeds a twentieth of all places, rounded down, else by push.
///
/// The threshold is that of Ligra. After an error the tokens are gone.
pub fn edge_map<R: Threads + Sync, F: EdgeFn, G: Gate>(
    rt: &R,
    alloc: Global,
    team: &Team<'_, G>,
    rows: &Rows,
    in_rows: &InRows,
    from: &VertexSubset,
    f: &F,
    token: F::Token,
    stamps: &StampWords,
    stamp_seat: StampSeat,
    round: u64,
) -> Result<EdgeOut<F::Token>, AllocError>
    requires n { from.now.n ≡ vertices rows.now }
    requires flip { IsFlip rows.now in_rows.now }
    requires root { F.Token.is_root token ≡ true }
    requires none_out { F.Token.out token ≡ 0 }
    requires stamps { CanStamp (vertices rows.now) stamps.now round stamp_seat }
    requires want { (v : ℕ) → v < vertices rows.now → F.can_want f.now v }
    requires apply { (by : Direction) → (a : Application) →
        IsWanted by rows.now from.now.members (F.wanted f.now) a → F.can_apply f.now a (F.Token.home token) }

    ensures direction { IfOk result (λ r. r.direction ≡ direction_for rows.now from.now.members) }
    ensures made { IfOk result (λ r. HasMapped F.Token.log F.Token.home F.Token.is_root F.Token.out
        r.direction rows.now from.now.members (F.wanted f.now) (F.gives f.now) token r.token r.subset) }
    ensures stamped { IfOk result (λ r. HasStamped r.direction round stamp_seat r.stamp_seat) }
{
    prove!(from.n() == rows.n());
    match from.as_slice() {
        Some(members) => map_list(
            rt, alloc, team, rows, in_rows, from, members, f, token, stamps, stamp_seat, round,
        ),
        None => {
            let members = from.ids()?;
            let members = members.as_slice();
            map_list(
                rt, alloc, team, rows, in_rows, from, members, f, token, stamps, stamp_seat, round,
            )
        }
    }
}

/// The same, with the members of `from` as a list.
fn map_list<R: Threads + Sync, F: EdgeFn, G: Gate>(
    rt: &R,
    alloc: Global,
    team: &Team<'_, G>,
    rows: &Rows,
    in_rows: &InRows,
    from: &VertexSubset,
    members: &[u32],
    f: &F,
    token: F::Token,
    stamps: &StampWords,
    stamp_seat: StampSeat,
    round: u64,
) -> Result<EdgeOut<F::Token>, AllocError>
    requires lawful { IsLawful rows.now }
    requires subset { IsSubset (record { n = vertices rows.now; members = members.now; dense = false }) }
    requires list { members.now ≡ from.now.members }
    requires n { from.now.n ≡ vertices rows.now }
    requires flip { IsFlip rows.now in_rows.now }
    requires root { F.Token.is_root token ≡ true }
    requires none_out { F.Token.out token ≡ 0 }
    requires stamps { CanStamp (vertices rows.now) stamps.now round stamp_seat }
    requires want { (v : ℕ) → v < vertices rows.now → F.can_want f.now v }
    requires apply { (by : Direction) → (a : Application) →
        IsWanted by rows.now members.now (F.wanted f.now) a → F.can_apply f.now a (F.Token.home token) }

    ensures direction { IfOk result (λ r. r.direction ≡ direction_for rows.now members.now) }
    ensures made { IfOk result (λ r. HasMapped F.Token.log F.Token.home F.Token.is_root F.Token.out
        r.direction rows.now members.now (F.wanted f.now) (F.gives f.now) token r.token r.subset) }
    ensures stamped { IfOk result (λ r. HasStamped r.direction round stamp_seat r.stamp_seat) }
{
    if !reaches_far(rows, members) {
        return push_list(
            rt, alloc, team, rows, members, f, token, stamps, stamp_seat, round,
        );
    }
    let out = edge_pull(rt, alloc, team, rows, in_rows, from, f, token)?;
    Ok(EdgeOut {
        subset: out.subset,
        direction: Direction::Pull,
        token: out.token,
        stamp_seat,
    })
}

/// Whether members and places are more than a twentieth of all places.
fn reaches_far(rows: &Rows, members: &[u32]) -> bool
    requires few { length members.now ≤ 2 ^ 24 }
    requires vertices { All (λ u. u < vertices rows.now) members.now }

    ensures { result ≡ nat_lt (places rows.now / 20) (reach rows.now members.now) }
{
    u64::from(rows.m() / SHARE_FOR_PULL) < reach_of(rows, members)
}
