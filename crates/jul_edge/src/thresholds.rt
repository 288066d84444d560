//! The choice between a push and a pull by the caller's own threshold.
ghost use Rattle.std.specs.Prelude.{◌≡◌, ℕ, ◌<◌, ◌≤◌, true, nat_lt, if◌then◌else◌, IfOk};
ghost use Rattle.jul_base.specs.Graph.{vertices};
ghost use Rattle.jul_base.specs.InRows.{IsFlip};
ghost use Rattle.jul_edge.specs.declared.functions.Direction.{Direction};
ghost use Rattle.jul_edge.specs.declared.functions.Direction.TheVariants.{Push, Pull};
ghost use Rattle.jul_edge.specs.Edges.{Application, IsWanted};
ghost use Rattle.jul_edge.specs.EdgeMaps.{HasMapped, CanStamp, HasStamped};

use crate::functions::{Direction, EdgeFn};
use crate::maps::EdgeOut;
use crate::pulls::edge_pull;
use crate::pushes::edge_push;
use jul_base::{Gate, Share};
use jul_pool::Team;
use jul_rows::{InRows, Rows};
use jul_subset::VertexSubset;
use jul_words::{StampSeat, StampWords};
use std::alloc::{AllocError, Global};
use std::thread::Threads;

/// Applies `f` once to each place from a member of `from` to a target that `f` wants: by pull where `work` is more than
/// `threshold`, else by push.
///
/// A push costs the members and their places, which `reach_of` of `jul_rows` counts. A pull that can't end early costs each place that
/// leads to a wanted target, so it is rarely the lesser work where the threshold is low. After an error the tokens are gone.
pub fn edge_map_with_threshold<R: Threads + Sync, F: EdgeFn, G: Gate>(
    rt: &R,
    alloc: Global,
    team: &Team<'_, G>,
    rows: &Rows,
    in_rows: &InRows,
    from: &VertexSubset,
    work: u64,
    threshold: u64,
    f: &F,
    token: F::Token,
    stamps: &StampWords,
    stamp_seat: StampSeat,
    round: u64,
) -> Result<EdgeOut<F::Token>, AllocError>
    requires n { from.now.n ≡ vertices rows.now }
    requires flip { IsFlip rows.now in_rows.now }
    requires root { F.Token.is_root token ≡ true }
    requires none_out { F.Token.out token ≡ 0 }
    requires stamps { CanStamp (vertices rows.now) stamps.now round stamp_seat }
    requires want { (v : ℕ) → v < vertices rows.now → F.can_want f.now v }
    requires apply { (by : Direction) → (a : Application) →
        IsWanted by rows.now from.now.members (F.wanted f.now) a → F.can_apply f.now a (F.Token.home token) }

    ensures direction { IfOk result (λ r. r.direction ≡ (if nat_lt threshold work then Pull else Push)) }
    ensures made { IfOk result (λ r. HasMapped F.Token.log F.Token.home F.Token.is_root F.Token.out
        r.direction rows.now from.now.members (F.wanted f.now) (F.gives f.now) token r.token r.subset) }
    ensures stamped { IfOk result (λ r. HasStamped r.direction round stamp_seat r.stamp_seat) }
{
    if work <= threshold {
        return edge_push(
            rt, alloc, team, rows, from, f, token, stamps, stamp_seat, round,
        );
    }
    let out = edge_pull(rt, alloc, team, rows, in_rows, from, f, token)?;
    Ok(EdgeOut {
        subset: out.subset,
        direction: Direction::Pull,
        token: out.token,
        stamp_seat,
    })
}
