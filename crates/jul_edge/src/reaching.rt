//! The choice between a push and a pull where in-rows may be missing, for a subset or for a list of targets.
ghost use Rattle.std.specs.Prelude.{◌≡◌, ℕ, ◌<◌, ◌≤◌, true, IfOk, IfSome};
ghost use Rattle.jul_base.specs.Graph.{vertices};
ghost use Rattle.jul_base.specs.InRows.{IsFlip};
ghost use Rattle.jul_subset.specs.Subsets.{IsSubset};
ghost use Rattle.jul_edge.specs.declared.functions.Direction.{Direction};
ghost use Rattle.jul_edge.specs.declared.functions.Direction.TheVariants.{Push, Pull};
ghost use Rattle.jul_edge.specs.Edges.{Application, IsWanted};
ghost use Rattle.jul_edge.specs.EdgeMaps.{HasMapped, CanStamp, HasStamped, listed, direction_by_reach};

use crate::functions::{Direction, EdgeFn};
use crate::maps::{EdgeOut, NotedOut};
use crate::noting::edge_push_noted;
use crate::pulls::edge_pull;
use crate::pushes::edge_push;
use crate::thresholds::edge_map_with_threshold;
use jul_base::{Gate, Share};
use jul_pool::Team;
use jul_rows::{InRows, Rows};
use jul_subset::VertexSubset;
use jul_words::{StampSeat, StampWords};
use std::alloc::{AllocError, Global};
use std::thread::Threads;

/// A pull is made where members and places are more than one in so many of all places.
const SHARE_FOR_PULL: u32 = 2;

/// Applies `f` once to each place from a member of `from` to a target that `f` wants: by pull where there are in-rows and
/// `reach`, the members and their places, is more than half of all places, else by push.
///
/// A pull that can't end early costs each place that leads to a wanted target: it is rarely the lesser work. After an error
/// the tokens are gone.
pub fn edge_map_by_reach<R: Threads + Sync, F: EdgeFn, G: Gate>(
    rt: &R,
    alloc: Global,
    team: &Team<'_, G>,
    rows: &Rows,
    in_rows: Option<&InRows>,
    from: &VertexSubset,
    reach: u64,
    f: &F,
    token: F::Token,
    stamps: &StampWords,
    stamp_seat: StampSeat,
    round: u64,
) -> Result<EdgeOut<F::Token>, AllocError>
    requires n { from.now.n ≡ vertices rows.now }
    requires flip { IfSome in_rows (λ r. IsFlip rows.now r.now) }
    requires root { F.Token.is_root token ≡ true }
    requires none_out { F.Token.out token ≡ 0 }
    requires stamps { CanStamp (vertices rows.now) stamps.now round stamp_seat }
    requires want { (v : ℕ) → v < vertices rows.now → F.can_want f.now v }
    requires apply { (by : Direction) → (a : Application) →
        IsWanted by rows.now from.now.members (F.wanted f.now) a → F.can_apply f.now a (F.Token.home token) }

    ensures direction { IfOk result (λ r. r.direction ≡ direction_by_reach in_rows.entry rows.now reach) }
    ensures made { IfOk result (λ r. HasMapped F.Token.log F.Token.home F.Token.is_root F.Token.out
        r.direction rows.now from.now.members (F.wanted f.now) (F.gives f.now) token r.token r.subset) }
    ensures stamped { IfOk result (λ r. HasStamped r.direction round stamp_seat r.stamp_seat) }
{
    match in_rows {
        None => edge_push(
            rt, alloc, team, rows, from, f, token, stamps, stamp_seat, round,
        ),
        Some(in_rows) => {
            let threshold = u64::from(rows.m() / SHARE_FOR_PULL);
            edge_map_with_threshold(
                rt, alloc, team, rows, in_rows, from, reach, threshold, f, token, stamps,
                stamp_seat, round,
            )
        }
    }
}

/// The same from a list of members, which increases. The targets that were answered true are put in place of what `noted`
/// held: after a push each as often as it was and in no order, after a pull each once.
///
/// A push by one worker takes no memory beyond what `noted` has. After an error the token is gone.
pub fn edge_notes_by_reach<R: Threads + Sync, F: EdgeFn, G: Gate>(
    rt: &R,
    alloc: Global,
    team: &Team<'_, G>,
    rows: &Rows,
    in_rows: Option<&InRows>,
    members: &[u32],
    reach: u64,
    f: &F,
    token: F::Token,
    noted: &mut Vec<u32>,
) -> Result<NotedOut<F::Token>, AllocError>
    requires members { IsSubset (listed Push (vertices rows.now) members.now) }
    requires flip { IfSome in_rows (λ r. IsFlip rows.now r.now) }
    requires root { F.Token.is_root token ≡ true }
    requires none_out { F.Token.out token ≡ 0 }
    requires want { (v : ℕ) → v < vertices rows.now → F.can_want f.now v }
    requires apply { (by : Direction) → (a : Application) →
        IsWanted by rows.now members.now (F.wanted f.now) a → F.can_apply f.now a (F.Token.home token) }

    ensures direction { IfOk result (λ r. r.direction ≡ direction_by_reach in_rows.entry rows.now reach) }
    ensures made { IfOk result (λ r. HasMapped F.Token.log F.Token.home F.Token.is_root F.Token.out
        r.direction rows.now members.now (F.wanted f.now) (F.gives f.now) token r.token
        (listed r.direction (vertices rows.now) noted.new.items)) }
{
    if let Some(in_rows) = in_rows {
        if u64::from(rows.m() / SHARE_FOR_PULL) < reach {
            return pull_noted(rt, alloc, team, rows, in_rows, members, f, token, noted);
        }
    }
    let token = edge_push_noted(rt, alloc, team, rows, members, f, token, noted)?;
    Ok(NotedOut {
        direction: Direction::Push,
        token,
    })
}

/// Pulls from these members, and lists the targets that were answered true.
fn pull_noted<R: Threads + Sync, F: EdgeFn, G: Gate>(
    rt: &R,
    alloc: Global,
    team: &Team<'_, G>,
    rows: &Rows,
    in_rows: &InRows,
    members: &[u32],
    f: &F,
    token: F::Token,
    noted: &mut Vec<u32>,
) -> Result<NotedOut<F::Token>, AllocError>
    requires members { IsSubset (listed Push (vertices rows.now) members.now) }
    requires flip { IsFlip rows.now in_rows.now }
    requires root { F.Token.is_root token ≡ true }
    requires none_out { F.Token.out token ≡ 0 }
    requires want { (v : ℕ) → v < vertices rows.now → F.can_want f.now v }
    requires apply { (a : Application) → IsWanted Pull rows.now members.now (F.wanted f.now) a →
        F.can_apply f.now a (F.Token.home token) }

    ensures direction { IfOk result (λ r. r.direction ≡ Pull) }
    ensures made { IfOk result (λ r. HasMapped F.Token.log F.Token.home F.Token.is_root F.Token.out
        Pull rows.now members.now (F.wanted f.now) (F.gives f.now) token r.token
        (listed Pull (vertices rows.now) noted.new.items)) }
{
    let from = VertexSubset::from_increasing(alloc, rows.n(), Vec::from_slice(alloc, members)?);
    let out = edge_pull(rt, alloc, team, rows, in_rows, &from, f, token)?;
    *noted = out.subset.ids()?;
    Ok(NotedOut {
        direction: Direction::Pull,
        token: out.token,
    })
}
