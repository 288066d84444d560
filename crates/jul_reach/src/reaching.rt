//! The vertices that walks from a source lead to.
ghost use Rattle.std.specs.Prelude.{◌≡◌, ◌↔◌, ℕ, ◌<◌, [], true, false, not, length, IfOk};
ghost use Rattle.jul_base.specs.Graph.{vertices};
ghost use Rattle.jul_base.specs.InRows.{IsFlip};
ghost use Rattle.jul_edge.specs.EdgeMaps.{CanStamp};
ghost use Rattle.jul_reach.specs.Reaching.{IsReached, mark_at};

use crate::marks::mark_all;
use jul_base::{Free, Gate};
use jul_edge::{Direction, EdgeFn, edge_map};
use jul_pool::Team;
use jul_rows::{InRows, Rows};
use jul_subset::VertexSubset;
use jul_words::{StampSeat, StampWords};
use std::alloc::{AllocError, Global};
use std::thread::Threads;

/// The edges to vertices without a mark. Each of them puts its target into the next frontier.
#[derive(Drop)]
pub struct Unreached<'a> {
    /// For each vertex whether it was reached.
    pub reached: &'a [bool],
}

impl<'a> EdgeFn for Unreached<'a> {
    type Token = Free;

    ghost can_want = { λ f v. v < length f.reached.now };

    ghost wanted = { λ f v. not (mark_at f.reached.now v) };

    ghost can_apply = { λ _ _ _. Unit {0} };

    ghost gives = { λ _ _ answer added. (answer ≡ true) × (added ≡ []) };

    fn wants(&self, v: u32) -> bool {
        !self.reached[v as usize]
    }

    fn apply(
        &self,
        _token: &mut Free,
        _by: Direction,
        _u: u32,
        _place: u32,
        _v: u32,
        _w: u32,
    ) -> bool {
        true
    }
}

/// For each vertex whether a walk from `source` leads to it.
///
/// Memory that runs out is the only refusal.
pub fn reached_from<R: Threads + Sync, G: Gate>(
    rt: &R,
    alloc: Global,
    team: &Team<'_, G>,
    rows: &Rows,
    source: u32,
) -> Result<Vec<bool>, AllocError>
    requires { source < vertices rows.now }

    ensures size { IfOk result (λ marks. length marks.items ≡ vertices rows.now) }
    ensures exact { IfOk result (λ marks. (v : ℕ) →
        (mark_at marks.items v ≡ true) ↔ IsReached rows.now source v) }
{
    let in_rows = rows.flip()?;
    let (stamps, seat) = StampWords::open(alloc, rows.n())?;
    search(rt, alloc, team, rows, &in_rows, source, &stamps, seat)
}

/// Breadth first: each round maps the edges of its frontier, and their targets are the next frontier.
fn search<R: Threads + Sync, G: Gate>(
    rt: &R,
    alloc: Global,
    team: &Team<'_, G>,
    rows: &Rows,
    in_rows: &InRows,
    source: u32,
    stamps: &StampWords,
    mut seat: StampSeat,
) -> Result<Vec<bool>, AllocError>
    requires vertex { source < vertices rows.now }
    requires flip { IsFlip rows.now in_rows.now }
    requires stamps { CanStamp (vertices rows.now) stamps.now 1 seat }

    ensures size { IfOk result (λ marks. length marks.items ≡ vertices rows.now) }
    ensures exact { IfOk result (λ marks. (v : ℕ) →
        (mark_at marks.items v ≡ true) ↔ IsReached rows.now source v) }
{
    let mut reached = vec![in alloc; false; rows.n() as usize]?;
    reached[source as usize] = true;
    let mut frontier = VertexSubset::from_increasing(alloc, rows.n(), vec![in alloc; source]?);
    let mut round = 1;
    'rounds: while frontier.len() > 0 {
        let f = Unreached {
            reached: reached.as_slice(),
        };
        let token = Free::root();
        let out = edge_map(
            rt, alloc, team, rows, in_rows, &frontier, &f, token, stamps, seat, round,
        )?;
        frontier = out.subset;
        seat = out.stamp_seat;
        mark_all(&mut reached, frontier.ids()?.as_slice());
        round += 1;
    }
    Ok(reached)
}
