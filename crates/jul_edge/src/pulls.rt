//! Edges walked from their targets.
ghost use Rattle.std.specs.Prelude.{◌≡◌, ℕ, ◌+◌, ◌-◌, ◌*◌, ◌<◌, ◌≤◌, [], true, List, length, IfOk};
ghost use Rattle.jul_base.specs.Graph.{vertices, places, IsLawful};
ghost use Rattle.jul_base.specs.InRows.{IsFlip};
ghost use Rattle.jul_base.specs.Numbers.{below};
ghost use Rattle.jul_subset.specs.Subsets.{IsSubset};
ghost use Rattle.jul_subset.specs.Chunks.{chunk_of};
ghost use Rattle.jul_edge.specs.declared.functions.Direction.TheVariants.{Pull};
ghost use Rattle.jul_edge.specs.Edges.{Application, IsWanted};
ghost use Rattle.jul_edge.specs.EdgeMaps.{HasMapped};
ghost use Rattle.jul_edge.specs.Covers.{app_of, Applies};
ghost use Rattle.jul_edge.specs.Pulls.{MayPull, PulledChunk};

use crate::functions::{Direction, EdgeFn};
use crate::maps::PullOut;
use crate::pulling::pull_targets;
use jul_base::{Gate, Share};
use jul_pool::{Job, Team, run_all};
use jul_rows::{InRows, Rows, Visit};
use jul_subset::{VertexSubset, joined};
use std::alloc::{AllocError, Global};
use std::thread::Threads;

/// A function that is applied to places.
#[derive(Drop)]
pub(crate) struct PullVisit<'a, F: EdgeFn> {
    rows: &'a Rows,
    f: &'a F,
}

impl<'a, F: EdgeFn> Visit for PullVisit<'a, F> {
    type State = F::Token;

    ghost can_want = { λ j. F.can_want j.f.now };

    ghost wanted = { λ j. F.wanted j.f.now };

    ghost can_visit = { λ j s t. (s.place < places j.rows.now)
        × F.can_apply j.f.now (app_of Pull j.rows.now s) (F.Token.home t) };

    ghost visits = { λ j. Applies Pull j.rows.now (F.gives j.f.now) F.Token.log };

    ghost home = { F.Token.home };

    ghost is_root = { F.Token.is_root };

    ghost out = { F.Token.out };

    fn wants(&self, v: u32) -> bool {
        self.f.wants(v)
    }

    fn visit(&self, state: &mut F::Token, u: u32, place: u32, v: u32) -> bool {
        let w = self.rows.weight(place);
        self.f.apply(state, Direction::Pull, u, place, v, w)
    }
}

/// A pull that is cut into chunks of vertices.
#[derive(Drop)]
pub(crate) struct PullJob<'a, F: EdgeFn> {
    alloc: Global,
    in_rows: &'a InRows,
    from: &'a VertexSubset,
    size: u32,
    visit: PullVisit<'a, F>,
}

impl<'a, F: EdgeFn> Job for PullJob<'a, F> {
    type Token = F::Token;

    type Out = Vec<u32>;

    ghost can_run = { λ j chunk home. (chunk * j.size < vertices j.visit.rows.now) × (j.size ≤ 65536)
        × MayPull (F.can_want j.visit.f.now) (F.can_apply j.visit.f.now) j.visit.rows.now j.in_rows.now
        j.from.now.members (F.wanted j.visit.f.now) home };

    ghost gives = { λ j chunk out added. PulledChunk (F.gives j.visit.f.now) j.visit.rows.now j.in_rows.now
        j.from.now.members (F.wanted j.visit.f.now) (chunk_of (below (vertices j.visit.rows.now)) j.size chunk)
        added out.items };

    fn run(&self, chunk: u32, token: &mut F::Token) -> Result<Vec<u32>, AllocError> {
        let n = self.visit.rows.n();
        let first = chunk * self.size;
        let last = n.min(first + self.size);
        let mut noted = Vec::new(self.alloc);
        pull_targets(
            self.in_rows,
            self.from,
            &self.visit,
            first,
            last,
            token,
            &mut noted,
        )?;
        Ok(noted)
    }
}

/// Applies `f` once to each place from a member of `from` to a target that `f` wants, walking the in-rows of the
/// wanted targets. The time depends on the vertices and on the places that lead to wanted ones.
///
/// After an error the token is gone.
pub fn edge_pull<R: Threads + Sync, F: EdgeFn, G: Gate>(
    rt: &R,
    alloc: Global,
    team: &Team<'_, G>,
    rows: &Rows,
    in_rows: &InRows,
    from: &VertexSubset,
    f: &F,
    token: F::Token,
) -> Result<PullOut<F::Token>, AllocError>
    requires n { from.now.n ≡ vertices rows.now }
    requires flip { IsFlip rows.now in_rows.now }
    requires root { F.Token.is_root token ≡ true }
    requires none_out { F.Token.out token ≡ 0 }
    requires want { (v : ℕ) → v < vertices rows.now → F.can_want f.now v }
    requires apply { (a : Application) → IsWanted Pull rows.now from.now.members (F.wanted f.now) a →
        F.can_apply f.now a (F.Token.home token) }

    ensures made { IfOk result (λ r. HasMapped F.Token.log F.Token.home F.Token.is_root F.Token.out
        Pull rows.now from.now.members (F.wanted f.now) (F.gives f.now) token r.token r.subset) }
{
    if from.is_dense() {
        return pull_dense(rt, alloc, team, rows, in_rows, from, f, token);
    }
    let marked = from.dense_copy()?;
    pull_dense(rt, alloc, team, rows, in_rows, &marked, f, token)
}

/// A pull from a subset that tells in constant time whether a vertex is a member.
fn pull_dense<R: Threads + Sync, F: EdgeFn, G: Gate>(
    rt: &R,
    alloc: Global,
    team: &Team<'_, G>,
    rows: &Rows,
    in_rows: &InRows,
    from: &VertexSubset,
    f: &F,
    token: F::Token,
) -> Result<PullOut<F::Token>, AllocError>
    requires flip { IsFlip rows.now in_rows.now }
    requires root { F.Token.is_root token ≡ true }
    requires none_out { F.Token.out token ≡ 0 }
    requires want { (v : ℕ) → v < vertices rows.now → F.can_want f.now v }
    requires apply { (a : Application) → IsWanted Pull rows.now from.now.members (F.wanted f.now) a →
        F.can_apply f.now a (F.Token.home token) }

    ensures made { IfOk result (λ r. HasMapped F.Token.log F.Token.home F.Token.is_root F.Token.out
        Pull rows.now from.now.members (F.wanted f.now) (F.gives f.now) token r.token r.subset) }
{
    let n = rows.n();
    let chunks = n.div_ceil(team.chunk);
    let job = PullJob {
        alloc,
        in_rows,
        from,
        size: team.chunk,
        visit: PullVisit { rows, f },
    };
    let ran = run_all(rt, alloc, team, chunks, &job, token)?;
    let noted = joined(alloc, &ran.outs)?;
    let mut subset = VertexSubset::from_increasing(alloc, n, noted);
    subset.to_dense()?;
    Ok(PullOut {
        subset,
        token: ran.token,
    })
}
